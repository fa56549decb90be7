// The shapes of a row that have a point, one after the other, and the ends that their points reach.
ghost use Rattle.std.specs.Prelude.{◌≡◌, true, suc, ◌+◌, ◌^◌, ◌<◌};
ghost use Rattle.integers.specs.Integer.{nat};
ghost use Rattle.integers.specs.Bits.{set_of};
ghost use Rattle.sheet.specs.Layout.{shape_set, has_shape};
ghost use Rattle.sheet.specs.Narrow.{keeps_shape};
ghost use Rattle.narrow.specs.Ends.{Ends};
ghost use Rattle.narrow.specs.Shapes.{KeptTo, Keeping};

use crate::widen;
use nearby::gather;
use nearby::known::KNOWN;
use outline::OUTLINE;
use points::ends;
use words::Place;

// Takes the ends on to shape s + 1 of the row. Whether it has a point. Where nothing can forbid it one, the corners of the cut box have every end.
fn with_shape(
    block: &[i64],
    table: &[i64],
    outline: &[i64; OUTLINE],
    suspects: &mut [i64],
    known: &mut [i64; KNOWN],
    ends: &mut [i64],
    i: Place,
    s: usize,
) -> bool
    requires { Keeping block.now table.now outline.now i s ends.old
        × (has_shape block.now table.now i.number (suc s) ≡ true) }
    ensures { (result ≡ keeps_shape block.now table.now i.number (suc s))
        × Ends block.now table.now i.number (suc s) ends.new }
{
    let cut = region::cut_box(block, table, outline, i, s + 1);
    if !cut.holds(words::axes_of(block), cut.low) {
        return false;
    }
    let nearby = gather::gather(block, table, outline, suspects, known, i, s + 1);
    if nearby::lists_nothing(known, nearby) {
        ends::take_in(ends, cut.low);
        ends::take_in(ends, cut.high);
        return true;
    }
    let Some(p) = bounds::search(
        block, table, outline, suspects, known, nearby, 0, false, cut,
    ) else {
        return false;
    };
    ends::take_in(ends, p);
    widen::widen(block, table, outline, suspects, known, ends, nearby, cut);
    true
}

// Which of the shapes up to s + 1 have a point, of those up to s: shape s + 1 is looked at if it is one of the row's set.
fn with_next(
    block: &[i64],
    table: &[i64],
    outline: &[i64; OUTLINE],
    suspects: &mut [i64],
    known: &mut [i64; KNOWN],
    ends: &mut [i64],
    i: Place,
    s: usize,
    set: u32,
    shapes: u32,
) -> u32
    requires { Keeping block.now table.now outline.now i s ends.old
        × (set ≡ nat (shape_set block.now table.now i.number))
        × (shapes ≡ set_of s (keeps_shape block.now table.now i.number)) }
    ensures { KeptTo block.now table.now i.number (suc s) result ends.new }
{
    if !words::has_member(set, s) {
        return shapes;
    }
    if with_shape(block, table, outline, suspects, known, ends, i, s) {
        words::with_member(shapes, s)
    } else {
        shapes
    }
}

// Which shapes of row i have a point: from the first of its set to the last. The ends are lent as those of no shape.
pub(crate) fn kept_shapes(
    block: &[i64],
    table: &[i64],
    outline: &[i64; OUTLINE],
    suspects: &mut [i64],
    known: &mut [i64; KNOWN],
    ends: &mut [i64],
    i: Place,
) -> u32
    requires { Keeping block.now table.now outline.now i 0 ends.old }
    ensures { KeptTo block.now table.now i.number 32 result ends.new }
{
    let set = words::shapes_of(block, table, i);
    let first = u32::trailing_zeros(set) as usize;
    let mut shapes = 0;
    for s in first..32 {
        if words::is_below(set, s) {
            return shapes;
        }
        shapes = with_next(
            block, table, outline, suspects, known, ends, i, s, set, shapes,
        );
    }
    shapes
}
