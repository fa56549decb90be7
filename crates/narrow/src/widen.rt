// How the search of one shape more takes the ends of a row on to the points of that shape.
ghost use Rattle.std.specs.Prelude.{◌≡◌, ℕ, ◌+◌, ◌-◌, ◌<◌, leb};
ghost use Rattle.integers.specs.Integer.{within, Within};
ghost use Rattle.integers.specs.Words.{word};
ghost use Rattle.sheet.specs.Layout.{axes};
ghost use Rattle.points.specs.Area.{coordinates, Cuts, area_of};
ghost use Rattle.points.specs.Ends.{end_at};
ghost use Rattle.nearby.specs.Listing.{Listed};
ghost use Rattle.narrow.specs.Ends.{beyond, past-from, past_to, none-past, Edge, Edges, Kept, Widening};

use nearby::Nearby;
use nearby::known::KNOWN;
use outline::OUTLINE;
use points::ends::AREA_WORDS;
use points::{Area, REACH, ends};

// Whether nothing of the area lies strictly ahead of z in dimension d: below it, or where flip is set above it.
fn none_past(area: &[i64; AREA_WORDS], d: usize, flip: bool, z: i64) -> bool
    requires { d < coordinates }
    ensures { result ≡ none-past flip (area_of area.now) d z }
{
    let end = ends::end_of(area, d, flip);
    if flip { end <= z } else { z <= end }
}

// The area cut to what lies strictly ahead of z in dimension d.
fn ahead_of(area: Area, d: usize, flip: bool, z: i64) -> Area
    requires { (d < coordinates) × Within beyond z }
    ensures { (k : ℕ) → d < k → Cuts k area result (λ p. within (past-from flip z) (past_to flip z) (word p d)) }
{
    if flip {
        area.within(d, z + 1, REACH)
    } else {
        area.within(d, -REACH, z - 1)
    }
}

// Takes the end in dimension d on to the points of the list's shape, of which the cut box is: only those ahead of the end are searched.
fn widen_end(
    block: &[i64],
    table: &[i64],
    outline: &[i64; OUTLINE],
    suspects: &[i64],
    known: &mut [i64; KNOWN],
    ends: &mut [i64],
    nearby: Nearby,
    d: usize,
    flip: bool,
    cut: &[i64; AREA_WORDS],
)
    requires { Widening block.now table.now outline.now suspects.now known.old nearby (area_of cut.now) (nearby.s - 1) ends.old
        × (d < axes block.now)
        × Edge block.now table.now nearby.i.number flip (nearby.s - 1) d (end_at flip d ends.old) }
    ensures { Kept block.now table.now nearby.i.number ends.old ends.new
        × Edge block.now table.now nearby.i.number flip nearby.s d (end_at flip d ends.new)
        × Listed block.now table.now nearby suspects.now known.new }
{
    let z = ends::end_of(ends, d, flip);
    if none_past(cut, d, flip, z) {
        return;
    }
    let ahead = ahead_of(ends::area_at(cut, 0), d, flip, z);
    if let Some(p) = bounds::search(
        block, table, outline, suspects, known, nearby, d, flip, ahead,
    ) {
        ends::take_in(ends, p);
    }
}

// Takes every end on to the points of the list's shape: the low ends, and then the high ones.
pub(crate) fn widen(
    block: &[i64],
    table: &[i64],
    outline: &[i64; OUTLINE],
    suspects: &[i64],
    known: &mut [i64; KNOWN],
    ends: &mut [i64],
    nearby: Nearby,
    cut: Area,
)
    requires { Widening block.now table.now outline.now suspects.now known.old nearby cut (nearby.s - 1) ends.old
        × Edges block.now table.now nearby.i.number (nearby.s - 1) ends.old }
    ensures { Edges block.now table.now nearby.i.number nearby.s ends.new }
{
    let k = words::axes_of(block);
    let mut cut_ends = [0i64; AREA_WORDS];
    ends::put_area(&mut cut_ends, 0, cut);
    for flip in [false, true] {
        for d in 0..k {
            widen_end(
                block, table, outline, suspects, known, ends, nearby, d, flip, &cut_ends,
            );
        }
    }
}
