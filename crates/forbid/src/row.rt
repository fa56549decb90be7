// What one other row forbids: by every shape of its set, each by some pair of boxes.
ghost use Rattle.std.specs.Prelude.{◌≡◌, ℕ};
ghost use Rattle.sheet.specs.Layout.{axes};
ghost use Rattle.sheet.specs.Allowed.{shapes_forbid, set_forbids, row_forbids};
ghost use Rattle.sheet.specs.Accepted.{Boxed};
ghost use Rattle.forbid.specs.Region.{IsRegion, Versus, PairFound};

use crate::pair;
use crate::pair::Pair;
use outline::{OUTLINE, chain, solid};
use points::{Area, COORDINATES};
use words::Place;

// A box of a row and a box of another row.
#[derive(Clone, Copy)]
pub(crate) struct Boxes {
    pub own: usize,
    pub other: usize,
}

// A box of shape s and a box of shape t of row j that forbid p: one pair is enough. A box of t that is clear of the hull of s is clear of every
// box of s.
fn forbidding_boxes(
    block: &[i64],
    table: &[i64],
    outline: &[i64; OUTLINE],
    r: Place,
    s: usize,
    j: Place,
    t: usize,
    p: [i64; COORDINATES],
) -> Option<Boxes>
    requires { Versus block.now table.now outline.now r s j p × Boxed block.now t }
    ensures { PairFound block.now table.now outline.now r s j t p result }
{
    let hull = solid::hull_of(s);
    let mut found = None;
    let mut other_box = chain::first_of(block, outline, t);
    'pairs: while let Some(other) = other_box {
        if pair::pair_forbids(
            block,
            table,
            outline,
            Pair {
                r,
                own: hull,
                j,
                other,
            },
            p,
        ) {
            let mut own_box = chain::first_of(block, outline, s);
            while let Some(own) = own_box {
                if pair::pair_forbids(block, table, outline, Pair { r, own, j, other }, p) {
                    found = Some(Boxes { own, other });
                    break 'pairs;
                }
                own_box = chain::after(block, outline, own, s);
            }
        }
        other_box = chain::after(block, outline, other, t);
    }
    found
}

// What row j forbids with shape t to shape s of another row: what a pair of boxes does.
pub fn shapes_region(
    block: &[i64],
    table: &[i64],
    outline: &[i64; OUTLINE],
    r: Place,
    s: usize,
    j: Place,
    t: usize,
    p: [i64; COORDINATES],
) -> Option<Area>
    requires { Versus block.now table.now outline.now r s j p × Boxed block.now t }
    ensures { (i : ℕ) → IsRegion (axes block.now)
        (λ q. shapes_forbid block.now table.now r.number q i s j.number t) p result }
{
    let Boxes { own, other } = forbidding_boxes(block, table, outline, r, s, j, t, p)?;
    Some(pair::pair_area(block, table, outline, Pair { r, own, j, other }))
}

// What row j forbids by its set, from its first shape to its last: each of them forbids the point, and the area is what they share. No further
// than the first that misses.
pub fn set_region(
    block: &[i64],
    table: &[i64],
    outline: &[i64; OUTLINE],
    r: Place,
    s: usize,
    j: Place,
    p: [i64; COORDINATES],
) -> Option<Area>
    requires { Versus block.now table.now outline.now r s j p }
    ensures { (i : ℕ) → IsRegion (axes block.now)
        (λ q. set_forbids block.now table.now r.number q i s j.number) p result }
{
    let k = words::axes_of(block);
    let set = words::shapes_of(block, table, j);
    let mut area = Area::field();
    for t in u32::trailing_zeros(set) as usize..32 {
        if words::is_below(set, t) {
            break;
        }
        if words::has_shape(block, table, j, t + 1) {
            let Some(other) = shapes_region(block, table, outline, r, s, j, t + 1, p) else {
                return None;
            };
            area = area.common(k, other);
        }
    }
    Some(area)
}

// What row j forbids to row i, if it is another row and the rule names it.
pub(crate) fn row_region(
    block: &[i64],
    table: &[i64],
    outline: &[i64; OUTLINE],
    r: Place,
    i: usize,
    s: usize,
    j: Place,
    p: [i64; COORDINATES],
) -> Option<Area>
    requires { Versus block.now table.now outline.now r s j p }
    ensures { IsRegion (axes block.now)
        (λ q. row_forbids block.now table.now r.number q i s j.number) p result }
{
    let other = j.number;
    if other == i {
        return None;
    }
    if !words::names_row(block, r, other) {
        return None;
    }
    set_region(block, table, outline, r, s, j, p)
}
