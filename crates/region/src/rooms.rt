// The room rules (kind 2) of a row, as cuts of an area in place: `ends` holds its low point, then its high point. Besides acceptance no
// other code of the kernel reads a room.
ghost use Rattle.std.specs.Prelude.{◌≡◌, ◌&&◌, ◌<◌};
ghost use Rattle.integers.specs.Below.{UpTo};
ghost use Rattle.sheet.specs.Layout.{dims, axes, rules, is_containment, names_row};
ghost use Rattle.sheet.specs.Allowed.{rooms_hold};
ghost use Rattle.sheet.specs.Accepted.{Block};
ghost use Rattle.words.specs.Places.{RulePlace};
ghost use Rattle.points.specs.Area.{Cuts, area_of};
ghost use Rattle.region.specs.Rooms.{side_contained, shape_contained, room_holds, Cutting, CuttingRow};

use outline::{OUTLINE, solid};
use points::ends::AREA_WORDS;
use points::{COORDINATES, ends};
use words::Place;

// Cuts the area to the points at which every box of shape s, and so its hull, lies in rule r's room in dimension d.
fn cut_by_side(
    ends: &mut [i64; AREA_WORDS],
    block: &[i64],
    outline: &[i64; OUTLINE],
    r: Place,
    s: usize,
    d: usize,
)
    requires { Cutting block.now outline.now r s × (d < dims block.now) }
    ensures { Cuts (axes block.now) (area_of ends.old) (area_of ends.new)
        (side_contained block.now outline.now r.number s d) }
{
    let hull = solid::extent_of(outline, solid::hull_of(s), d);
    let low = words::room_low(block, r, d) - hull.start;
    let high = words::room_high(block, r, d) - hull.end;
    ends::cut(ends, d, low, high);
}

// Cuts the area to the points at which every box of shape s lies in rule r's room. The loop's bound is a constant, so that it is unrolled.
fn cut_by_shape(
    ends: &mut [i64; AREA_WORDS],
    block: &[i64],
    outline: &[i64; OUTLINE],
    r: Place,
    s: usize,
)
    requires { Cutting block.now outline.now r s }
    ensures { Cuts (axes block.now) (area_of ends.old) (area_of ends.new)
        (shape_contained block.now r.number s) }
{
    let k = words::dims_of(block);
    for d in 0..COORDINATES {
        if d == k {
            break;
        }
        if words::names_dim(block, r, d) {
            cut_by_side(ends, block, outline, r, s, d);
        }
    }
}

// Whether rule r keeps row i in a room.
fn is_room_of(block: &[i64], r: Place, i: usize) -> bool
    requires { Block block.now × RulePlace block.now r × UpTo 32 i }
    ensures { result ≡ (is_containment block.now r.number
        && names_row block.now r.number i) }
{
    words::is_containment(block, r) && words::names_row(block, r, i)
}

// Cuts the area to the points at which shape s lies in rule r's room, if the rule keeps row i in one.
fn cut_by_rule(
    ends: &mut [i64; AREA_WORDS],
    block: &[i64],
    outline: &[i64; OUTLINE],
    i: usize,
    s: usize,
    r: usize,
)
    requires { CuttingRow block.now outline.now i s × (r < rules block.now) }
    ensures { Cuts (axes block.now) (area_of ends.old) (area_of ends.new)
        (room_holds block.now i s r) }
{
    let rule = words::rule_place(block, r);
    if is_room_of(block, rule, i) {
        cut_by_shape(ends, block, outline, rule, s);
    }
}

// Cuts the area to the points at which shape s lies in every room in which a rule keeps row i.
pub(crate) fn cut_by_rooms(
    ends: &mut [i64; AREA_WORDS],
    block: &[i64],
    outline: &[i64; OUTLINE],
    i: usize,
    s: usize,
)
    requires { CuttingRow block.now outline.now i s }
    ensures { Cuts (axes block.now) (area_of ends.old) (area_of ends.new)
        (rooms_hold block.now i s) }
{
    for r in 0..words::rules_of(block) {
        cut_by_rule(ends, block, outline, i, s, r);
    }
}
