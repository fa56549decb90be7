// One solid of a row against one solid of another: what the pair forbids by a rule. Solids are boxes, and hulls that stand for all boxes of
// a shape.
ghost use Rattle.std.specs.Prelude.{◌≡◌, true, ◌<◌, ℤ};
ghost use Rattle.integers.specs.Integer.{within};
ghost use Rattle.sheet.specs.Layout.{dims, axes};
ghost use Rattle.words.specs.Places.{RowPlace};
ghost use Rattle.points.specs.Area.{Cuts, field_area};
ghost use Rattle.forbid.specs.Pair.{PairPlaces, Meets, IsInterval, side_forbids, solids_forbid};

use crate::interval;
use crate::interval::Interval;
use outline::{OUTLINE, solid};
use points::{Area, COORDINATES};
use words::Place;

// Rule r, a solid of a row, and another solid of row j: what the other forbids to the own one.
#[derive(Clone, Copy)]
pub struct Pair {
    pub r: Place,
    pub own: usize,
    pub j: Place,
    pub other: usize,
}

// What the pair forbids in dimension d, if the rule names d.
fn interval_of(
    block: &[i64],
    table: &[i64],
    outline: &[i64; OUTLINE],
    pair: Pair,
    d: usize,
) -> Interval
    requires { PairPlaces block.now table.now outline.now pair × (d < dims block.now) }
    ensures { IsInterval block.now table.now outline.now pair d result }
{
    let own = solid::extent_of(outline, pair.own, d);
    let other = solid::extent_of(outline, pair.other, d);
    let low = words::low_of(block, table, pair.j, d);
    let high = words::high_of(block, table, pair.j, d);
    let clearance = words::clearance_of(block, pair.r, d);
    interval::overlapping(own, other, low, high, clearance)
}

// Whether the pair forbids x in dimension d, if the rule names d.
fn side_forbids(
    block: &[i64],
    table: &[i64],
    outline: &[i64; OUTLINE],
    pair: Pair,
    d: usize,
    x: i64,
) -> bool
    requires { PairPlaces block.now table.now outline.now pair × (d < dims block.now) }
    ensures { result ≡ side_forbids block.now table.now outline.now pair d x }
{
    if !words::names_dim(block, pair.r, d) {
        return true;
    }
    let interval = interval_of(block, table, outline, pair, d);
    words::is_within(x, interval.from, interval.to)
}

// Whether the pair forbids p: in every dimension that the rule names, and no further than the first that clears it. The loop's bound is a
// constant: unrolled, it keeps p in registers. It is compiled into the search for a pair, which otherwise takes a third longer.
#[inline(always)]
pub(crate) fn pair_forbids(
    block: &[i64],
    table: &[i64],
    outline: &[i64; OUTLINE],
    pair: Pair,
    p: [i64; COORDINATES],
) -> bool
    requires { PairPlaces block.now table.now outline.now pair }
    ensures { result ≡ solids_forbid block.now table.now outline.now pair p }
{
    let k = words::dims_of(block);
    (0..COORDINATES).all(|d| d >= k || side_forbids(block, table, outline, pair, d, p[d]))
}

// Whether no number from a first to a last one lies from low to high. All three tests are made, for one branch instead of three.
fn is_apart(from: i64, to: i64, low: i64, high: i64) -> bool
    ensures { result ≡ true → (z : ℤ) → within from to z ≡ true → within low high z ≡ true → ⊥ }
{
    (to < low) | (high < from) | (to < from)
}

// Whether the pair may forbid row i a point of its ranges, and then the points that it forbids: no further than the first dimension in which it
// forbids none of them.
pub fn pair_meets(
    block: &[i64],
    table: &[i64],
    outline: &[i64; OUTLINE],
    pair: Pair,
    i: Place,
) -> Option<Area>
    requires { PairPlaces block.now table.now outline.now pair × RowPlace block.now table.now i }
    ensures { Meets block.now table.now outline.now pair i.number result }
{
    let mut area = Area::field();
    for d in 0..words::dims_of(block) {
        if words::names_dim(block, pair.r, d) {
            let x = interval_of(block, table, outline, pair, d);
            let first = words::low_of(block, table, i, d);
            let last = words::high_of(block, table, i, d);
            if is_apart(x.from, x.to, first, last) {
                return None;
            }
            area.low[d] = x.from;
            area.high[d] = x.to;
        }
    }
    Some(area)
}

// The points that the pair forbids: its intervals in the named dimensions, the whole field in the others. In one function with `pair_meets`, whose
// test it lacks, its answer would be an `Option` that is never `None`.
pub(crate) fn pair_area(block: &[i64], table: &[i64], outline: &[i64; OUTLINE], pair: Pair) -> Area
    requires { PairPlaces block.now table.now outline.now pair }
    ensures { Cuts (axes block.now) field_area result
        (solids_forbid block.now table.now outline.now pair) }
{
    let mut area = Area::field();
    for d in 0..words::dims_of(block) {
        if words::names_dim(block, pair.r, d) {
            let x = interval_of(block, table, outline, pair, d);
            area.low[d] = x.from;
            area.high[d] = x.to;
        }
    }
    area
}
