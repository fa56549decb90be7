// The least and the greatest coordinate of the points at which a row is allowed with a shape (document 01): the sweep of the cut box, which
// asks at each candidate for an area around it that is forbidden. What can forbid the row with the shape is listed before it. One search
// serves both ends: the greatest is the least of the mirrored points.
#![tactic(auto)]

ghost use Rattle.std.specs.Prelude.{◌≡◌, ◌<◌, ◌≤◌};
ghost use Rattle.integers.specs.Integer.{nat};
ghost use Rattle.sheet.specs.Layout.{axes};
ghost use Rattle.sheet.specs.Bounds.{least_of, greatest_of};
ghost use Rattle.sheet.specs.Refusal.{refusal_dim};
ghost use Rattle.sheet.specs.Answer.{answer, as_option};
ghost use Rattle.outline.specs.Outline.{Subject};
ghost use Rattle.nearby.specs.Listing.{Listed};
ghost use Rattle.bounds.specs.Search.{Searching, Sighted, extreme_of};

use nearby::known::KNOWN;
use nearby::suspect::{FEW, FEW_WORDS, MANY_WORDS};
use nearby::{Nearby, gather, suspect};
use outline::OUTLINE;
use points::{Area, COORDINATES};
use sheet::Refusal;
use sweep::Sweep;
use words::Place;

// A point with the least coordinate in dimension d, or where flip is set the greatest, of the area's points that no rule forbids to the row
// and shape of the list, which is that of the area. The sweep's candidate is a point, or its mirror image.
pub fn search(
    block: &[i64],
    table: &[i64],
    outline: &[i64; OUTLINE],
    suspects: &[i64],
    known: &mut [i64; KNOWN],
    nearby: Nearby,
    d: usize,
    flip: bool,
    area: Area,
) -> Option<[i64; COORDINATES]>
    requires { Searching block.now table.now outline.now suspects.now known.old nearby d area }
    ensures { Sighted flip block.now table.now nearby.i.number nearby.s area d result
        × Listed block.now table.now nearby suspects.now known.new }
{
    let k = words::axes_of(block);
    let first = sweep::turned_end(area.high, area.low, flip);
    let end = sweep::turned_end(area.low, area.high, flip);
    let mut w = Sweep::new(first, end);
    while w.live {
        let p = sweep::turned_point(w.candidate, flip);
        let Some(bad) = nearby::region_at(block, table, outline, suspects, known, nearby, p) else {
            return Some(p);
        };
        let last = sweep::turned_end(bad.low, bad.high, flip);
        w = w.jumped(last);
        w = w.advanced(k, d, first, end);
    }
    None
}

// The least coordinate in dimension d, or where flip is set the greatest, of the points at which row i is allowed with shape s. N words make
// room for its suspects.
fn extreme<const N: usize>(
    block: &[i64],
    table: &[i64],
    outline: &[i64; OUTLINE],
    i: Place,
    s: usize,
    d: usize,
    flip: bool,
) -> Option<i64>
    requires room { N ≤ 5120 }
    requires of { Subject block.now table.now outline.now i s × (d < axes block.now) }
    ensures { result ≡ as_option (extreme_of flip block.now table.now i.number s d) }
{
    let cut = region::cut_box(block, table, outline, i, s);
    if !cut.holds(words::axes_of(block), cut.low) {
        return None;
    }
    let mut suspects = [0i64; N];
    let mut known = [0i64; KNOWN];
    let nearby = gather::gather(block, table, outline, &mut suspects, &mut known, i, s);
    let p = search(
        block, table, outline, &suspects, &mut known, nearby, d, flip, cut,
    )?;
    Some(p[d])
}

fn bound(
    block: &[i64],
    table: &[i64],
    row: i64,
    shape: i64,
    dimension: i64,
    flip: bool,
) -> Result<Option<i64>, Refusal>
    ensures { result ≡ answer (refusal_dim block.now table.now row shape dimension)
        (as_option (extreme_of flip block.now table.now (nat row) (nat shape) (nat dimension))) }
{
    accept::check_dim(block, table, row, shape, dimension)?;
    let i = words::row_place(block, table, row as usize);
    let s = shape as usize;
    let d = dimension as usize;
    let mut outline = [0i64; OUTLINE];
    outline::draw(block, &mut outline);
    if suspect::most(block, table, &outline) <= FEW {
        Ok(extreme::<FEW_WORDS>(block, table, &outline, i, s, d, flip))
    } else {
        Ok(extreme::<MANY_WORDS>(block, table, &outline, i, s, d, flip))
    }
}

pub fn least(
    block: &[i64],
    table: &[i64],
    row: i64,
    shape: i64,
    dimension: i64,
) -> Result<Option<i64>, Refusal>
    ensures { result ≡ answer (refusal_dim block.now table.now row shape dimension)
        (as_option (least_of block.now table.now (nat row) (nat shape) (nat dimension))) }
{
    bound(block, table, row, shape, dimension, false)
}

pub fn greatest(
    block: &[i64],
    table: &[i64],
    row: i64,
    shape: i64,
    dimension: i64,
) -> Result<Option<i64>, Refusal>
    ensures { result ≡ answer (refusal_dim block.now table.now row shape dimension)
        (as_option (greatest_of block.now table.now (nat row) (nat shape) (nat dimension))) }
{
    bound(block, table, row, shape, dimension, true)
}
