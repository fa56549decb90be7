// Suspects: another row and a rule, and an area that holds every point that they can forbid. They are lent as a run of words, which is shorter
// where there can be few (docs/DECISIONS.md 29, 30).
ghost use Rattle.std.specs.Prelude.{◌≡◌, true, ℕ, suc, ◌*◌, ◌≤◌, pos, length};
ghost use Rattle.std.specs.Int.Count.{ones};
ghost use Rattle.integers.specs.Words.{word};
ghost use Rattle.integers.specs.Integer.{nat};
ghost use Rattle.sheet.specs.Layout.{axes, rows};
ghost use Rattle.sheet.specs.Allowed.{set_forbids, forbidden};
ghost use Rattle.sheet.specs.Accepted.{Count, Head, Rows};
ghost use Rattle.points.specs.Area.{in_area};
ghost use Rattle.points.specs.Ends.{SameBut};
ghost use Rattle.outline.specs.Places.{rules_at};
ghost use Rattle.forbid.specs.Region.{IsRegion, AtPoint};
ghost use Rattle.nearby.specs.Places.{suspect_len, suspect_at, suspect_row, suspect_area};
ghost use Rattle.nearby.specs.Listing.{Suspected, SuspectAt, suspect_forbids};

use crate::Nearby;
use forbid::row;
use outline::{OUTLINE, rules};
use points::ends::AREA_WORDS;
use points::{Area, COORDINATES, ends};
use words::Place;

// Where the words of a suspect stand: first its rule, then its row and its area; and how many there are.
const ROW: usize = 1;

const AREA: usize = 2;

pub(crate) const SUSPECT: usize = AREA + AREA_WORDS;

// How many suspects a caller makes room for: a few where there can be no more, and else many; and the words of each number.
pub const FEW: usize = 64;

pub const FEW_WORDS: usize = FEW * SUSPECT;

pub const MANY_WORDS: usize = 512 * SUSPECT;

// No row and shape has more suspects: the rows times the rules that count.
pub fn most(block: &[i64], table: &[i64], outline: &[i64; OUTLINE]) -> usize
    requires { Head block.now × Rows block.now table.now × Count (word outline.now rules_at) }
    ensures { result ≡ rows block.now table.now * ones (nat (word outline.now rules_at)) }
{
    words::rows_of(block, table) * rules::how_many(outline)
}

// Puts suspect e: rule r, row j and an area.
pub(crate) fn put_suspect(suspects: &mut [i64], e: usize, r: usize, j: usize, area: Area)
    requires { (suspect_at (suc e) ≤ length suspects.old) × (r ≤ 32) × (j ≤ 32) }
    ensures { SameBut (suspect_at e) suspect_len suspects.old suspects.new
        × (word suspects.new (suspect_at e) ≡ pos r) × (word suspects.new (suspect_row e) ≡ pos j)
        × (suspect_area suspects.new e ≡ area) }
{
    let at = SUSPECT * e;
    suspects[at] = r as i64;
    suspects[at + ROW] = j as i64;
    ends::put_area(suspects, at + AREA, area);
}

// What suspect e, whose area holds p, forbids at p. A row with one shape, as most have, is asked about by that shape alone. Either region is
// handed back where it is found, since one that may come of two calls is copied.
fn region_of(
    block: &[i64],
    table: &[i64],
    outline: &[i64; OUTLINE],
    suspects: &[i64],
    i: Place,
    s: usize,
    e: usize,
    p: [i64; COORDINATES],
) -> Option<Area>
    requires { AtPoint block.now table.now outline.now s p × SuspectAt block.now table.now i.number s suspects.now e
        × (in_area (axes block.now) (suspect_area suspects.now e) p ≡ true) }
    ensures { IsRegion (axes block.now) (suspect_forbids block.now table.now i.number s suspects.now p e) p result }
{
    let at = SUSPECT * e;
    let r = words::rule_place(block, words::count_at(suspects, at));
    let j = words::row_place(block, table, words::count_at(suspects, at + ROW));
    if words::has_one_shape(block, table, j) {
        let t = words::lowest_shape(block, table, j);
        return row::shapes_region(block, table, outline, r, s, j, t, p);
    }
    row::set_region(block, table, outline, r, s, j, p)
}

// What forbids p among the suspects, or where the list is not whole among all rules and rows. The area is asked here, so that nothing is
// handed back for a suspect that misses, as most do.
pub(crate) fn suspected_region(
    block: &[i64],
    table: &[i64],
    outline: &[i64; OUTLINE],
    suspects: &[i64],
    nearby: Nearby,
    p: [i64; COORDINATES],
) -> Option<Area>
    requires { Suspected block.now table.now outline.now nearby suspects.now p }
    ensures { IsRegion (axes block.now)
        (forbidden block.now table.now nearby.i.number nearby.s) p result }
{
    let Some(count) = nearby.count else {
        return forbid::forbidding_region(block, table, outline, nearby.i, nearby.s, p);
    };
    let k = words::axes_of(block);
    for e in 0..count {
        if ends::area_holds(suspects, SUSPECT * e + AREA, k, p) {
            if let Some(area) = region_of(
                block, table, outline, suspects, nearby.i, nearby.s, e, p,
            ) {
                return Some(area);
            }
        }
    }
    None
}
