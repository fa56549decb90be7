// The points that the non-overlap rules (kind 1) forbid to a row: a forbidden point, with an area around it in which every point is
// forbidden. Everything of the kernel that asks what a rule of kind 1 forbids asks here.
#![tactic(auto)]

pub mod clash;
pub mod interval;
pub mod pair;
pub mod row;

ghost use Rattle.std.specs.Prelude.{◌≡◌, ◌&&◌, ◌<◌};
ghost use Rattle.integers.specs.Below.{UpTo};
ghost use Rattle.sheet.specs.Layout.{axes, rules, is_non_overlap, names_row};
ghost use Rattle.sheet.specs.Allowed.{forbidden};
ghost use Rattle.sheet.specs.Accepted.{Block};
ghost use Rattle.words.specs.Places.{RulePlace, RowPlace};
ghost use Rattle.forbid.specs.Region.{IsRegion, AtPoint, rows_forbid, rule_forbids};

use outline::OUTLINE;
use points::{Area, COORDINATES};
use words::Place;

// What rule r forbids to row i with shape s at p, by some other row.
fn rows_region(
    block: &[i64],
    table: &[i64],
    outline: &[i64; OUTLINE],
    r: Place,
    i: usize,
    s: usize,
    p: [i64; COORDINATES],
) -> Option<Area>
    requires { AtPoint block.now table.now outline.now s p × RulePlace block.now r }
    ensures { IsRegion (axes block.now)
        (rows_forbid block.now table.now r.number i s) p result }
{
    (0..words::rows_of(block, table)).find_map(|j| {
        let other = words::row_place(block, table, j + 1);
        row::row_region(block, table, outline, r, i, s, other, p)
    })
}

// Whether rule r keeps row i apart from other rows.
pub fn is_non_overlap_of(block: &[i64], r: Place, i: usize) -> bool
    requires { Block block.now × RulePlace block.now r × UpTo 32 i }
    ensures { result ≡ (is_non_overlap block.now r.number
        && names_row block.now r.number i) }
{
    words::is_non_overlap(block, r) && words::names_row(block, r, i)
}

// What rule r forbids to row i with shape s at p.
fn rule_region(
    block: &[i64],
    table: &[i64],
    outline: &[i64; OUTLINE],
    i: Place,
    s: usize,
    r: usize,
    p: [i64; COORDINATES],
) -> Option<Area>
    requires { AtPoint block.now table.now outline.now s p × RowPlace block.now table.now i × (r < rules block.now) }
    ensures { IsRegion (axes block.now)
        (rule_forbids block.now table.now i.number s r) p result }
{
    let rule = words::rule_place(block, r);
    if !is_non_overlap_of(block, rule, i.number) {
        return None;
    }
    rows_region(block, table, outline, rule, i.number, s, p)
}

// Whether row i with shape s is forbidden at p, and where it is, an area around p in which it is.
pub fn forbidding_region(
    block: &[i64],
    table: &[i64],
    outline: &[i64; OUTLINE],
    i: Place,
    s: usize,
    p: [i64; COORDINATES],
) -> Option<Area>
    requires { AtPoint block.now table.now outline.now s p × RowPlace block.now table.now i }
    ensures { IsRegion (axes block.now)
        (forbidden block.now table.now i.number s) p result }
{
    (0..words::rules_of(block)).find_map(|r| rule_region(block, table, outline, i, s, r, p))
}
