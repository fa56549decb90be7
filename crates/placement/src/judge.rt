// Judging a fixed row against the rows before it: of two rows that clash the later one is found bad, so each pair is looked at once.
// The lowest shape of a fixed row's set is its one shape.
ghost use Rattle.std.specs.Prelude.{◌≡◌, ◌<◌};
ghost use Rattle.sheet.specs.Layout.{rules};
ghost use Rattle.words.specs.Places.{RowPlace, RulePlace};
ghost use Rattle.placement.specs.Rows.{FixedSheet};
ghost use Rattle.placement.specs.Before.{named_forbids, before_forbids, rule_forbids_before, forbidden_before, Judging, Judged};

use forbid::{clash, row};
use outline::OUTLINE;
use points::COORDINATES;
use words::Place;

// Whether rule r names row j, and that forbids p to shape s of row i.
fn row_forbids(
    block: &[i64],
    table: &[i64],
    outline: &[i64; OUTLINE],
    r: Place,
    i: Place,
    s: usize,
    j: Place,
    p: [i64; COORDINATES],
) -> bool
    requires { Judging block.now table.now outline.now i s p × RulePlace block.now r × RowPlace block.now table.now j }
    ensures { result ≡ named_forbids block.now table.now r.number i.number s p j.number }
{
    if !words::names_row(block, r, j.number) {
        return false;
    }
    let t = words::lowest_shape(block, table, j);
    clash::hulls_clash(block, table, outline, r, s, j, t, p)
        && row::shapes_region(block, table, outline, r, s, j, t, p).is_some()
}

// Whether rule r forbids p to shape s of row i by a row before i.
fn rows_forbid(
    block: &[i64],
    table: &[i64],
    outline: &[i64; OUTLINE],
    r: Place,
    i: Place,
    s: usize,
    p: [i64; COORDINATES],
) -> bool
    requires { Judging block.now table.now outline.now i s p × RulePlace block.now r }
    ensures { result ≡ before_forbids block.now table.now r.number i.number s p }
{
    (0..i.number - 1).any(|m| {
        let j = words::row_place(block, table, m + 1);
        row_forbids(block, table, outline, r, i, s, j, p)
    })
}

// The same of the rule numbered r, which may be of another kind or not name row i.
fn rule_forbids(
    block: &[i64],
    table: &[i64],
    outline: &[i64; OUTLINE],
    r: usize,
    i: Place,
    s: usize,
    p: [i64; COORDINATES],
) -> bool
    requires { Judging block.now table.now outline.now i s p × (r < rules block.now) }
    ensures { result ≡ rule_forbids_before block.now table.now i.number s p r }
{
    let rule = words::rule_place(block, r);
    forbid::is_non_overlap_of(block, rule, i.number)
        && rows_forbid(block, table, outline, rule, i, s, p)
}

// Whether some rule forbids p to shape s of row i by a row before i.
fn is_forbidden(
    block: &[i64],
    table: &[i64],
    outline: &[i64; OUTLINE],
    i: Place,
    s: usize,
    p: [i64; COORDINATES],
) -> bool
    requires { Judging block.now table.now outline.now i s p }
    ensures { result ≡ forbidden_before block.now table.now i.number s p }
{
    (0..words::rules_of(block)).any(|r| rule_forbids(block, table, outline, r, i, s, p))
}

// Whether a fixed row stands at its point, with its one shape, as far as its ranges, its rooms and the rows before it say.
pub(crate) fn row_stands(block: &[i64], table: &[i64], outline: &[i64; OUTLINE], i: Place) -> bool
    requires { FixedSheet block.now table.now outline.now × RowPlace block.now table.now i }
    ensures { Judged block.now table.now i.number result }
{
    let s = words::lowest_shape(block, table, i);
    let p = crate::origin(block, table, i);
    let k = words::axes_of(block);
    let cut = region::cut_box(block, table, outline, i, s);
    cut.holds(k, p) && !is_forbidden(block, table, outline, i, s, p)
}
