// Settling the whole table (document 01): rows are narrowed until none is left that may still move, on a copy of the table, which is
// written back once.
#![tactic(auto)]

ghost use Rattle.std.specs.Prelude.{◌≡◌, ◌⊎◌, true, false, ℕ, suc, ◌+◌, ◌<◌, ◌≤◌, length};
ghost use Rattle.integers.specs.Bits.{bit};
ghost use Rattle.integers.specs.Words.{word};
ghost use Rattle.sheet.specs.Layout.{rows_most, rules, rows, names_row};
ghost use Rattle.sheet.specs.Accepted.{Block, Table};
ghost use Rattle.words.specs.Places.{RulePlace};
ghost use Rattle.outline.specs.Outline.{Outline, OnRow};
ghost use Rattle.outline.specs.Places.{rules_at};
ghost use Rattle.nearby.specs.Due.{HarmlessBy};
ghost use Rattle.settle.specs.Todo.{FirstDue, Next, Touching, Spared, Touched, FoundBy, Answered};
ghost use Rattle.settle.specs.Demand.{Promise};

use narrow::Step;
use nearby::known::KNOWN;
use nearby::suspect::{FEW, FEW_WORDS, MANY_WORDS};
use nearby::{due, suspect};
use outline::{OUTLINE, rules};
use sheet::{ROWS, Refusal, TABLE_WORDS};
use words::Place;

// The first row from row from + 1 to row `to` that is to be narrowed: its index.
fn first_due(due: &[bool; ROWS], from: usize, to: usize) -> Option<usize>
    requires { to ≤ rows_most }
    ensures { FirstDue due.now from to result }
{
    (from..to).find(|m| due[*m])
}

// The first row from row at + 1 on, in turn, that is to be narrowed.
fn next_row(due: &[bool; ROWS], n: usize, at: usize) -> Option<usize>
    requires { (n ≤ rows_most) × (at ≤ n) }
    ensures { Next due.now n result }
{
    first_due(due, at, n).or_else(|| first_due(due, 0, at))
}

// Whether rule r names row m + 1, and row i can forbid it some point of its ranges by that rule.
fn threatens(
    block: &[i64],
    table: &[i64],
    outline: &[i64; OUTLINE],
    i: Place,
    r: Place,
    m: usize,
) -> bool
    requires { OnRow block.now table.now outline.now i × RulePlace block.now r × (m < rows block.now table.now) }
    ensures { result ≡ false → names_row block.now r.number (suc m) ≡ true
        → HarmlessBy block.now table.now r.number i.number (suc m) }
{
    if !words::names_row(block, r, m + 1) {
        return false;
    }
    let row = words::row_place(block, table, m + 1);
    due::threatens_row(block, table, outline, r, i, row)
}

// Marks the rows that row i threatens by rule r: they are to be narrowed too.
fn touched_by(
    block: &[i64],
    table: &[i64],
    outline: &[i64; OUTLINE],
    due: &mut [bool; ROWS],
    i: Place,
    n: usize,
    r: Place,
)
    requires { Touching block.now table.now outline.now i n × RulePlace block.now r }
    ensures { Touched n due.old (Spared block.now table.now i.number r.number)
        due.new }
{
    for m in 0..n {
        if !due[m] && threatens(block, table, outline, i, r, m) {
            due[m] = true;
        }
    }
}

// Marks the rows that row i threatens by rule r, if the rule counts, is a non-overlap rule and names row i.
fn touched_if(
    block: &[i64],
    table: &[i64],
    outline: &[i64; OUTLINE],
    due: &mut [bool; ROWS],
    i: Place,
    n: usize,
    r: usize,
)
    requires { Touching block.now table.now outline.now i n × (r < rules block.now) }
    ensures { Touched n due.old (λ m. bit (word outline.now rules_at) r ≡ true
        → Spared block.now table.now i.number r m) due.new }
{
    if !rules::rule_counts(outline, r) {
        return;
    }
    let rule = words::rule_place(block, r);
    if forbid::is_non_overlap_of(block, rule, i.number) {
        touched_by(block, table, outline, due, i, n, rule);
    }
}

// Marks the rows that row i, which moved, threatens by some rule: no further than the last rule that counts.
fn touched(
    block: &[i64],
    table: &[i64],
    outline: &[i64; OUTLINE],
    due: &mut [bool; ROWS],
    i: Place,
    n: usize,
)
    requires { Touching block.now table.now outline.now i n }
    ensures { Touched n due.old (λ m. (r : ℕ) → r < rules block.now
        → Spared block.now table.now i.number r m) due.new }
{
    let count = words::rules_of(block);
    let counted = rules::counting(outline);
    for r in 0..count {
        if words::is_below(counted, r) {
            break;
        }
        touched_if(block, table, outline, due, i, n, r);
    }
}

// Narrows rows until none is left that may still move. Where some row has no place the words are those at that moment, and the
// caller drops them.
fn settle_rows(
    block: &[i64],
    table: &mut [i64],
    outline: &[i64; OUTLINE],
    suspects: &mut [i64],
) -> bool
    requires { Block block.now × Table block.now table.old × Outline block.now outline.now }
    ensures { FoundBy block.now table.old result table.new }
{
    let n = words::rows_of(block, table);
    let mut known = [0i64; KNOWN];
    let mut due = [true; ROWS];
    let mut at = 0;
    while let Some(i) = next_row(&due, n, at) {
        let row = words::row_place(block, table, i + 1);
        match narrow::narrow_row(block, table, outline, suspects, &mut known, row) {
            Step::NoPlace => return false,
            Step::Still => {}
            Step::Moved => touched(block, table, outline, &mut due, row, n),
        }
        due[i] = false;
        at = i;
    }
    true
}

// Settles the table of an accepted sheet, or leaves it as it was. Whether a settled table lies inside it. The suspects' words may have been any.
fn settle_in(
    block: &[i64],
    table: &mut [i64],
    outline: &[i64; OUTLINE],
    suspects: &mut [i64],
) -> bool
    requires { Block block.now × Table block.now table.old × Outline block.now outline.now }
    ensures { Answered block.now table.old result table.new }
{
    let mut words = [0i64; TABLE_WORDS];
    let work = &mut words[..table.len()];
    work.copy_from_slice(table);
    let found = settle_rows(block, work, outline, suspects);
    if found {
        table.copy_from_slice(work);
    }
    found
}

// The kernel's operation: settles the table of a sheet, or leaves it as it was. Whether a settled table lies inside it.
pub fn settle(block: &[i64], table: &mut [i64]) -> Result<bool, Refusal>
    ensures { Promise block.now table.old result table.new }
{
    accept::check(block, table)?;
    let mut outline = [0i64; OUTLINE];
    outline::draw(block, &mut outline);
    let found = if suspect::most(block, table, &outline) <= FEW {
        settle_in(block, table, &outline, &mut [0i64; FEW_WORDS])
    } else {
        settle_in(block, table, &outline, &mut [0i64; MANY_WORDS])
    };
    Ok(found)
}
