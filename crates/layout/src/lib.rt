// The first whole layout (document 02, T-06), a layer above the kernel: it leans on what `settle::settle` promises and on the theorems of
// crates/sheet. Some placement inside the table is looked for, and its numbers are lowered one after another.
#![tactic(auto)]

pub(crate) mod find; // find.rt: some placement inside a table
pub(crate) mod lower; // lower.rt: its numbers lowered one after another

ghost use Rattle.std.specs.Prelude.{◌≡◌};
ghost use Rattle.sheet.specs.Refusal.{refusal_layout};
ghost use Rattle.sheet.specs.Answer.{answer};
ghost use Rattle.layout.specs.Search.{Small};
ghost use Rattle.layout.specs.First.{FirstBy, Promise};

use sheet::{LAYOUT_ROWS, LAYOUT_WORDS, Refusal};

// The first of the refusals 2 to 8, and then 16, that applies.
fn check(block: &[i64], table: &[i64]) -> Result<(), Refusal>
    ensures { result ≡ answer (refusal_layout block.now table.now) tt }
{
    accept::check(block, table)?;
    if words::rows_of(block, table) > LAYOUT_ROWS {
        return Err(Refusal::TooManyRows);
    }
    Ok(())
}

// Writes the first good placement inside the table over it. Whether there is one.
fn first_of(block: &[i64], table: &mut [i64]) -> bool
    requires { Small block.now table.old }
    ensures { FirstBy block.now table.old result table.new }
{
    let mut failures = [0u32; LAYOUT_ROWS];
    let mut words = [0i64; LAYOUT_WORDS];
    let best = &mut words[..table.len()];
    best.copy_from_slice(table);
    if !find::place(block, best, &mut failures) {
        return false;
    }
    lower::to_first(block, table, best, &mut failures);
    table.copy_from_slice(best);
    true
}

// The operation of this layer: writes the first good placement inside the table over it, or leaves it as it was. Whether there is one.
pub fn first_layout(block: &[i64], table: &mut [i64]) -> Result<bool, Refusal>
    ensures { Promise block.now table.old result table.new }
{
    check(block, table)?;
    Ok(first_of(block, table))
}
