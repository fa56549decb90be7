// Some placement inside a table. A placement inside lies inside the settled table too; it has some value of the number that is split, and the
// search looks among those up to the split and then among those past it.
ghost use Rattle.std.specs.Prelude.{◌≡◌, true, MatchOption, ⊤};
ghost use Rattle.integers.specs.Below.{UpTo};
ghost use Rattle.sheet.specs.Layout.{layout_rows_most};
ghost use Rattle.sheet.specs.Refusal.{refusal};
ghost use Rattle.sheet.specs.FirstLayout.{Places};
ghost use Rattle.splits.specs.Splits.{SplitAt};
ghost use Rattle.layout.specs.Search.{Small, SettledTo, Found, FoundUpto};

use sheet::{LAYOUT_ROWS, LAYOUT_WORDS};
use splits::{Split, pick};

// Settles the table of an accepted sheet. Whether a settled table lies inside it.
pub(crate) fn settled(block: &[i64], table: &mut [i64]) -> bool
    requires { refusal block.now table.old ≡ 0 }
    ensures { SettledTo block.now table.old result table.new }
{
    settle::settle(block, table).unwrap_or(false)
}

// ---- the first fit

// Takes the least value for the first number that is open, settles, and goes on so until every number has one value. Whether that is a
// placement; where it is not, the words are those at that moment.
fn first_fit(block: &[i64], table: &mut [i64]) -> bool
    requires { refusal block.now table.old ≡ 0 }
    ensures { result ≡ true → Places block.now table.old table.new }
{
    while settled(block, table) {
        let Some(s) = pick::first_open(block, table) else {
            return true;
        };
        splits::keep_upto(block, table, s);
    }
    false
}

// ---- a whole search

// One more failure of a row, if there is one.
fn fail(failures: &mut [u32; LAYOUT_ROWS], row: Option<usize>)
    requires { MatchOption row ⊤ (UpTo layout_rows_most) }
{
    if let Some(row) = row {
        failures[row - 1] = failures[row - 1].saturating_add(1);
    }
}

// Looks for a placement among the values up to the split. Where there is none the table stays as it is.
#[cycle(find_find_upto)]
fn find_upto(block: &[i64], table: &mut [i64], failures: &mut [u32; LAYOUT_ROWS], s: Split) -> bool
    requires { Small block.now table.old × SplitAt block.now table.old s.row s.column s.at }
    ensures { FoundUpto block.now table.old s result table.new }
{
    let mut words = [0i64; LAYOUT_WORDS];
    let part = &mut words[..table.len()];
    splits::copy_upto(block, table, part, s);
    if !find(block, part, failures, Some(s.row)) {
        return false;
    }
    table.copy_from_slice(part);
    true
}

// Looks for a placement inside the table, which is whole, or a part got by splitting a number of the row. Where there is none the words are
// those at that moment. A failure is that of the row whose split left nothing that settles.
#[cycle(find_find_upto)]
fn find(
    block: &[i64],
    table: &mut [i64],
    failures: &mut [u32; LAYOUT_ROWS],
    row: Option<usize>,
) -> bool
    requires { Small block.now table.old × MatchOption row ⊤ (UpTo layout_rows_most) }
    ensures { Found block.now table.old result table.new }
{
    let mut split_row = row;
    while settled(block, table) {
        let Some(s) = pick::pick(block, table, failures) else {
            return true;
        };
        if find_upto(block, table, failures, s) {
            return true;
        }
        splits::keep_past(block, table, s);
        split_row = Some(s.row);
    }
    fail(failures, split_row);
    false
}

// Looks for a placement inside the table: the first fit, and where that fails a whole search. Where there is none the words are those at that
// moment.
pub(crate) fn place(block: &[i64], table: &mut [i64], failures: &mut [u32; LAYOUT_ROWS]) -> bool
    requires { Small block.now table.old }
    ensures { Found block.now table.old result table.new }
{
    let mut words = [0i64; LAYOUT_WORDS];
    let tried = &mut words[..table.len()];
    tried.copy_from_slice(table);
    if first_fit(block, tried) {
        table.copy_from_slice(tried);
        return true;
    }
    find(block, table, failures, None)
}
