// Which number of a table is split, and where. Nothing of it is promised but that the number can be split there: a search may go by any.
ghost use Rattle.std.specs.Prelude.{◌≡◌, ◌+◌, ◌≤◌};
ghost use Rattle.sheet.specs.Layout.{layout_rows_most, axes, rows};
ghost use Rattle.sheet.specs.Accepted.{Head, Table};
ghost use Rattle.splits.specs.Splits.{OnNumber, Several, SplitAt, Picked};
ghost use Rattle.splits.specs.Picks.{OnRow, Spread, OpenColumn, Weight, Gains};

use crate::{Split, gap, halfway, number};
use sheet::LAYOUT_ROWS;
use words::Place;

// An open set counts as more than any range.
const SET_SPREAD: u64 = 4194304;

// How far the values that are open for the number reach past the least: 0 where no other is open.
fn spread(block: &[i64], table: &[i64], i: Place, column: usize) -> u64
    requires { OnRow block.now table.now i × (column ≤ axes block.now) }
    ensures { Spread block.now table.now i.number column result }
{
    if column == 0 {
        if words::has_one_shape(block, table, i) {
            return 0;
        }
        return SET_SPREAD;
    }
    let low = words::low_of(block, table, i, column - 1);
    let high = words::high_of(block, table, i, column - 1);
    gap(low, high)
}

// ---- the first that is open

// The row's first column for which several values are open.
fn open_column(block: &[i64], table: &[i64], i: Place) -> Option<usize>
    requires { OnRow block.now table.now i }
    ensures { OpenColumn block.now table.now i.number result }
{
    let columns = words::axes_of(block) + 1;
    (0..columns).find(|&c| spread(block, table, i, c) > 0)
}

// The first number for which several values are open, split at the least.
pub fn first_open(block: &[i64], table: &[i64]) -> Option<Split>
    requires { Head block.now × Table block.now table.now }
    ensures { Picked block.now table.now result }
{
    for row in 1..=words::rows_of(block, table) {
        if let Some(column) = open_column(block, table, words::row_place(block, table, row)) {
            let at = number(block, table, row, column);
            return Some(Split { row, column, at });
        }
    }
    None
}

// ---- the one with the most to gain

// A number, and what is gained by splitting it: how far its values reach, by the row's weight.
#[derive(Clone, Copy)]
struct Gain {
    row: usize,
    column: usize,
    gain: u64,
}

fn weight_of(failed: u32) -> u64
    ensures { Weight result }
{
    failed as u64 + 1
}

// The greater of the gain before and that of the column.
fn gain_in_column(
    block: &[i64],
    table: &[i64],
    i: Place,
    column: usize,
    weight: u64,
    so_far: Option<Gain>,
) -> Option<Gain>
    requires { OnRow block.now table.now i × (column ≤ axes block.now) × Weight weight
        × Gains block.now table.now i.number column so_far }
    ensures { Gains block.now table.now i.number (column + 1) result }
{
    let gain = weight * spread(block, table, i, column);
    if gain <= so_far.map_or(0, |best| best.gain) {
        return so_far;
    }
    let row = i.number;
    Some(Gain { row, column, gain })
}

// The greatest of the gain before and those of the row's columns.
fn gain_in_row(
    block: &[i64],
    table: &[i64],
    i: Place,
    weight: u64,
    so_far: Option<Gain>,
) -> Option<Gain>
    requires { OnRow block.now table.now i × Weight weight × Gains block.now table.now i.number 0 so_far }
    ensures { Gains block.now table.now (i.number + 1) 0 result }
{
    let mut best = so_far;
    for column in 0..=words::axes_of(block) {
        best = gain_in_column(block, table, i, column, weight, best);
    }
    best
}

// The greatest gain, a row that has failed often weighing more.
fn greatest_gain(block: &[i64], table: &[i64], failures: &[u32; LAYOUT_ROWS]) -> Option<Gain>
    requires { Head block.now × Table block.now table.now × (rows block.now table.now ≤ layout_rows_most) }
    ensures { Gains block.now table.now (rows block.now table.now + 1) 0 result }
{
    let mut best = None;
    for row in 1..=words::rows_of(block, table) {
        let i = words::row_place(block, table, row);
        best = gain_in_row(block, table, i, weight_of(failures[row - 1]), best);
    }
    best
}

// Where a number is split: a set at the least, and a range in its middle.
fn split_value(block: &[i64], table: &[i64], row: usize, column: usize) -> i64
    requires { OnNumber block.now table.now row column × Several block.now table.now row column }
    ensures { SplitAt block.now table.now row column result }
{
    let low = number(block, table, row, column);
    if column == 0 {
        return low;
    }
    let i = words::row_place(block, table, row);
    halfway(low, words::high_of(block, table, i, column - 1))
}

// The number with the greatest gain: its values reach far, and its row has failed often.
pub fn pick(block: &[i64], table: &[i64], failures: &[u32; LAYOUT_ROWS]) -> Option<Split>
    requires { Head block.now × Table block.now table.now × (rows block.now table.now ≤ layout_rows_most) }
    ensures { Picked block.now table.now result }
{
    let best = greatest_gain(block, table, failures)?;
    let row = best.row;
    let column = best.column;
    let at = split_value(block, table, row, column);
    Some(Split { row, column, at })
}
