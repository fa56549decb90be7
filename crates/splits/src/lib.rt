// Splitting a table at one number of a row (document 02, T-06). The numbers of a row stand in columns: column 0 is its shape's number, column
// d + 1 its coordinate in dimension d. In a table that is not fixed several values are open for some number; a split parts them in two.
#![tactic(auto)]

pub mod pick; // pick.rt: which number is split, and where

ghost use Rattle.std.specs.Prelude.{◌≡◌, suc, ◌+◌, ◌<◌, ◌≤◌, pos, ◌+ℤ◌, length, ◌≤ℤ◌, ◌<ℤ◌};
ghost use Rattle.integers.specs.Integer.{Within};
ghost use Rattle.integers.specs.Bits.{set_of};
ghost use Rattle.sheet.specs.Layout.{axes};
ghost use Rattle.sheet.specs.Accepted.{Table};
ghost use Rattle.sheet.specs.Cuts.{number, cut_to};
ghost use Rattle.words.specs.Places.{RowPlace};
ghost use Rattle.splits.specs.Splits.{far, is_between, OnNumber, upto_value, past_value};

use words::Place;

// No value that is open for a number is farther from 0.
const FAR: i64 = 1000000;

// A number of a row, and the value at which it is split: in those up to it, and those past it.
#[derive(Clone, Copy)]
pub struct Split {
    pub row: usize,
    pub column: usize,
    pub at: i64,
}

// The least value that is open for the number; of a placement the number itself.
pub fn number(block: &[i64], table: &[i64], row: usize, column: usize) -> i64
    requires { OnNumber block.now table.now row column }
    ensures { (result ≡ number block.now table.now row column) × Within far result }
{
    let i = words::row_place(block, table, row);
    if column == 0 {
        words::lowest_shape(block, table, i) as i64
    } else {
        words::low_of(block, table, i, column - 1)
    }
}

// How far high is past low.
pub fn gap(low: i64, high: i64) -> u64
    requires { (low ≤ℤ high) × Within far low × Within far high }
    ensures { (low +ℤ pos result ≡ high) × (result ≤ far + far) }
{
    (high - low) as u64
}

// A number in the middle: from low on, and below high.
pub fn halfway(low: i64, high: i64) -> i64
    requires { (low <ℤ high) × Within far low × Within far high }
    ensures { (low ≤ℤ result) × (result <ℤ high) }
{
    low + ((gap(low, high) - 1) / 2) as i64
}

// One shape more: shape s + 1, where the set holds it and its number lies from `from` to `to`.
fn with_shape(shapes: u32, set: u32, s: usize, from: i64, to: i64) -> u32
    requires { (s < 32) × (shapes ≡ set_of s (is_between set from to)) }
    ensures { result ≡ set_of (suc s) (is_between set from to) }
{
    if words::has_member(set, s) && words::is_within(s as i64 + 1, from, to) {
        words::with_member(shapes, s)
    } else {
        shapes
    }
}

// The shapes of a set whose numbers lie from `from` to `to`.
fn shapes_between(set: u32, from: i64, to: i64) -> u32
    ensures { result ≡ set_of 32 (is_between set from to) }
{
    let mut shapes = 0;
    for s in 0..32 {
        shapes = with_shape(shapes, set, s, from, to);
    }
    shapes
}

// The row keeps the shapes of its set whose numbers lie from `from` to `to`.
#[tactic(auto, using(words::proofs::Ends::row_ends))]
fn cut_shapes(block: &[i64], table: &mut [i64], i: Place, from: i64, to: i64)
    requires { Table block.now table.old × RowPlace block.now table.old i }
    ensures { table.new ≡ cut_to block.now table.old i.number 0 from to }
{
    let shapes = shapes_between(words::shapes_of(block, table, i), from, to);
    table[i.at] = shapes as i64;
}

// It keeps the coordinates of its range in dimension d that lie there.
#[tactic(auto, using(words::proofs::Ends::row_ends))]
fn cut_range(block: &[i64], table: &mut [i64], i: Place, d: usize, from: i64, to: i64)
    requires { RowPlace block.now table.old i × (d < axes block.now) }
    ensures { table.new ≡ cut_to block.now table.old i.number (suc d) from to }
{
    let low = words::low_of(block, table, i, d).max(from);
    let high = words::high_of(block, table, i, d).min(to);
    table[i.at + 1 + 2 * d] = low;
    table[i.at + 2 + 2 * d] = high;
}

// The number keeps the values from `from` to `to` that are open for it.
fn cut_to(block: &[i64], table: &mut [i64], row: usize, column: usize, from: i64, to: i64)
    requires { OnNumber block.now table.old row column }
    ensures { table.new ≡ cut_to block.now table.old row column from to }
{
    let i = words::row_place(block, table, row);
    if column == 0 {
        cut_shapes(block, table, i, from, to);
    } else {
        cut_range(block, table, i, column - 1, from, to);
    }
}

// The number keeps the values up to the split.
pub fn keep_upto(block: &[i64], table: &mut [i64], s: Split)
    requires { OnNumber block.now table.old s.row s.column }
    ensures { table.new ≡ upto_value block.now table.old s.row s.column s.at }
{
    cut_to(block, table, s.row, s.column, -FAR, s.at);
}

// Writes the table with the values up to the split over another run.
pub fn copy_upto(block: &[i64], table: &[i64], part: &mut [i64], s: Split)
    requires { OnNumber block.now table.now s.row s.column × (length part.old ≡ length table.now) }
    ensures { part.new ≡ upto_value block.now table.now s.row s.column s.at }
{
    part.copy_from_slice(table);
    keep_upto(block, part, s);
}

// The number keeps the values past the split.
pub fn keep_past(block: &[i64], table: &mut [i64], s: Split)
    requires { OnNumber block.now table.old s.row s.column × Within far s.at }
    ensures { table.new ≡ past_value block.now table.old s.row s.column s.at }
{
    cut_to(block, table, s.row, s.column, s.at + 1, FAR);
}
