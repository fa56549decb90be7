// Checks 5, 8 and 12: the table. Each function leans on the checks before it, as document 01 orders them.
ghost use Rattle.std.specs.Prelude.{◌≡◌, false};
ghost use Rattle.integers.specs.Below.{all_below, all_up_to, UpTo};
ghost use Rattle.sheet.specs.Layout.{axes, shape_set, valid_row};
ghost use Rattle.sheet.specs.Placement.{row_fixed};
ghost use Rattle.sheet.specs.Refusal.{bad_box, bad_table_length, bad_row, not_fixed};
ghost use Rattle.sheet.specs.Accepted.{Count, Head, Rows, Table};
ghost use Rattle.words.specs.Places.{RowPlace};
ghost use Rattle.accept.specs.Parts.{valid_row_range, fixed_range, shape_boxed, Flags, SetRow};

use super::range;
use words::Place;

// ---- 5: the length

pub(crate) fn bad_table_length(block: &[i64], table: &[i64]) -> bool
    requires { Head block.now }
    ensures { result ≡ bad_table_length block.now table.now }
{
    let w = words::row_len(block);
    let n = words::rows_of(block, table);
    if table.len() != n * w {
        return true;
    }
    n < 1 || 32 < n
}

// ---- 8: the rows

pub(crate) fn bad_row(block: &[i64], table: &[i64]) -> bool
    requires { Head block.now × Rows block.now table.now × (bad_box block.now ≡ false) }
    ensures { result ≡ bad_row block.now table.now }
{
    let flags = boxed_shapes(block);
    !(0..words::rows_of(block, table)).all(|m| valid_row(
        block,
        table,
        words::row_place(block, table, m + 1),
        flags,
    ))
}

// For each shape, whether it has a box.
fn boxed_shapes(block: &[i64]) -> [bool; 33]
    requires { Head block.now × (bad_box block.now ≡ false) }
    ensures { Flags block.now result }
{
    let mut flags = [false; 33];
    for b in 0..words::boxes_of(block) {
        flags[words::shape_number(block, words::box_place(block, b))] = true;
    }
    flags
}

fn valid_row(block: &[i64], table: &[i64], i: Place, flags: [bool; 33]) -> bool
    requires { RowPlace block.now table.now i × Flags block.now flags }
    ensures { result ≡ valid_row block.now table.now i.number }
{
    if !range::valid_set(words::shape_set_of(block, table, i), 32) {
        return false;
    }
    shapes_boxed(block, table, i, flags) && valid_ranges(block, table, i)
}

// From the first shape of the row's set to the last.
fn shapes_boxed(block: &[i64], table: &[i64], i: Place, flags: [bool; 33]) -> bool
    requires { SetRow block.now table.now i flags }
    ensures { result ≡ all_up_to 32 (shape_boxed block.now table.now i.number) }
{
    let set = words::shapes_of(block, table, i);
    for s in set.trailing_zeros() as usize..32 {
        if words::is_below(set, s) {
            return true;
        }
        if !shape_boxed(block, table, i, flags, s + 1) {
            return false;
        }
    }
    true
}

fn shape_boxed(block: &[i64], table: &[i64], i: Place, flags: [bool; 33], s: usize) -> bool
    requires { SetRow block.now table.now i flags × UpTo 32 s }
    ensures { result ≡ shape_boxed block.now table.now i.number s }
{
    !words::has_shape(block, table, i, s) || flags[s]
}

fn valid_ranges(block: &[i64], table: &[i64], i: Place) -> bool
    requires { RowPlace block.now table.now i }
    ensures { result ≡ all_below (axes block.now)
        (valid_row_range block.now table.now i.number) }
{
    (0..words::axes_of(block)).all(|d| {
        range::valid_range(
            words::low_of(block, table, i, d),
            words::high_of(block, table, i, d),
        )
    })
}

// ---- 12: a fixed placement

pub(crate) fn not_fixed(block: &[i64], table: &[i64]) -> bool
    requires { Head block.now × Table block.now table.now }
    ensures { result ≡ not_fixed block.now table.now }
{
    !(0..words::rows_of(block, table)).all(|m| row_fixed(
        block,
        table,
        words::row_place(block, table, m + 1),
    ))
}

fn row_fixed(block: &[i64], table: &[i64], i: Place) -> bool
    requires { RowPlace block.now table.now i × Count (shape_set block.now table.now i.number) }
    ensures { result ≡ row_fixed block.now table.now i.number }
{
    words::has_one_shape(block, table, i) && ranges_fixed(block, table, i)
}

fn ranges_fixed(block: &[i64], table: &[i64], i: Place) -> bool
    requires { RowPlace block.now table.now i }
    ensures { result ≡ all_below (axes block.now)
        (fixed_range block.now table.now i.number) }
{
    (0..words::axes_of(block)).all(|d| words::low_of(block, table, i, d)
        == words::high_of(block, table, i, d))
}
