// Document 01, "Grounds for turning a sheet away, in checking order": the first of the checks 2 to 12 that applies to a call, if one does,
// on any words of any length; and the row slice. Each test of crates/sheet/specs/Refusal.antt is a function of its name, and the
// tests run in their order: what one has passed the next leans on.
#![tactic(auto)]

ghost use Rattle.std.specs.Prelude.{◌≡◌, false, List, ◌+◌, ◌*◌, ℤ, length};
ghost use Rattle.sheet.specs.Refusal.{no_such_row, no_such_shape, no_such_dim};
ghost use Rattle.sheet.specs.Refusal.{refusal, refusal_row, refusal_shape, refusal_dim, refusal_placement, row_slice, row_start};
ghost use Rattle.sheet.specs.Answer.{answer};
ghost use Rattle.sheet.specs.Accepted.{Head, Rows, Table};

mod block; // block.rt: checks 2 to 4, 6 and 7
mod range; // range.rt: words and ranges
pub mod relation; // relation.rt: two rows and a dimension of a placement
mod table; // table.rt: checks 5, 8 and 12

use sheet::Refusal;

// ---- a sheet

pub fn check(block: &[i64], table: &[i64]) -> Result<(), Refusal>
    ensures { result ≡ answer (refusal block.now table.now) tt }
{
    if block::bad_head(block) {
        return Err(Refusal::BadHead);
    }
    if block::bad_counts(block) {
        return Err(Refusal::BadCounts);
    }
    if block::bad_block_length(block) {
        return Err(Refusal::BadBlockLength);
    }
    if table::bad_table_length(block, table) {
        return Err(Refusal::BadTableLength);
    }
    if block::bad_box(block) {
        return Err(Refusal::BadBox);
    }
    if block::bad_rule(block, table) {
        return Err(Refusal::BadRule);
    }
    if table::bad_row(block, table) {
        return Err(Refusal::BadRow);
    }
    Ok(())
}

// ---- 9 to 11: what is asked about

fn no_such_row(block: &[i64], table: &[i64], row: i64) -> bool
    requires { Head block.now × Rows block.now table.now }
    ensures { result ≡ no_such_row block.now table.now row }
{
    !words::is_within(row, 1, words::rows_of(block, table) as i64)
}

// A word that is no shape's number is in no set.
fn no_such_shape(block: &[i64], table: &[i64], row: i64, shape: i64) -> bool
    requires { Head block.now × Table block.now table.now
        × (no_such_row block.now table.now row ≡ false) }
    ensures { result ≡ no_such_shape block.now table.now row shape }
{
    if !words::is_within(shape, 1, 32) {
        return true;
    }
    !words::has_shape(
        block,
        table,
        words::row_place(block, table, row as usize),
        shape as usize,
    )
}

fn no_such_dim(block: &[i64], dim: i64) -> bool
    requires { Head block.now }
    ensures { (table : List ℤ) → result ≡ no_such_dim block.now table dim }
{
    !range::is_index(dim, words::axes_of(block))
}

pub fn check_row(block: &[i64], table: &[i64], row: i64) -> Result<(), Refusal>
    ensures { result ≡ answer (refusal_row block.now table.now row) tt }
{
    check(block, table)?;
    if no_such_row(block, table, row) {
        return Err(Refusal::NoSuchRow);
    }
    Ok(())
}

pub fn check_shape(block: &[i64], table: &[i64], row: i64, shape: i64) -> Result<(), Refusal>
    ensures { result ≡ answer (refusal_shape block.now table.now row shape) tt }
{
    check_row(block, table, row)?;
    if no_such_shape(block, table, row, shape) {
        return Err(Refusal::NoSuchShape);
    }
    Ok(())
}

pub fn check_dim(
    block: &[i64],
    table: &[i64],
    row: i64,
    shape: i64,
    dim: i64,
) -> Result<(), Refusal>
    ensures { result ≡ answer (refusal_dim block.now table.now row shape dim) tt }
{
    check_shape(block, table, row, shape)?;
    if no_such_dim(block, dim) {
        return Err(Refusal::NoSuchDim);
    }
    Ok(())
}

pub fn check_placement(block: &[i64], table: &[i64]) -> Result<(), Refusal>
    ensures { result ≡ answer (refusal_placement block.now table.now) tt }
{
    check(block, table)?;
    if table::not_fixed(block, table) {
        return Err(Refusal::NotFixed);
    }
    Ok(())
}

// ---- the row slice

// Where a row stands in its table: the first word, and how many; 0 and 0 when refused.
#[derive(Clone, Copy)]
pub struct Span {
    pub start: usize,
    pub length: usize,
}

pub fn row_span(block: &[i64], table: &[i64], row: i64) -> Span
    ensures { (result.start ≡ row_start block.now table.now row)
        × (result.length ≡ length (row_slice block.now table.now row)) }
{
    if check_row(block, table, row).is_err() {
        return Span {
            start: 0,
            length: 0,
        };
    }
    let i = words::row_place(block, table, row as usize);
    let n = words::row_len(block);
    Span {
        start: i.at,
        length: n,
    }
}

// The part of the table where the row stands; empty when refused.
pub fn row_slice<'a>(block: &[i64], table: &'a [i64], row: i64) -> &'a [i64]
    ensures result_value { result.now ≡ row_slice block.now table.now row }
    ensures place { (result.ref_ptr.0 ≡ table.entry.ref_ptr.0)
        × (result.ref_ptr.1 ≡ table.entry.ref_ptr.1 + row_start block.now table.now row * 8) }
{
    let span = row_span(block, table, row);
    let from = span.start;
    let to = from + span.length;
    &table[from..to]
}
