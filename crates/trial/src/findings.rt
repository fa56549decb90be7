// What brute force finds of a request: whether it is so (allowed, narrowed, settled, good), or the document's number of the refusal.
use super::reading::index;
use super::{brute, catalogue, refusals};

pub type Finding = Result<bool, i64>;

pub(crate) fn point(block: &[i64], table: &[i64], row: i64, shape: i64, p: [i64; 4]) -> Finding {
    refusals::check_shape(block, table, row, shape)?;
    Ok(brute::allowed(block, table, index(row), index(shape), p))
}

pub(crate) fn narrowing(block: &[i64], table: &mut [i64], row: i64) -> Finding {
    refusals::check_row(block, table, row)?;
    Ok(brute::narrow_row(block, table, index(row)).is_some())
}

// Where there is no layout the table's words are those at the end of the search.
pub(crate) fn settling(block: &[i64], table: &mut [i64]) -> Finding {
    refusals::check(block, table)?;
    Ok(brute::settle_rows(block, table))
}

pub(crate) fn verdict(block: &[i64], table: &[i64]) -> Finding {
    refusals::check_placement(block, table)?;
    Ok(catalogue::is_good(block, table))
}
