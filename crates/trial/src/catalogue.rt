// Whether a fixed placement is good: room rules by document 01, non-overlap by the catalogue (document 003), with document 02's clearances.
// It shares no code with the kernel, and what document 01 says of forbidden points is not used.
use super::brute::last_shape;
use super::{brute, reading};

// Whether in dimension d box b of row i starts at or past the end of box c of row j plus the rule's clearance.
fn is_past(
    block: &[i64],
    table: &[i64],
    r: usize,
    i: usize,
    b: usize,
    j: usize,
    c: usize,
    d: usize,
) -> bool {
    let start = reading::low(block, table, i, d).saturating_add(reading::offset(block, b, d));
    let other = reading::low(block, table, j, d).saturating_add(reading::offset(block, c, d));
    let end = other.saturating_add(reading::size(block, c, d));
    start >= end.saturating_add(reading::clearance(block, r, d))
}

// Whether some dimension is named and parts the two boxes.
fn boxes_apart(
    block: &[i64],
    table: &[i64],
    r: usize,
    i: usize,
    b: usize,
    j: usize,
    c: usize,
) -> bool {
    (0..reading::dims(block)).any(|d| {
        reading::names_dim(block, r, d)
            && (is_past(block, table, r, i, b, j, c, d) || is_past(block, table, r, j, c, i, b, d))
    })
}

fn box_apart(block: &[i64], table: &[i64], r: usize, i: usize, b: usize, j: usize) -> bool {
    let s = last_shape(reading::shape_set(block, table, j));
    (0..reading::boxes(block)).all(|c| reading::is_other(block, c, s)
        || boxes_apart(block, table, r, i, b, j, c))
}

fn rows_apart(block: &[i64], table: &[i64], r: usize, i: usize, j: usize) -> bool {
    let s = last_shape(reading::shape_set(block, table, i));
    (0..reading::boxes(block)).all(|b| reading::is_other(block, b, s)
        || box_apart(block, table, r, i, b, j))
}

// Whether row i overlaps no row before it.
fn row_apart(block: &[i64], table: &[i64], r: usize, i: usize) -> bool {
    (0..i).all(|j| !reading::names_row(block, r, j) || rows_apart(block, table, r, i, j))
}

fn row_meets(block: &[i64], table: &[i64], r: usize, i: usize) -> bool {
    if !reading::names_row(block, r, i) {
        return true;
    }
    if reading::kind(block, r) == 1 {
        return row_apart(block, table, r, i);
    }
    let s = last_shape(reading::shape_set(block, table, i));
    brute::shape_inside(block, r, s, brute::point(block, table, i, 0, 0))
}

fn rule_holds(block: &[i64], table: &[i64], r: usize) -> bool {
    (0..reading::rows(block, table)).all(|i| row_meets(block, table, r, i))
}

pub(crate) fn is_good(block: &[i64], table: &[i64]) -> bool {
    (0..reading::rules(block)).all(|r| rule_holds(block, table, r))
}
