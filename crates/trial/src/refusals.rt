// Document 01's grounds for turning a sheet away, 2 to 12, as the paper lists them, with document 02's limits of a clearance, and document
// 02's grounds 13 to 16. It shares no code with the kernel: a refusal is the document's number, which the kernel's is to agree with.
use super::numbers::{all_of, at, count_of, word_of};
use super::reading::index;
use super::{brute, catalogue, numbers, reading};

// ---- refusals 2 to 8: what holds where they are not raised

// Raises a ground where what is asked does not hold.
fn ask(holds: bool, ground: i64) -> Result<(), i64> {
    if holds { Ok(()) } else { Err(ground) }
}

fn range_holds(low: i64, high: i64) -> bool {
    -1000000 <= low && low <= high && high <= 1000000
}

fn extent_holds(block: &[i64], b: usize, d: usize) -> bool {
    (-10000..=10000).contains(&reading::offset(block, b, d))
        && (1..=10000).contains(&reading::size(block, b, d))
}

fn box_holds(block: &[i64], b: usize) -> bool {
    (0..reading::dims(block)).all(|d| extent_holds(block, b, d))
        && (1..=32).contains(&reading::shape(block, b))
}

// Whether a rule's two words of a dimension are the ends of a room, or a clearance and 0; where the dimension is not named both are 0.
fn room_holds(block: &[i64], r: usize, d: usize) -> bool {
    let low = reading::room_low(block, r, d);
    let high = reading::room_high(block, r, d);
    if !reading::names_dim(block, r, d) {
        return low == 0 && high == 0;
    }
    if reading::kind(block, r) == 2 {
        return range_holds(low, high);
    }
    (0..=1000).contains(&reading::clearance(block, r, d)) && high == 0
}

// Whether a set is from 1 to 2^n − 1.
fn is_set(set: i64, n: usize) -> bool {
    (1..=all_of(n)).contains(&set)
}

fn rule_holds(block: &[i64], n: usize, r: usize) -> bool {
    let k = reading::dims(block);
    (1..=2).contains(&reading::kind(block, r))
        && is_set(reading::dim_set(block, r), k)
        && is_set(reading::row_set(block, r), n)
        && (0..k).all(|d| room_holds(block, r, d))
}

fn has_box(block: &[i64], s: usize) -> bool {
    (0..reading::boxes(block)).any(|b| !reading::is_other(block, b, s))
}

// Whether a word is a set of shapes of which each has a box.
fn shapes_hold(block: &[i64], set: i64) -> bool {
    is_set(set, 32) && (0..32).all(|s| !numbers::has(set, s) || has_box(block, s))
}

fn row_holds(block: &[i64], table: &[i64], i: usize) -> bool {
    shapes_hold(block, reading::shape_set(block, table, i))
        && (0..reading::dims(block)).all(|d| {
            range_holds(
                reading::low(block, table, i, d),
                reading::high(block, table, i, d),
            )
        })
}

fn check_head(block: &[i64]) -> Result<(), i64> {
    let k = at(block, 0);
    ask(block.len() >= 3 && (1..=4).contains(&k), 2)?;
    let boxes = at(block, 1);
    let rules = at(block, 2);
    ask((1..=128).contains(&boxes) && (0..=32).contains(&rules), 3)?;
    let len = reading::rule_place(count_of(k), count_of(boxes), count_of(rules));
    ask(block.len() == len, 4)
}

pub(crate) fn check(block: &[i64], table: &[i64]) -> Result<(), i64> {
    check_head(block)?;
    let n = reading::rows(block, table);
    ask(n > 0, 5)?;
    ask((0..reading::boxes(block)).all(|b| box_holds(block, b)), 6)?;
    ask(
        (0..reading::rules(block)).all(|r| rule_holds(block, n, r)),
        7,
    )?;
    ask((0..n).all(|i| row_holds(block, table, i)), 8)
}

// ---- refusals 9 to 12

pub(crate) fn check_row(block: &[i64], table: &[i64], row: i64) -> Result<(), i64> {
    check(block, table)?;
    let n = word_of(reading::rows(block, table));
    ask((1..=n).contains(&row), 9)
}

pub(crate) fn check_shape(block: &[i64], table: &[i64], row: i64, shape: i64) -> Result<(), i64> {
    check_row(block, table, row)?;
    let is_shape = (1..=32).contains(&shape);
    ask(
        is_shape && reading::has_shape(block, table, index(row), index(shape)),
        10,
    )
}

fn is_dim(block: &[i64], dim: i64) -> bool {
    0 <= dim && dim < at(block, 0)
}

pub(crate) fn check_dim(
    block: &[i64],
    table: &[i64],
    row: i64,
    shape: i64,
    dim: i64,
) -> Result<(), i64> {
    check_shape(block, table, row, shape)?;
    ask(is_dim(block, dim), 11)
}

// Whether a row has one shape and one point.
fn row_is_fixed(block: &[i64], table: &[i64], i: usize) -> bool {
    brute::has_one_shape(reading::shape_set(block, table, i))
        && brute::points(block, table, i, 0) == 1
}

pub(crate) fn check_placement(block: &[i64], table: &[i64]) -> Result<(), i64> {
    check(block, table)?;
    let n = reading::rows(block, table);
    ask((0..n).all(|i| row_is_fixed(block, table, i)), 12)
}

// Of a sheet that is to be laid out whole.
pub(crate) fn check_layout(block: &[i64], table: &[i64]) -> Result<(), i64> {
    check(block, table)?;
    ask(reading::rows(block, table) <= 8, 16)
}

// Of two rows and a dimension.
pub(crate) fn check_relation(
    block: &[i64],
    table: &[i64],
    row: i64,
    other: i64,
    dim: i64,
) -> Result<(), i64> {
    check_row(block, table, row)?;
    check_row(block, table, other)?;
    ask(is_dim(block, dim), 11)?;
    check_placement(block, table)
}

// ---- refusals 13 to 15

// Whether a number is that of a rule of kind 2 that names every dimension.
fn is_fill_rule(block: &[i64], rule: i64) -> bool {
    let r = index(rule);
    (1..=word_of(reading::rules(block))).contains(&rule)
        && reading::kind(block, r) == 2
        && reading::dim_set(block, r) == all_of(reading::dims(block))
}

// A room may have this many cells; one that has more counts as one more.
const MOST_CELLS: usize = 4096;

pub(crate) fn room_cells(block: &[i64], r: usize) -> usize {
    (0..reading::dims(block)).fold(1, |n: usize, d| {
        let low = reading::room_low(block, r, d);
        let high = reading::room_high(block, r, d);
        n.saturating_mul(count_of(high.saturating_sub(low)))
            .min(MOST_CELLS + 1)
    })
}

// Of a rule's fill.
pub(crate) fn check_fill(block: &[i64], table: &[i64], rule: i64) -> Result<(), i64> {
    check_placement(block, table)?;
    ask(is_fill_rule(block, rule), 13)?;
    let n = room_cells(block, index(rule));
    ask((1..=MOST_CELLS).contains(&n), 14)?;
    ask(catalogue::is_good(block, table), 15)
}
