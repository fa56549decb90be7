// Where the words of a sheet stand (document 01, "The block and the table"), read without the kernel's code. Boxes, rules, rows,
// dimensions and shapes are counted from 0 here; a word past the end reads as 0. Each function is a line that reads what its name says; one
// function over the place of the word would leave the name to its callers.
use super::numbers::{at, count_of, has, place, word_of};

// ---- places

// The words of a row, and of a box record.
pub(crate) fn row_len(k: usize) -> usize {
    place(1, 2, k)
}

pub(crate) fn box_place(k: usize, b: usize) -> usize {
    place(3, b, row_len(k))
}

pub(crate) fn rule_place(k: usize, boxes: usize, r: usize) -> usize {
    place(box_place(k, boxes), r, place(3, 2, k))
}

pub(crate) fn row_place(k: usize, i: usize) -> usize {
    i.saturating_mul(row_len(k))
}

// Where the ends of a row's range stand in its record.
pub(crate) fn low_place(d: usize) -> usize {
    place(1, 2, d)
}

pub(crate) fn high_place(d: usize) -> usize {
    place(2, 2, d)
}

// ---- the block

pub(crate) fn dims(block: &[i64]) -> usize {
    count_of(at(block, 0))
}

pub(crate) fn boxes(block: &[i64]) -> usize {
    count_of(at(block, 1))
}

pub(crate) fn rules(block: &[i64]) -> usize {
    count_of(at(block, 2))
}

fn box_word(block: &[i64], b: usize, w: usize) -> i64 {
    at(block, box_place(dims(block), b).saturating_add(w))
}

pub(crate) fn shape(block: &[i64], b: usize) -> i64 {
    box_word(block, b, 0)
}

// Whether box b is one of another shape than s.
pub(crate) fn is_other(block: &[i64], b: usize, s: usize) -> bool {
    shape(block, b) != number(s)
}

pub(crate) fn offset(block: &[i64], b: usize, d: usize) -> i64 {
    box_word(block, b, place(1, 1, d))
}

pub(crate) fn size(block: &[i64], b: usize, d: usize) -> i64 {
    box_word(block, b, place(1, 1, dims(block)).saturating_add(d))
}

fn rule_word(block: &[i64], r: usize, w: usize) -> i64 {
    at(
        block,
        rule_place(dims(block), boxes(block), r).saturating_add(w),
    )
}

pub(crate) fn kind(block: &[i64], r: usize) -> i64 {
    rule_word(block, r, 0)
}

pub(crate) fn dim_set(block: &[i64], r: usize) -> i64 {
    rule_word(block, r, 1)
}

pub(crate) fn row_set(block: &[i64], r: usize) -> i64 {
    rule_word(block, r, 2)
}

pub(crate) fn names_dim(block: &[i64], r: usize, d: usize) -> bool {
    has(dim_set(block, r), d)
}

pub(crate) fn names_row(block: &[i64], r: usize, i: usize) -> bool {
    has(row_set(block, r), i)
}

// Of a rule that keeps rows apart, the clearance stands where the low end of a room would.
pub(crate) fn clearance(block: &[i64], r: usize, d: usize) -> i64 {
    room_low(block, r, d)
}

pub(crate) fn room_low(block: &[i64], r: usize, d: usize) -> i64 {
    rule_word(block, r, place(3, 2, d))
}

pub(crate) fn room_high(block: &[i64], r: usize, d: usize) -> i64 {
    rule_word(block, r, place(4, 2, d))
}

// ---- the table

// The n from 1 to 32 of which the table's length is n(1 + 2k); no rows where there is none.
pub(crate) fn rows(block: &[i64], table: &[i64]) -> usize {
    let k = dims(block);
    (1..33)
        .find(|n| table.len() == row_place(k, *n))
        .unwrap_or(0)
}

fn row_word(block: &[i64], table: &[i64], i: usize, w: usize) -> i64 {
    at(table, row_place(dims(block), i).saturating_add(w))
}

pub(crate) fn shape_set(block: &[i64], table: &[i64], i: usize) -> i64 {
    row_word(block, table, i, 0)
}

pub(crate) fn has_shape(block: &[i64], table: &[i64], i: usize, s: usize) -> bool {
    has(shape_set(block, table, i), s)
}

pub(crate) fn low(block: &[i64], table: &[i64], i: usize, d: usize) -> i64 {
    row_word(block, table, i, low_place(d))
}

pub(crate) fn high(block: &[i64], table: &[i64], i: usize, d: usize) -> i64 {
    row_word(block, table, i, high_place(d))
}

// ---- what a request names

// The number of a row or a shape.
pub(crate) fn number(i: usize) -> i64 {
    word_of(i).saturating_add(1)
}

// The row or shape of a number from 1.
pub(crate) fn index(number: i64) -> usize {
    count_of(number).saturating_sub(1)
}

// ---- records

// The words of a box, a rule or a row; a rule in four dimensions has this many.
pub const RECORD: usize = 11;
