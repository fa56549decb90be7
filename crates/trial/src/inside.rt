// Good placements and settled tables: every good placement inside a tiny sheet's table lies inside what settling leaves of it, and there is
// none where settling finds no layout. So a rule that forbids too much is told.
use super::brute::{fixed_row, last_shape};
use super::generate::TABLE;
use super::numbers::{copied, has, part, put_run, quotient, remainder};
use super::reading::RECORD;
use super::tally::Tally;
use super::{brute, catalogue, compare, reading};

// A sheet with more placements than these is not tiny.
pub const MOST: usize = 1000;

// ---- the placements inside a table

fn shape_count(set: i64) -> usize {
    (0..32).filter(|s| has(set, *s)).count()
}

// Shape m of a set, counted from 0.
fn shape_at(set: i64, m: usize) -> usize {
    (0..32).filter(|s| has(set, *s)).nth(m).unwrap_or(0)
}

// In how many ways row i can be placed: with each of its shapes at each of its points.
fn ways(block: &[i64], table: &[i64], i: usize) -> usize {
    shape_count(reading::shape_set(block, table, i)).saturating_mul(brute::points(
        block, table, i, 0,
    ))
}

// How many placements there are; one too many where the sheet is not tiny.
pub(crate) fn count(block: &[i64], table: &[i64]) -> usize {
    (0..reading::rows(block, table)).fold(1, |n: usize, i| {
        n.saturating_mul(ways(block, table, i)).min(MOST + 1)
    })
}

// The record of row i as it is placed in way m.
fn placed_row(block: &[i64], table: &[i64], i: usize, m: usize) -> [i64; RECORD] {
    let n = brute::points(block, table, i, 0);
    let s = shape_at(reading::shape_set(block, table, i), quotient(m, n));
    fixed_row(s, brute::point(block, table, i, remainder(m, n), 0))
}

// Placement m, with zeros past the table's end.
pub(crate) fn placement(block: &[i64], table: &[i64], m: usize) -> [i64; TABLE] {
    let k = reading::dims(block);
    let mut placed = [0i64; TABLE];
    let mut rest = m;
    for i in 0..reading::rows(block, table) {
        let w = ways(block, table, i);
        let row = placed_row(block, table, i, remainder(rest, w));
        put_run(
            &mut placed,
            reading::row_place(k, i),
            part(&row, 0, reading::row_len(k)),
        );
        rest = quotient(rest, w);
    }
    placed
}

// ---- inside a table

fn row_inside(block: &[i64], placed: &[i64], table: &[i64], i: usize) -> bool {
    let s = last_shape(reading::shape_set(block, placed, i));
    reading::has_shape(block, table, i, s)
        && brute::in_ranges(block, table, i, brute::point(block, placed, i, 0, 0))
}

fn is_inside(block: &[i64], placed: &[i64], table: &[i64]) -> bool {
    (0..reading::rows(block, table)).all(|i| row_inside(block, placed, table, i))
}

// ---- a tiny sheet

// Every placement of an accepted sheet, if it is tiny.
pub(crate) fn placements(t: &mut Tally, block: &[i64], table: &[i64]) {
    let n = count(block, table);
    if n > MOST {
        return;
    }
    let mut room = [0i64; TABLE];
    let words = copied(&mut room, table);
    let has_layout = compare::told(settle::settle(block, words)) == Ok(true);
    let settled = has_layout.then_some(&*words);
    t.count_tiny();
    for m in 0..n {
        let way = placement(block, table, m);
        let placed = part(&way, 0, table.len());
        if catalogue::is_good(block, placed) {
            t.count_inside(settled.is_some_and(|s| is_inside(block, placed, s)));
        }
    }
}
