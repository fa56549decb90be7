// The fill of a room, by document 02: each box in turn adds those of its cells that lie in no box before it, and the share is the nearest of
// all whole numbers. It shares no code with the kernel.
use super::numbers::{at, count_of, place, quotient, remainder, word_of};
use super::reading::index;
use super::tally::Tally;
use super::{brute, compare, reading, refusals};

// ---- the boxes of all rows, one after the other: those of row 0, of row 1, and so on; each row has every box here. So number q has a row, the
// quotient, and a box, the remainder.

fn row_of(block: &[i64], q: usize) -> usize {
    quotient(q, reading::boxes(block))
}

fn box_of(block: &[i64], q: usize) -> usize {
    remainder(q, reading::boxes(block))
}

fn start(block: &[i64], table: &[i64], q: usize, d: usize) -> i64 {
    let x = reading::low(block, table, row_of(block, q), d);
    x.saturating_add(reading::offset(block, box_of(block, q), d))
}

fn size(block: &[i64], q: usize, d: usize) -> i64 {
    reading::size(block, box_of(block, q), d)
}

// Whether box q is one of its row's shape, and the rule names the row.
fn counts(block: &[i64], table: &[i64], r: usize, q: usize) -> bool {
    let i = row_of(block, q);
    let s = brute::last_shape(reading::shape_set(block, table, i));
    reading::names_row(block, r, i) && !reading::is_other(block, box_of(block, q), s)
}

// ---- the cells of a box

fn cells_in(block: &[i64], q: usize) -> usize {
    (0..reading::dims(block)).fold(1, |n: usize, d| {
        n.saturating_mul(count_of(size(block, q, d)))
    })
}

// The low corner of cell m.
fn cell(block: &[i64], table: &[i64], q: usize, m: usize) -> [i64; 4] {
    let mut x = [0i64; 4];
    let mut rest = m;
    for (d, y) in x.iter_mut().enumerate().take(reading::dims(block)) {
        let n = count_of(size(block, q, d));
        *y = start(block, table, q, d).saturating_add(word_of(remainder(rest, n)));
        rest = quotient(rest, n);
    }
    x
}

fn has_cell(block: &[i64], table: &[i64], q: usize, x: [i64; 4]) -> bool {
    (0..reading::dims(block)).all(|d| {
        let low = start(block, table, q, d);
        (low..low.saturating_add(size(block, q, d))).contains(&at(&x, d))
    })
}

// Whether a cell of box q lies in no box before it that counts.
fn is_new(block: &[i64], table: &[i64], r: usize, q: usize, x: [i64; 4]) -> bool {
    !(0..q).any(|p| has_cell(block, table, p, x) && counts(block, table, r, p))
}

fn new_cells(block: &[i64], table: &[i64], r: usize, q: usize) -> usize {
    (0..cells_in(block, q))
        .filter(|m| is_new(block, table, r, q, cell(block, table, q, *m)))
        .count()
}

// ---- the fill

// How many cells are covered, and how many there are in the boxes together.
#[derive(Clone, Copy)]
struct Cells {
    once: usize,
    together: usize,
}

fn covered(block: &[i64], table: &[i64], r: usize) -> Cells {
    let n = reading::rows(block, table).saturating_mul(reading::boxes(block));
    let mut x = Cells {
        once: 0,
        together: 0,
    };
    for q in 0..n {
        if counts(block, table, r, q) {
            x.once = x.once.saturating_add(new_cells(block, table, r, q));
            x.together = x.together.saturating_add(cells_in(block, q));
        }
    }
    x
}

// The whole number f up to 1,000 for which f n is nearest to 1,000 c, the greater one of two.
fn nearest(c: usize, n: usize) -> usize {
    (0..1001)
        .rev()
        .min_by_key(|f| n.saturating_mul(*f).abs_diff(c.saturating_mul(1000)))
        .unwrap_or(0)
}

// ---- rules

pub(crate) fn rule(t: &mut Tally, block: &[i64], table: &[i64], number: i64) {
    let answer = compare::told(fill::fill(block, table, number)).map(|s| (s.cells, s.permille));
    if let Err(g) = refusals::check_fill(block, table, number) {
        t.compare(answer == Err(g));
        return;
    }
    let r = index(number);
    let x = covered(block, table, r);
    let permille = nearest(x.once, refusals::room_cells(block, r));
    t.compare(answer == Ok((x.once, permille)));
    t.count_fill(x.once < x.together);
}

// Every rule, and the numbers -1, 0 and one past the last.
pub(crate) fn rules(t: &mut Tally, block: &[i64], table: &[i64]) {
    for number in -1..word_of(place(2, 1, reading::rules(block))) {
        rule(t, block, table, number);
    }
}
