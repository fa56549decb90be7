// Document 01's "What is allowed" by definition, with document 02's clearances and rows with several shapes, and narrowing and settling with
// every point tried. It shares no code with the kernel.
use super::numbers::{at, count_of, has, part, put_run, quotient, remainder, set_of, word_of};
use super::reading;
use super::reading::RECORD;

// ---- what is allowed

pub(crate) fn in_ranges(block: &[i64], table: &[i64], i: usize, p: [i64; 4]) -> bool {
    (0..reading::dims(block)).all(|d| {
        let low = reading::low(block, table, i, d);
        (low..=reading::high(block, table, i, d)).contains(&at(&p, d))
    })
}

// Whether box b, of a row at coordinate x of dimension d, lies in the room.
fn inside_in(block: &[i64], r: usize, b: usize, d: usize, x: i64) -> bool {
    let start = x.saturating_add(reading::offset(block, b, d));
    let end = start.saturating_add(reading::size(block, b, d));
    reading::room_low(block, r, d) <= start && end <= reading::room_high(block, r, d)
}

// Whether box b lies in the room in every dimension that the rule names.
fn box_inside(block: &[i64], r: usize, b: usize, p: [i64; 4]) -> bool {
    (0..reading::dims(block)).all(|d| !reading::names_dim(block, r, d)
        || inside_in(block, r, b, d, at(&p, d)))
}

pub(crate) fn shape_inside(block: &[i64], r: usize, s: usize, p: [i64; 4]) -> bool {
    (0..reading::boxes(block)).all(|b| reading::is_other(block, b, s) || box_inside(block, r, b, p))
}

// Whether box c of row j forbids box b the coordinate x: from max + t' − t − l + 1 − g to min + t' + l' − t − 1 + g it does.
fn forbidden_in(
    block: &[i64],
    table: &[i64],
    r: usize,
    b: usize,
    j: usize,
    c: usize,
    d: usize,
    x: i64,
) -> bool {
    let t = reading::offset(block, b, d);
    let l = reading::size(block, b, d);
    let t2 = reading::offset(block, c, d);
    let l2 = reading::size(block, c, d);
    let g = reading::clearance(block, r, d);
    let most = reading::high(block, table, j, d).saturating_add(t2);
    let least = reading::low(block, table, j, d).saturating_add(t2);
    let first = most.saturating_sub(t).saturating_sub(l).saturating_add(1);
    let last = least.saturating_add(l2).saturating_sub(t).saturating_sub(1);
    first.saturating_sub(g) <= x && x <= last.saturating_add(g)
}

// Whether a pair of boxes allows a point: it does unless it forbids it in every named dimension.
fn pair_allows(
    block: &[i64],
    table: &[i64],
    r: usize,
    b: usize,
    j: usize,
    c: usize,
    p: [i64; 4],
) -> bool {
    (0..reading::dims(block)).any(|d| {
        reading::names_dim(block, r, d) && !forbidden_in(block, table, r, b, j, c, d, at(&p, d))
    })
}

// Whether box b is allowed by every box of shape s2 of row j. The next function is the same step for the boxes of the other shape.
fn shape_allows(
    block: &[i64],
    table: &[i64],
    r: usize,
    b: usize,
    j: usize,
    s2: usize,
    p: [i64; 4],
) -> bool {
    (0..reading::boxes(block)).all(|c| reading::is_other(block, c, s2)
        || pair_allows(block, table, r, b, j, c, p))
}

// Whether every box of shape s is allowed by every box of shape s2 of row j.
fn shapes_allow(
    block: &[i64],
    table: &[i64],
    r: usize,
    s: usize,
    j: usize,
    s2: usize,
    p: [i64; 4],
) -> bool {
    (0..reading::boxes(block)).all(|b| reading::is_other(block, b, s)
        || shape_allows(block, table, r, b, j, s2, p))
}

// The last shape of a set, and whether it is the only one.
pub(crate) fn last_shape(set: i64) -> usize {
    (0..32).rev().find(|s| has(set, *s)).unwrap_or(0)
}

pub(crate) fn has_one_shape(set: i64) -> bool {
    set == set_of(last_shape(set))
}

// Whether row j allows the point: it does where one of its shapes does.
fn row_allows(block: &[i64], table: &[i64], r: usize, s: usize, j: usize, p: [i64; 4]) -> bool {
    (0..32).any(|s2| {
        reading::has_shape(block, table, j, s2) && shapes_allow(block, table, r, s, j, s2, p)
    })
}

// Whether every other row that the rule names allows the point.
fn rows_allow(block: &[i64], table: &[i64], r: usize, i: usize, s: usize, p: [i64; 4]) -> bool {
    (0..reading::rows(block, table)).all(|j| {
        j == i || !reading::names_row(block, r, j) || row_allows(block, table, r, s, j, p)
    })
}

fn rule_allows(block: &[i64], table: &[i64], r: usize, i: usize, s: usize, p: [i64; 4]) -> bool {
    if !reading::names_row(block, r, i) {
        return true;
    }
    if reading::kind(block, r) == 2 {
        return shape_inside(block, r, s, p);
    }
    rows_allow(block, table, r, i, s, p)
}

pub(crate) fn allowed(block: &[i64], table: &[i64], i: usize, s: usize, p: [i64; 4]) -> bool {
    in_ranges(block, table, i, p)
        && (0..reading::rules(block)).all(|r| rule_allows(block, table, r, i, s, p))
}

// ---- every point of a row's ranges, each widened by `more` at both ends

// More points than these are not tried.
pub const MOST_POINTS: usize = 3000;

fn width(block: &[i64], table: &[i64], i: usize, d: usize, more: i64) -> usize {
    let first = reading::low(block, table, i, d).saturating_sub(more);
    let last = reading::high(block, table, i, d).saturating_add(more);
    count_of(last.saturating_sub(first).saturating_add(1)).min(MOST_POINTS + 1)
}

pub(crate) fn points(block: &[i64], table: &[i64], i: usize, more: i64) -> usize {
    (0..reading::dims(block)).fold(1, |n: usize, d| {
        n.saturating_mul(width(block, table, i, d, more))
            .min(MOST_POINTS + 1)
    })
}

// Point m of those of the row's ranges. A coordinate from position k on is any word.
pub(crate) fn point(block: &[i64], table: &[i64], i: usize, m: usize, more: i64) -> [i64; 4] {
    let mut p = [77i64; 4];
    let mut rest = m;
    for (d, x) in p.iter_mut().enumerate().take(reading::dims(block)) {
        let w = width(block, table, i, d, more);
        let first = reading::low(block, table, i, d).saturating_sub(more);
        *x = first.saturating_add(word_of(remainder(rest, w)));
        rest = quotient(rest, w);
    }
    p
}

// Whether some row has more points than are tried.
pub(crate) fn has_many_points(block: &[i64], table: &[i64]) -> bool {
    (0..reading::rows(block, table)).any(|i| points(block, table, i, 1) > MOST_POINTS)
}

// ---- narrowing

// The record of a row that stands with shape s at p.
pub(crate) fn fixed_row(s: usize, p: [i64; 4]) -> [i64; RECORD] {
    [
        set_of(s),
        p[0],
        p[0],
        p[1],
        p[1],
        p[2],
        p[2],
        p[3],
        p[3],
        0,
        0,
    ]
}

// What is reached of a row: the shapes that have an allowed point, and the smallest ranges that hold these points, if there is one.
pub type Reach = Option<[i64; RECORD]>;

// What is reached with a point of shape s more.
fn with_point(reach: Reach, s: usize, p: [i64; 4]) -> [i64; RECORD] {
    let mut r = reach.unwrap_or(fixed_row(s, p));
    r[0] |= set_of(s);
    for (d, x) in p.iter().enumerate() {
        let low = 1 + 2 * d;
        r[low] = r[low].min(*x);
        r[low + 1] = r[low + 1].max(*x);
    }
    r
}

// What is reached with the allowed points of shape s more.
pub(crate) fn shape_reach(block: &[i64], table: &[i64], i: usize, s: usize, reach: Reach) -> Reach {
    let mut r = reach;
    for m in 0..points(block, table, i, 0) {
        let p = point(block, table, i, m, 0);
        if allowed(block, table, i, s, p) {
            r = Some(with_point(r, s, p));
        }
    }
    r
}

fn row_reach(block: &[i64], table: &[i64], i: usize) -> Reach {
    let mut r = None;
    for s in 0..32 {
        if reading::has_shape(block, table, i, s) {
            r = shape_reach(block, table, i, s, r);
        }
    }
    r
}

// Whether narrowing a row moved a word of the table, if the row has a place.
pub(crate) fn narrow_row(block: &[i64], table: &mut [i64], i: usize) -> Option<bool> {
    let r = row_reach(block, table, i)?;
    let k = reading::dims(block);
    let row = part(&r, 0, reading::row_len(k));
    Some(put_run(table, reading::row_place(k, i), row))
}

// ---- settling

fn pass(block: &[i64], table: &mut [i64]) -> Option<bool> {
    let mut moved = false;
    for i in 0..reading::rows(block, table) {
        moved |= narrow_row(block, table, i)?;
    }
    Some(moved)
}

// Whether there is a layout: passes until nothing moves. A pass that moves a word takes at least one number from a range or a shape from a
// set, so that the small sheets of the trial are done long before the last turn. Where there is no layout the words are those at that moment.
pub(crate) fn settle_rows(block: &[i64], table: &mut [i64]) -> bool {
    for _ in 0..10000 {
        match pass(block, table) {
            Some(true) => {}
            Some(false) => return true,
            None => return false,
        }
    }
    false
}
