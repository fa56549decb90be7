// The kernel's answers held against those of brute force: every answer, and every word of every table that it left.
use super::brute::Reach;
use super::findings::Finding;
use super::generate::TABLE;
use super::numbers::{at, below, copied, count_of, from, part, word_of};
use super::plan::Kind;
use super::reading::{high_place, index, low_place, number};
use super::tally::Tally;
use super::{brute, fills, findings, firsts, generate, inside, reading, refusals, relations};
use sheet::Refusal;

// ---- the kernel's answers

// An answer, with the document's number of a refusal.
pub(crate) fn told<T>(answer: Result<T, Refusal>) -> Result<T, i64> {
    answer.map_err(i64::from)
}

// ---- points, and least and greatest coordinates

// Compares row i and shape s at every point of the widened ranges.
fn points(t: &mut Tally, block: &[i64], table: &[i64], i: usize, s: usize) {
    for m in 0..brute::points(block, table, i, 1) {
        let p = brute::point(block, table, i, m, 1);
        let answer = told(placement::point_allowed(block, table, number(i), number(s), p));
        t.compare(answer == Ok(brute::allowed(block, table, i, s, p)));
    }
}

// Compares the least and the greatest coordinate in dimension dim with those that are expected, if there is an allowed point.
pub(crate) fn ends(
    t: &mut Tally,
    block: &[i64],
    table: &[i64],
    row: i64,
    shape: i64,
    dim: i64,
    expected: Result<Option<(i64, i64)>, i64>,
) {
    let least = told(bounds::least(block, table, row, shape, dim));
    let greatest = told(bounds::greatest(block, table, row, shape, dim));
    t.compare(least == expected.map(|x| x.map(|(low, _)| low)));
    t.compare(greatest == expected.map(|x| x.map(|(_, high)| high)));
}

// The ends of what is reached of a row in dimension d.
fn ends_of(reach: Reach, d: usize) -> Option<(i64, i64)> {
    reach.map(|r| (at(&r, low_place(d)), at(&r, high_place(d))))
}

fn shape_ends(t: &mut Tally, block: &[i64], table: &[i64], i: usize, s: usize) {
    let reach = brute::shape_reach(block, table, i, s, None);
    for d in 0..reading::dims(block) {
        let expected = Ok(ends_of(reach, d));
        ends(t, block, table, number(i), number(s), word_of(d), expected);
    }
}

// Compares the points and the coordinates of each shape that the row has.
fn shapes(t: &mut Tally, block: &[i64], table: &[i64], i: usize) {
    for s in 0..32 {
        if reading::has_shape(block, table, i, s) {
            shape_ends(t, block, table, i, s);
            points(t, block, table, i, s);
        }
    }
}

// ---- narrowing a row, settling, and laying out

// Compares the kernel's answer and the words that it leaves of a copy of the table, where `ours` are those that are expected.
pub(crate) fn kernel<F: FnOnce(&mut [i64]) -> Finding>(
    t: &mut Tally,
    table: &[i64],
    ours: &[i64],
    expected: Finding,
    change: F,
)
    requires { F.IsAlwaysCallable change }
{
    let mut room = [0i64; TABLE];
    let words = copied(&mut room, table);
    t.compare(change(words) == expected);
    t.compare(*words == *ours);
}

pub(crate) fn settling(
    t: &mut Tally,
    block: &[i64],
    table: &[i64],
    ours: &[i64],
    expected: Finding,
) {
    kernel(t, table, ours, expected, |words| {
        told(settle::settle(block, words))
    });
}

// What brute force found, and whether a word of the table moved: of a table that is settled both occur, so that it is no option.
#[derive(Clone, Copy)]
struct Changed {
    found: Finding,
    moved: bool,
}

// Compares brute force and the kernel, which both change a copy of the table. Where there is no place or no layout, it is to be as it was.
fn change<O: FnOnce(&mut [i64]) -> Finding, F: FnOnce(&mut [i64]) -> Finding>(
    t: &mut Tally,
    table: &[i64],
    by_force: O,
    by_kernel: F,
) -> Changed
    requires force { O.IsAlwaysCallable by_force }
    requires kernel { F.IsAlwaysCallable by_kernel }
{
    let mut room = [0i64; TABLE];
    let ours = copied(&mut room, table);
    let found = by_force(ours);
    let left = if found == Ok(true) { &*ours } else { table };
    kernel(t, table, left, found, by_kernel);
    Changed {
        found,
        moved: *left != *table,
    }
}

fn narrow(t: &mut Tally, block: &[i64], table: &[i64], row: i64) {
    change(
        t,
        table,
        |words| findings::narrowing(block, words, row),
        |words| told(narrow::narrow(block, words, row)),
    );
}

fn settle(t: &mut Tally, block: &[i64], table: &[i64]) -> Changed {
    change(
        t,
        table,
        |words| findings::settling(block, words),
        |words| told(settle::settle(block, words)),
    )
}

// ---- judging

// Compares the kernel's judgement of a placement.
pub(crate) fn judged(t: &mut Tally, block: &[i64], table: &[i64], expected: Finding) {
    t.compare(told(placement::check_placement(block, table)) == expected);
}

fn judging(t: &mut Tally, block: &[i64], table: &[i64]) {
    let found = findings::verdict(block, table);
    judged(t, block, table, found);
    t.count_verdict(found);
}

// ---- a row, handed out

pub(crate) fn refusal(t: &mut Tally, block: &[i64], table: &[i64], expected: Result<(), i64>) {
    t.compare(told(accept::check(block, table)) == expected);
}

// The words of a row as brute force reads them; none where there is a refusal.
fn handing(t: &mut Tally, block: &[i64], table: &[i64], row: i64) {
    let k = reading::dims(block);
    let found = refusals::check_row(block, table, row);
    let n = if found.is_ok() {
        reading::row_len(k)
    } else {
        0
    };
    t.compare(told(accept::check_row(block, table, row)) == found);
    let first = reading::row_place(k, index(row));
    t.compare(*accept::row_slice(block, table, row) == *part(table, first, n));
}

// ---- requests by chance, most of which are refused

// Numbers that are out of range in most cases.
const ODD_ROWS: [i64; 3] = [i64::MIN, 4294967297, 33];

const ODD_SHAPES: [i64; 4] = [33, 65, i64::MIN, 4294967297];

const ODD_DIMS: [i64; 3] = [64, 4294967296, i64::MIN];

// A number to ask about: once in `of` times each of the odd ones, or else one of n from -1 on.
fn some_number(seed: &mut usize, odd: &[i64], of: usize, n: usize) -> i64 {
    match odd.get(below(seed, of)) {
        Some(x) => *x,
        None => from(seed, -1, n),
    }
}

fn some_point(seed: &mut usize) -> [i64; 4] {
    match below(seed, 8) {
        0 => [i64::MAX, i64::MIN, 0, 1],
        1 => [i64::MIN, i64::MAX, i64::MAX, i64::MAX],
        _ => [
            from(seed, -4, 12),
            from(seed, -4, 12),
            from(seed, -4, 12),
            from(seed, -4, 12),
        ],
    }
}

fn requested_ends(t: &mut Tally, block: &[i64], table: &[i64], row: i64, shape: i64, dim: i64) {
    let expected = refusals::check_dim(block, table, row, shape, dim).map(|_| {
        let reach = brute::shape_reach(block, table, index(row), index(shape), None);
        ends_of(reach, count_of(dim))
    });
    ends(t, block, table, row, shape, dim, expected);
}

// One of each kind of request. The number that was drawn for the shape is also that of the other row, and that for the dimension of the rule.
fn request(t: &mut Tally, seed: &mut usize, block: &[i64], table: &[i64]) {
    let n = reading::rows(block, table).saturating_add(4);
    let row = some_number(seed, &ODD_ROWS, 12, n);
    let shape = some_number(seed, &ODD_SHAPES, 10, 5);
    let p = some_point(seed);
    let dim = some_number(seed, &ODD_DIMS, 12, 6);
    requested_ends(t, block, table, row, shape, dim);
    let answer = told(placement::point_allowed(block, table, row, shape, p));
    t.compare(answer == findings::point(block, table, row, shape, p));
    narrow(t, block, table, row);
    relations::pair(t, block, table, row, shape, dim);
    fills::rule(t, block, table, dim);
    handing(t, block, table, row);
}

// ---- placements

// A placement inside the table: whether it is good, and what its rules' fills are.
fn placed<'a>(
    t: &mut Tally,
    seed: &mut usize,
    block: &[i64],
    table: &[i64],
    room: &'a mut [i64],
) -> &'a mut [i64] {
    let fixed = copied(room, table);
    generate::fix(seed, fixed, reading::row_len(reading::dims(block)));
    judging(t, block, fixed);
    fills::rules(t, block, fixed);
    fixed
}

fn placement(t: &mut Tally, seed: &mut usize, block: &[i64], table: &[i64]) {
    let mut room = [0i64; TABLE];
    let fixed = placed(t, seed, block, table, &mut room);
    relations::pairs(t, block, fixed);
    settle(t, block, fixed);
}

// A room's sheet.
pub(crate) fn room(t: &mut Tally, seed: &mut usize, block: &[i64], table: &[i64]) {
    let mut words = [0i64; TABLE];
    t.count_sheet(false, false);
    placed(t, seed, block, table, &mut words);
}

// ---- a sheet

// Of a sheet with too many points only the refusal is compared. The rows and points of larger sheets are asked about by chance only.
pub(crate) fn sheet(t: &mut Tally, seed: &mut usize, block: &[i64], table: &[i64], kind: Kind) {
    let found = refusals::check(block, table);
    let large = found.is_ok() && brute::has_many_points(block, table);
    t.count_sheet(found.is_err(), large);
    refusal(t, block, table, found);
    if large {
        return;
    }
    firsts::sheet(t, block, table);
    judging(t, block, table);
    for _ in 0..6 {
        request(t, seed, block, table);
    }
    let c = settle(t, block, table);
    t.count_settling(c.found, c.moved);
    if found.is_err() || kind == Kind::Larger {
        return;
    }
    for i in 0..reading::rows(block, table) {
        narrow(t, block, table, number(i));
        shapes(t, block, table, i);
    }
    for _ in 0..3 {
        placement(t, seed, block, table);
    }
    inside::placements(t, block, table);
}
