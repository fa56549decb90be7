// Sheets by chance, drawn record by record after a plan; sheets with a word or a length that is out of its range; placements.
use super::numbers::{
    all_of, at, below, count_of, from, has, one_of, place, put, put_run, set_of, word_of,
};
use super::plan::{Kind, Pairs, Plan};
use super::reading::RECORD;
use super::{plan, reading};

// A sheet is drawn into one run of words: its block from word 0 on, its table from word BLOCK on. These are the most words of both.
pub const BLOCK: usize = 1507;

pub const TABLE: usize = 288;

pub const WORDS: usize = BLOCK + TABLE;

// How many words of both a sheet takes.
#[derive(Clone, Copy)]
pub struct Lengths {
    pub block: usize,
    pub table: usize,
}

// ---- sets

// A set of some of n members: every second time of all.
fn some_set(seed: &mut usize, n: usize) -> i64 {
    if one_of(seed, 2) {
        return all_of(n);
    }
    from(seed, 1, count_of(all_of(n)))
}

// ---- records

// A record that starts with three words: a rule's are its kind, its dimensions and its rows.
fn record(a: i64, b: i64, c: i64) -> [i64; RECORD] {
    [a, b, c, 0, 0, 0, 0, 0, 0, 0, 0]
}

// The set of every dimension.
const EVERY: i64 = 31;

// The word, or the nearest one that is not past the limit.
fn clipped(w: i64, limit: i64) -> i64 {
    w.max(limit.saturating_neg()).min(limit)
}

// Puts pair d into a record.
fn put_pair(record: &mut [i64], s: Pairs, d: usize, first: i64, second: i64) {
    let i = place(s.at, s.step, d);
    let last = if s.is_range {
        first.saturating_add(second)
    } else {
        second
    };
    put(record, i, clipped(first, s.limit));
    put(record, i.saturating_add(s.gap), clipped(last, s.limit));
}

// The record with a pair put in for each of the dimensions of a set.
fn with_pairs(
    seed: &mut usize,
    mut record: [i64; RECORD],
    s: Pairs,
    k: usize,
    dims: i64,
) -> [i64; RECORD] {
    for d in 0..k {
        if has(dims, d) {
            let first = from(seed, s.first, s.n);
            let second = from(seed, s.then, s.more);
            put_pair(&mut record, s, d, first, second);
        }
    }
    record
}

// The shape of box b: the first boxes are one of each shape, and the others of any.
fn box_shape(seed: &mut usize, shapes: Option<usize>, b: usize) -> i64 {
    match shapes {
        None => 1,
        Some(n) if b < n => reading::number(b),
        Some(n) => from(seed, 1, n),
    }
}

fn box_record(seed: &mut usize, p: Plan, b: usize) -> [i64; RECORD] {
    let shape = box_shape(seed, p.shapes, b);
    with_pairs(seed, record(shape, 0, 0), p.extents, p.k, EVERY)
}

// A rule by chance: with a room, with clearances, or with neither, so that of rules over the same rows one often has more clearance.
fn some_rule(seed: &mut usize, p: Plan) -> [i64; RECORD] {
    let dims = from(seed, 1, count_of(all_of(p.k)));
    let rows = some_set(seed, p.rows);
    match below(seed, 3) {
        0 => with_pairs(seed, record(2, dims, rows), p.rooms, p.k, dims),
        1 => with_pairs(seed, record(1, dims, rows), p.clearances, p.k, dims),
        _ => record(1, dims, rows),
    }
}

// No two rows but row r + 1 overlap: of rules that leave out different rows none covers another. The twentieth rule leaves out the first
// dimension, so that it forbids more than the others: a list that drops what it has no room for is told.
fn rule_without(seed: &mut usize, p: Plan, r: usize) -> [i64; RECORD] {
    let dims = all_of(p.k).saturating_sub(i64::from(r == 19));
    let rows = all_of(p.rows).saturating_sub(set_of(r));
    with_pairs(seed, record(1, dims, rows), p.clearances, p.k, dims)
}

// A rule that can be filled, of some of the rows.
fn fill_rule(seed: &mut usize, p: Plan) -> [i64; RECORD] {
    let dims = all_of(p.k);
    let rows = some_set(seed, p.rows);
    with_pairs(seed, record(2, dims, rows), p.rooms, p.k, dims)
}

// A rule of every row in every dimension: the first keeps them apart, and another is of a room.
fn rule_of_all(seed: &mut usize, p: Plan, r: usize) -> [i64; RECORD] {
    let dims = all_of(p.k);
    let rows = all_of(p.rows);
    if r == 0 {
        return with_pairs(seed, record(1, dims, rows), p.clearances, p.k, dims);
    }
    with_pairs(seed, record(2, dims, rows), p.rooms, p.k, dims)
}

// Rule r of a plan. A position's rules have a room and name dimension 0 and row 1; the last rule of a room's sheet can be filled.
fn rule_record(seed: &mut usize, p: Plan, r: usize) -> [i64; RECORD] {
    match p.kind {
        Kind::Room if r.saturating_add(1) == p.rules => fill_rule(seed, p),
        Kind::Small | Kind::Room => some_rule(seed, p),
        Kind::Larger => rule_without(seed, p, r),
        Kind::Position => with_pairs(seed, record(2, 1, 1), p.rooms, p.k, 1),
        Kind::Crowd | Kind::Tight => rule_of_all(seed, p, r),
    }
}

// A row's shape set: every second time one shape, which forbids the most, and else any set.
fn row_shapes(seed: &mut usize, shapes: Option<usize>) -> i64 {
    let Some(n) = shapes else {
        return 1;
    };
    if one_of(seed, 2) {
        return some_set(seed, n);
    }
    set_of(below(seed, n))
}

// How wide a range is at most: every fifth row is fixed, and with more dimensions ranges are shorter, so that there are few points.
fn some_width(seed: &mut usize, k: usize) -> usize {
    if one_of(seed, 5) {
        return 1;
    }
    match k {
        1 => 8,
        2 => 6,
        3 => 4,
        _ => 3,
    }
}

fn row_record(seed: &mut usize, p: Plan) -> [i64; RECORD] {
    let mut s = p.ranges;
    if p.kind == Kind::Small {
        s.more = some_width(seed, p.k);
    }
    let set = row_shapes(seed, p.shapes);
    with_pairs(seed, record(set, 0, 0), s, p.k, EVERY)
}

// ---- sheets

// Draws the words of a plan into a run of zeros.
fn draw(seed: &mut usize, words: &mut [i64], p: Plan) {
    put_run(
        words,
        0,
        &record(word_of(p.k), word_of(p.boxes), word_of(p.rules)),
    );
    for b in 0..p.boxes {
        let r = box_record(seed, p, b);
        put_run(words, reading::box_place(p.k, b), &r);
    }
    for m in 0..p.rules {
        let r = rule_record(seed, p, m);
        put_run(words, reading::rule_place(p.k, p.boxes, m), &r);
    }
    for i in 0..p.rows {
        let r = row_record(seed, p);
        put_run(words, reading::row_place(p.k, i).saturating_add(BLOCK), &r);
    }
}

// Sheet m of a kind; of the small ones every fourth is spoiled.
pub(crate) fn sheet(seed: &mut usize, words: &mut [i64], kind: Kind, m: usize) -> Lengths {
    let p = plan::of(seed, kind, m);
    draw(seed, words, p);
    let z = Lengths {
        block: reading::rule_place(p.k, p.boxes, p.rules),
        table: reading::row_place(p.k, p.rows),
    };
    if kind == Kind::Small && one_of(seed, 4) {
        return spoiled_again(seed, words, z);
    }
    z
}

// ---- sheets to be refused

// Words at or past the end of some range.
const ODD: [i64; 22] = [
    0,
    1,
    -1,
    2,
    3,
    5,
    32,
    33,
    129,
    1000,
    1001,
    10000,
    10001,
    -10000,
    -10001,
    1000000,
    1000001,
    -1000001,
    4294967296,
    4294967297,
    i64::MAX,
    i64::MIN,
];

// Makes one of n words from `first` on odd.
fn spoil(seed: &mut usize, words: &mut [i64], first: usize, n: usize) {
    let i = first.saturating_add(below(seed, n));
    put(words, i, ODD[below(seed, ODD.len())]);
}

// A length that is one more or one less.
fn odd_length(seed: &mut usize, n: usize) -> usize {
    if one_of(seed, 2) {
        return n.saturating_add(1);
    }
    n.saturating_sub(1)
}

// Changes a word or a length, so that as a rule the sheet is refused.
fn spoiled(seed: &mut usize, words: &mut [i64], mut z: Lengths) -> Lengths {
    match below(seed, 8) {
        0 => z.block = odd_length(seed, z.block),
        1 => z.table = odd_length(seed, z.table),
        2 => z.block = below(seed, 4),
        3 => spoil(seed, words, 0, 3),
        4 | 5 => spoil(seed, words, BLOCK, z.table),
        _ => spoil(seed, words, 0, z.block),
    }
    z
}

// Spoils a sheet once or twice: of two grounds the first is to be found.
fn spoiled_again(seed: &mut usize, words: &mut [i64], z: Lengths) -> Lengths {
    let y = spoiled(seed, words, z);
    if one_of(seed, 2) {
        return y;
    }
    spoiled(seed, words, y)
}

// ---- placements

// The last shape of a set that is not past s, or else its first, as a set.
fn one_shape(set: i64, s: usize) -> i64 {
    let first = (0..32).find(|d| has(set, *d));
    (0..32)
        .rev()
        .find(|d| *d <= s && has(set, *d))
        .or(first)
        .map_or(0, set_of)
}

// Fixes every row, of `len` words, at a shape of its set and a point of its range.
pub(crate) fn fix(seed: &mut usize, table: &mut [i64], len: usize) {
    for row in table.chunks_exact_mut(len.max(1)) {
        if let [set, ranges @ ..] = row {
            *set = one_shape(*set, below(seed, 3));
            for ends in ranges.chunks_exact_mut(2) {
                let span = at(ends, 1).saturating_sub(at(ends, 0));
                let x = from(seed, at(ends, 0), count_of(span).saturating_add(1));
                ends.fill(x);
            }
        }
    }
}
