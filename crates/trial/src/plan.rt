// What the sheets are made of: small ones by chance, larger ones by chance, rooms to be filled, crowds and tight rooms to be laid out, and
// the positions.
use super::edges;
use super::numbers::below;

// The kinds of sheets.
#[derive(Clone, Copy, PartialEq, Eq)]
pub enum Kind {
    Small,
    Larger,
    Position,
    Room,
    Crowd,
    Tight,
}

// How k pairs of words of a record are drawn. Pair d starts at word `at` + `step` * d, and its second word stands `gap` words after the
// first. The first is one of `n` words from `first` on, the second one of `more` words from `then` on; of a range it is so much past the
// first. No word is past `limit`. There is always a second word, so that `is_range` is no option.
#[derive(Clone, Copy)]
pub struct Pairs {
    pub at: usize,
    pub step: usize,
    pub gap: usize,
    pub is_range: bool,
    pub first: i64,
    pub n: usize,
    pub then: i64,
    pub more: usize,
    pub limit: i64,
}

// What a sheet is made of. Where no shapes are drawn, every box and every row is of shape 1.
#[derive(Clone, Copy)]
pub struct Plan {
    pub kind: Kind,
    pub k: usize,
    pub boxes: usize,
    pub rules: usize,
    pub rows: usize,
    pub shapes: Option<usize>,
    pub extents: Pairs, // the offsets and sizes of a box
    pub ranges: Pairs, // of a row
    pub rooms: Pairs, // of a rule
    pub clearances: Pairs, // of a rule
}

// Offsets, each one of n words, and sizes.
pub(crate) fn extents(k: usize, first: i64, n: usize, then: i64, more: usize) -> Pairs {
    Pairs {
        at: 1,
        step: 1,
        gap: k,
        is_range: false,
        first,
        n,
        then,
        more,
        limit: 1000000,
    }
}

// Lows, each one of n words, and highs; `at` is the first word of the first range in its record.
pub(crate) fn ranges(at: usize, first: i64, n: usize, then: i64, more: usize) -> Pairs {
    Pairs {
        at,
        step: 2,
        gap: 1,
        is_range: true,
        first,
        n,
        then,
        more,
        limit: 2000000,
    }
}

// Clearances, each one of n words from 0 on, and zeros.
pub(crate) fn clearances(n: usize) -> Pairs {
    Pairs {
        is_range: false,
        ..ranges(3, 0, n, 0, 1)
    }
}

// ---- small sheets

// Where the ranges start: around 0, or at an end of what a range may hold.
fn some_base(seed: &mut usize) -> i64 {
    match below(seed, 8) {
        0 => -1000000,
        1 => 999989,
        _ => -3,
    }
}

// A small sheet: k from 1 to 4, one to four rows, one to three shapes, up to nine boxes, up to three rules of both kinds, with rooms around
// the ranges and clearances of 0 to 3.
fn small(seed: &mut usize) -> Plan {
    let k = 1 + below(seed, 4);
    let rows = (1 + below(seed, 5)).min(4);
    let shapes = 1 + below(seed, 3);
    let boxes = shapes + below(seed, 1 + 2 * shapes);
    let rules = below(seed, 5).min(3);
    let base = some_base(seed);
    Plan {
        kind: Kind::Small,
        k,
        boxes,
        rules,
        rows,
        shapes: Some(shapes),
        extents: extents(k, -2, 5, 1, 3),
        ranges: ranges(1, base, 3, 0, 1),
        rooms: Pairs {
            limit: 1000000,
            ..ranges(3, base.saturating_sub(4), 5, 5, 9)
        },
        clearances: clearances(4),
    }
}

// ---- larger sheets

// The rows, boxes and rules of larger sheets.
const COUNTS: [[usize; 3]; 6] = [
    [8, 4, 1],
    [8, 32, 1],
    [32, 1, 20],
    [32, 3, 20],
    [24, 16, 1],
    [24, 32, 1],
];

// A larger sheet: in three or four dimensions, small boxes of one outline, far enough apart that those of two rows often pass each other,
// ranges of one or two numbers, and every second time clearances of 0 or 1. So it has what small sheets cannot fill, the kernel's suspects,
// with room to spare and full, and both lengths of them.
fn larger(seed: &mut usize, m: usize) -> Plan {
    let k = 3 + below(seed, 2);
    let [rows, boxes, rules] = COUNTS[m % 6];
    let r = ranges(1, -3, 7, 0, 2);
    Plan {
        kind: Kind::Larger,
        k,
        boxes,
        rules,
        rows,
        shapes: None,
        extents: extents(k, -8, 17, 1, 2),
        ranges: r,
        rooms: r,
        clearances: clearances(1 + below(seed, 2)),
    }
}

// ---- rooms

// How wide rooms are: wide enough for most placements; every fourth time of about 4,096 cells, and every eighth time of few or none.
fn some_room(seed: &mut usize, k: usize) -> Pairs {
    match below(seed, 8) {
        0 => ranges(3, -1, 2, 0, 3),
        1 | 2 => ranges(3, -3, 3, widest(k), 3),
        _ => ranges(3, -3, 3, 6, 3),
    }
}

// One less than the side of a room of 4,096 cells.
fn widest(k: usize) -> i64 {
    match k {
        1 => 4095,
        2 => 63,
        3 => 15,
        _ => 7,
    }
}

// A room with one to four rows in it, of one to three shapes that lie between -1 and 3, each at a point from 0 to 2 in every dimension.
fn room(seed: &mut usize) -> Plan {
    let k = 1 + below(seed, 4);
    let shapes = 1 + below(seed, 3);
    Plan {
        kind: Kind::Room,
        k,
        boxes: shapes + below(seed, 6),
        rules: 1 + below(seed, 2),
        rows: 1 + below(seed, 4),
        shapes: Some(shapes),
        extents: extents(k, -1, 3, 1, 2),
        ranges: ranges(1, 0, 3, 0, 1),
        rooms: some_room(seed, k),
        clearances: clearances(2),
    }
}

// ---- crowds

// A crowd: five to nine rows, none of which may overlap, of one or two shapes in one or two dimensions. A range has one or two numbers, so
// that most crowds are tiny.
fn crowd(seed: &mut usize) -> Plan {
    let k = 1 + below(seed, 2);
    let shapes = 1 + below(seed, 2);
    Plan {
        kind: Kind::Crowd,
        k,
        boxes: shapes + below(seed, 2),
        rules: 1,
        rows: 5 + below(seed, 5),
        shapes: Some(shapes),
        extents: extents(k, 0, 2, 1, 2),
        ranges: ranges(1, 0, 16, 0, 2),
        rooms: ranges(3, 0, 1, 16, 4),
        clearances: clearances(2),
    }
}

// A tight room: three or four rows, none of which may overlap, and little to spare, so that the least coordinates that settling leaves are
// often in no layout.
fn tight(seed: &mut usize) -> Plan {
    let k = 1 + below(seed, 2);
    let is_line = k == 1;
    Plan {
        kind: Kind::Tight,
        k,
        boxes: 3,
        rules: 2,
        rows: 3 + below(seed, 2),
        shapes: Some(3),
        extents: extents(k, 0, 1, 1, 3),
        ranges: if is_line {
            ranges(1, 0, 2, 2, 4)
        } else {
            ranges(1, 0, 2, 0, 3)
        },
        rooms: if is_line {
            ranges(3, 0, 1, 5, 4)
        } else {
            ranges(3, 0, 1, 3, 3)
        },
        clearances: clearances(1),
    }
}

// ---- all

// The plan of sheet m of a kind.
pub(crate) fn of(seed: &mut usize, kind: Kind, m: usize) -> Plan {
    // A plan carries its kind, so that closures in the place of the arms would have it beside them all the same.
    match kind {
        Kind::Small => small(seed),
        Kind::Larger => larger(seed, m),
        Kind::Position => edges::plan(m),
        Kind::Room => room(seed),
        Kind::Crowd => crowd(seed),
        Kind::Tight => tight(seed),
    }
}
