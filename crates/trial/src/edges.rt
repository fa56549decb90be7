// Document 01's positions that are not marked: the edges. A position is a sheet of equal boxes of one shape, equal rows and equal room
// rules; the expected finding is taken from document 01 by hand.
use super::findings::Finding;
use super::plan::{Kind, Plan};
use super::tally::Tally;
use super::{compare, plan};

// How many positions there are.
pub const POSITIONS: usize = 38;

// k, B, R, rows; offset and size of each box in each dimension; low and high of each row in each dimension; low and high of each
// rule's room, in dimension 0; and what settling finds.
type Position = ([usize; 4], [i64; 6], Finding);

// The table stays as given.
const SETTLED: Finding = Ok(true);

const NOTHING: Finding = Ok(false);

const TABLE: [Position; POSITIONS] = [
    // k 4 accepted, 5 refused; and 1 and 0
    ([4, 1, 1, 1], [0, 1, 0, 5, -10, 20], SETTLED),
    ([5, 1, 1, 1], [0, 1, 0, 5, -10, 20], Err(2)),
    ([1, 1, 1, 1], [0, 1, 0, 5, -10, 20], SETTLED),
    ([0, 1, 1, 1], [0, 1, 0, 5, -10, 20], Err(2)),
    // B 128 and 129; and 1 and 0
    ([1, 128, 1, 1], [0, 1, 0, 5, -10, 20], SETTLED),
    ([1, 129, 1, 1], [0, 1, 0, 5, -10, 20], Err(3)),
    ([4, 128, 1, 1], [0, 1, 0, 5, -10, 20], SETTLED),
    ([4, 129, 1, 1], [0, 1, 0, 5, -10, 20], Err(3)),
    ([1, 0, 1, 1], [0, 1, 0, 5, -10, 20], Err(3)),
    // size 1 and 0; and 10,000 and 10,001
    ([2, 1, 1, 1], [0, 1, 0, 5, -10, 20], SETTLED),
    ([2, 1, 1, 1], [0, 0, 0, 5, -10, 20], Err(6)),
    ([2, 1, 1, 1], [0, 10000, 0, 5, -10, 10005], SETTLED),
    ([2, 1, 1, 1], [0, 10001, 0, 5, -10, 10006], Err(6)),
    // offset −10,000 and −10,001; and 10,000 and 10,001
    ([3, 1, 1, 1], [-10000, 1, 0, 5, -10000, 20], SETTLED),
    ([3, 1, 1, 1], [-10001, 1, 0, 5, -10001, 20], Err(6)),
    ([3, 1, 1, 1], [10000, 1, 0, 5, -10, 10006], SETTLED),
    ([3, 1, 1, 1], [10001, 1, 0, 5, -10, 10007], Err(6)),
    // a row with low = high and low > high
    ([1, 1, 1, 1], [0, 1, 3, 3, -10, 20], SETTLED),
    ([1, 1, 1, 1], [0, 1, 4, 3, -10, 20], Err(8)),
    ([4, 1, 1, 1], [0, 1, 3, 3, -10, 20], SETTLED),
    ([4, 1, 1, 1], [0, 1, 4, 3, -10, 20], Err(8)),
    // a room with low = high, in which no box has room, and low > high
    ([1, 1, 1, 1], [0, 1, 3, 3, 3, 3], NOTHING),
    ([1, 1, 1, 1], [0, 1, 3, 3, 4, 3], Err(7)),
    // a room that a box just fills, and one less
    ([1, 1, 1, 1], [0, 1, 3, 3, 3, 4], SETTLED),
    ([1, 1, 1, 1], [0, 2, 3, 3, 3, 4], NOTHING),
    // R 32 and 33, and 0
    ([1, 1, 32, 1], [0, 1, 0, 5, -10, 20], SETTLED),
    ([1, 1, 33, 1], [0, 1, 0, 5, -10, 20], Err(3)),
    ([1, 1, 0, 1], [0, 1, 0, 5, 0, 0], SETTLED),
    // rows 32 and 33, and none
    ([1, 1, 1, 32], [0, 1, 0, 5, -10, 20], SETTLED),
    ([1, 1, 1, 33], [0, 1, 0, 5, -10, 20], Err(5)),
    ([1, 1, 1, 0], [0, 1, 0, 5, -10, 20], Err(5)),
    // the ends of ranges and of rooms
    (
        [2, 1, 1, 1],
        [0, 1, -1000000, -1000000, -1000000, 1000000],
        SETTLED,
    ),
    (
        [2, 1, 1, 1],
        [0, 1, 999999, 999999, -1000000, 1000000],
        SETTLED,
    ),
    (
        [2, 1, 1, 1],
        [0, 1, 1000000, 1000000, -1000000, 1000000],
        NOTHING,
    ),
    (
        [2, 1, 1, 1],
        [0, 1, -1000001, -1000000, -1000000, 1000000],
        Err(8),
    ),
    (
        [2, 1, 1, 1],
        [0, 1, 1000000, 1000001, -1000000, 1000000],
        Err(8),
    ),
    ([2, 1, 1, 1], [0, 1, 0, 5, -1000001, 1000000], Err(7)),
    ([2, 1, 1, 1], [0, 1, 0, 5, -1000000, 1000001], Err(7)),
];

pub(crate) fn plan(m: usize) -> Plan {
    let ([k, boxes, rules, rows], [offset, size, low, high, first, last], _) = TABLE[m % POSITIONS];
    Plan {
        kind: Kind::Position,
        k,
        boxes,
        rules,
        rows,
        shapes: None,
        extents: plan::extents(k, offset, 1, size, 1),
        ranges: plan::ranges(1, low, 1, high.saturating_sub(low), 1),
        rooms: plan::ranges(3, first, 1, last.saturating_sub(first), 1),
        clearances: plan::clearances(1),
    }
}

// The refusal, the least and the greatest coordinate of row 1 in dimension 0, and settling, which leaves the table as it was.
pub(crate) fn position(t: &mut Tally, block: &[i64], table: &[i64], m: usize) {
    let (_, [_, _, low, high, _, _], expected) = TABLE[m % POSITIONS];
    let mut u = Tally::default();
    compare::refusal(&mut u, block, table, expected.map(|_| ()));
    let ends = expected.map(|is_settled| is_settled.then_some((low, high)));
    compare::ends(&mut u, block, table, 1, 1, 0, ends);
    compare::settling(&mut u, block, table, table, expected);
    t.count_case(u.differ == 0);
}
