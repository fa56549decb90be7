// Five squares of 1,000 in a room that holds four, and in one that is long enough for three side by side (document 02, T-06). Their ranges are as
// wide as ranges can be; what is expected was worked out by hand.
use super::firsts;
use super::tally::Tally;

const FAR: i64 = 1000000;

const ROWS: usize = 25;

const OPEN: [i64; ROWS] = [
    1, -FAR, FAR, -FAR, FAR, //
    1, -FAR, FAR, -FAR, FAR, //
    1, -FAR, FAR, -FAR, FAR, //
    1, -FAR, FAR, -FAR, FAR, //
    1, -FAR, FAR, -FAR, FAR,
];

const PLACED: [i64; ROWS] = [
    1, 0, 0, 0, 0, //
    1, 0, 0, 1000, 1000, //
    1, 1000, 1000, 0, 0, //
    1, 1000, 1000, 1000, 1000, //
    1, 2000, 2000, 0, 0,
];

// One box; no two rows overlap, and every row lies in the room.
fn block(length: i64) -> [i64; 22] {
    [
        2, 1, 2, //
        1, 0, 0, 1000, 1000, //
        1, 3, 31, 0, 0, 0, 0, //
        2, 3, 31, 0, length, 0, 2999,
    ]
}

pub(crate) fn both() -> Tally {
    let mut t = Tally::default();
    firsts::kernel(&mut t, &block(2999), &OPEN, &OPEN, Ok(false));
    firsts::kernel(&mut t, &block(3000), &OPEN, &PLACED, Ok(true));
    t
}
