// How two rows stand to each other, by document 004: each of its thirteen rules is tried, and the kernel is to find the one that holds. It
// shares no code with the kernel.
use super::numbers::{count_of, set_of, word_of};
use super::reading::index;
use super::tally::Tally;
use super::{brute, compare, reading, refusals};
use sheet::Allen;

// The document's origin and end of a row in one dimension.
#[derive(Clone, Copy)]
struct Interval {
    origin: i64,
    end: i64,
}

fn interval_of(block: &[i64], table: &[i64], i: usize, d: usize) -> Interval {
    let s = brute::last_shape(reading::shape_set(block, table, i));
    let mut x = Interval {
        origin: i64::MAX,
        end: i64::MIN,
    };
    for b in 0..reading::boxes(block) {
        if !reading::is_other(block, b, s) {
            let start = reading::low(block, table, i, d).saturating_add(reading::offset(
                block, b, d,
            ));
            let end = start.saturating_add(reading::size(block, b, d));
            x.origin = x.origin.min(start);
            x.end = x.end.max(end);
        }
    }
    x
}

// In the order of their numbers, from 1.
const RELATIONS: [Allen; 13] = [
    Allen::Precedes,
    Allen::Meets,
    Allen::Overlaps,
    Allen::Contains,
    Allen::Starts,
    Allen::Finishes,
    Allen::Equals,
    Allen::StartedBy,
    Allen::FinishedBy,
    Allen::During,
    Allen::OverlappedBy,
    Allen::MetBy,
    Allen::PrecededBy,
];

// Whether a relation holds of two intervals.
fn holds(relation: Allen, x: Interval, y: Interval) -> bool {
    match relation {
        Allen::Precedes => x.end < y.origin,
        Allen::Meets => x.end == y.origin,
        Allen::Overlaps => x.origin < y.origin && x.end < y.end && y.origin < x.end,
        Allen::Contains => x.origin < y.origin && y.end < x.end,
        Allen::Starts => x.origin == y.origin && x.end < y.end,
        Allen::Finishes => y.origin < x.origin && x.end == y.end,
        Allen::Equals => x.origin == y.origin && x.end == y.end,
        Allen::StartedBy => x.origin == y.origin && y.end < x.end,
        Allen::FinishedBy => y.origin > x.origin && x.end == y.end,
        Allen::During => y.origin < x.origin && x.end < y.end,
        Allen::OverlappedBy => y.origin < x.origin && x.origin < y.end && x.end > y.end,
        Allen::MetBy => y.end == x.origin,
        Allen::PrecededBy => y.end < x.origin,
    }
}

// The numbers of the relations that hold, as a set: each by its place among the thirteen, not by the kernel's number.
fn all_that_hold(x: Interval, y: Interval) -> i64 {
    (1..14)
        .zip(RELATIONS.iter())
        .filter(|(_, relation)| holds(**relation, x, y))
        .fold(0, |set, (number, _)| set | set_of(number))
}

// The set of the kernel's number of a relation alone.
fn number_set(relation: Allen) -> i64 {
    set_of(count_of(relation as i64))
}

// ---- pairs of rows

// Exactly one relation holds, and the kernel finds it, or the refusal.
pub(crate) fn pair(t: &mut Tally, block: &[i64], table: &[i64], row: i64, other: i64, dim: i64) {
    let answer = compare::told(relate::relation(block, table, row, other, dim));
    let found = answer.map(number_set);
    if let Err(g) = refusals::check_relation(block, table, row, other, dim) {
        t.compare(found == Err(g));
        return;
    }
    let d = count_of(dim);
    let x = interval_of(block, table, index(row), d);
    let set = all_that_hold(x, interval_of(block, table, index(other), d));
    t.compare(found == Ok(set));
    t.count_relation(set);
}

// Every two rows and every dimension, and one past each side.
pub(crate) fn pairs(t: &mut Tally, block: &[i64], table: &[i64]) {
    let rows = word_of(reading::rows(block, table)).saturating_add(2);
    let dims = word_of(reading::dims(block)).saturating_add(1);
    for row in 0..rows {
        for other in 0..rows {
            for dim in -1..dims {
                pair(t, block, table, row, other, dim);
            }
        }
    }
}
