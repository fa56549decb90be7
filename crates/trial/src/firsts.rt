// The first whole layout, by document 02: of a tiny sheet every placement is tried, and the first of the good ones is kept. Settling plays no part
// in it.
use super::findings::Finding;
use super::generate::TABLE;
use super::numbers::part;
use super::tally::Tally;
use super::{catalogue, compare, inside, refusals};

// ---- by brute force

// The first of the n placements that are good. The words of a placement stand in the order in which placements are compared: the set of a
// row's one shape, which is greater for a greater number, and each coordinate twice.
fn first_good(block: &[i64], table: &[i64], n: usize) -> Option<[i64; TABLE]> {
    let mut first = None;
    for m in 0..n {
        let placed = inside::placement(block, table, m);
        let is_first = first.as_ref().is_none_or(|f| placed < *f);
        if is_first && catalogue::is_good(block, part(&placed, 0, table.len())) {
            first = Some(placed);
        }
    }
    first
}

// ---- by the kernel

// Compares the kernel's answer, the words that it leaves, where `ours` are those that are expected, and what it says of the placement.
pub(crate) fn kernel(t: &mut Tally, block: &[i64], table: &[i64], ours: &[i64], expected: Finding) {
    compare::kernel(t, table, ours, expected, |words| {
        compare::told(layout::first_layout(block, words))
    });
    if expected == Ok(true) {
        compare::judged(t, block, ours, Ok(true));
    }
}

// ---- a sheet

// Of a sheet that is accepted and has too many placements nothing is compared.
pub(crate) fn sheet(t: &mut Tally, block: &[i64], table: &[i64]) {
    if let Err(g) = refusals::check_layout(block, table) {
        kernel(t, block, table, table, Err(g));
        return;
    }
    let n = inside::count(block, table);
    if n > inside::MOST {
        return;
    }
    let first = first_good(block, table, n);
    let ours = match &first {
        Some(placed) => part(placed, 0, table.len()),
        None => table,
    };
    kernel(t, block, table, ours, Ok(first.is_some()));
    t.count_first(first.is_some());
}
