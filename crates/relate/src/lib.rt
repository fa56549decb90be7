// How two rows of a fixed placement stand to each other in one dimension (document 02, T-01): which of the thirteen interval relations of
// document 004, Allen's, the first bears to the second. It is read from a table over four comparisons.
#![tactic(auto)]

ghost use Rattle.std.specs.Prelude.{◌≡◌};
ghost use Rattle.integers.specs.Integer.{nat};
ghost use Rattle.sheet.specs.Refusal.{refusal_relation};
ghost use Rattle.sheet.specs.Relation.{compared, relation_between, relation_of};
ghost use Rattle.sheet.specs.Answer.{answer};
ghost use Rattle.relate.specs.Comparisons.{index_of};

use outline::solid::Extent;
use sheet::{Allen, Refusal};
use std::cmp::Ordering;

mod extent; // extent.rt: where a row starts and ends

// The relation by four comparisons, each less, equal or greater: the first's end with the second's start, the first's start with the
// second's end, start with start, and end with end. Thirteen entries occur; the others have what the first comparisons tell alone.
const RELATIONS: [[[[Allen; 3]; 3]; 3]; 3] = [
    [[[Allen::Precedes; 3]; 3]; 3],
    [[[Allen::Meets; 3]; 3]; 3],
    [
        [
            [Allen::Overlaps, Allen::FinishedBy, Allen::Contains],
            [Allen::Starts, Allen::Equals, Allen::StartedBy],
            [Allen::During, Allen::Finishes, Allen::OverlappedBy],
        ],
        [[Allen::MetBy; 3]; 3],
        [[Allen::PrecededBy; 3]; 3],
    ],
];

// Which entry of the table stands for a comparison.
fn compared(x: i64, y: i64) -> usize
    ensures { result ≡ index_of (compared x y) }
{
    match x.cmp(&y) {
        Ordering::Less => 0,
        Ordering::Equal => 1,
        Ordering::Greater => 2,
    }
}

// What the first bears to the second.
fn between(x: Extent, y: Extent) -> Allen
    ensures { result ≡ relation_between x.start x.end y.start y.end }
{
    let p = compared(x.end, y.start);
    let q = compared(x.start, y.end);
    let r = compared(x.start, y.start);
    let s = compared(x.end, y.end);
    RELATIONS[p][q][r][s]
}

pub fn relation(
    block: &[i64],
    table: &[i64],
    row: i64,
    other: i64,
    dimension: i64,
) -> Result<Allen, Refusal>
    ensures { result ≡ answer (refusal_relation block.now table.now row other dimension)
        (relation_of block.now table.now (nat row) (nat other) (nat dimension)) }
{
    accept::relation::check(block, table, row, other, dimension)?;
    let d = dimension as usize;
    let i = words::row_place(block, table, row as usize);
    let j = words::row_place(block, table, other as usize);
    Ok(between(
        extent::of_row(block, table, i, d),
        extent::of_row(block, table, j, d),
    ))
}
