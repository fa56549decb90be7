// Where a row may stand before any other row is looked at: its ranges, and of those the points at which every room rule holds.
#![tactic(auto)]

mod rooms;

ghost use Rattle.sheet.specs.Layout.{axes};
ghost use Rattle.sheet.specs.Allowed.{in_ranges};
ghost use Rattle.sheet.specs.Accepted.{Block, Table};
ghost use Rattle.words.specs.Places.{RowPlace};
ghost use Rattle.outline.specs.Outline.{Subject};
ghost use Rattle.points.specs.Area.{Cuts, field_area, area_of};
ghost use Rattle.region.specs.Rooms.{CutBox};

use outline::OUTLINE;
use points::ends::AREA_WORDS;
use points::{Area, COORDINATES, REACH, ends};
use words::Place;

// Row i's ranges as a run of words: the low point, then the high point. The loop's bound is a constant: unrolled, it keeps the ends in
// registers.
fn range_ends(block: &[i64], table: &[i64], i: Place) -> [i64; AREA_WORDS]
    requires { Block block.now × Table block.now table.now × RowPlace block.now table.now i }
    ensures { Cuts (axes block.now) field_area (area_of result)
        (in_ranges block.now table.now i.number) }
{
    let k = words::axes_of(block);
    let mut ends = ends::ends_at(-REACH, REACH);
    for d in 0..COORDINATES {
        if d == k {
            break;
        }
        ends[d] = words::low_of(block, table, i, d);
        ends[COORDINATES + d] = words::high_of(block, table, i, d);
    }
    ends
}

// ---- the cut box

// The points of row i's ranges at which every room rule holds for shape s. There are none where its low point is not in it.
pub fn cut_box(block: &[i64], table: &[i64], outline: &[i64; OUTLINE], i: Place, s: usize) -> Area
    requires { Subject block.now table.now outline.now i s }
    ensures { CutBox block.now table.now i.number s result }
{
    let mut ends = range_ends(block, table, i);
    rooms::cut_by_rooms(&mut ends, block, outline, i.number, s);
    ends::area_at(&ends, 0)
}
