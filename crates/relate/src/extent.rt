// Where a row of a placement starts and ends in one dimension: the lowest start and the highest end of its boxes.
ghost use Rattle.std.specs.Prelude.{◌≡◌, cond, ◌<◌};
ghost use Rattle.sheet.specs.Layout.{boxes, of_row};
ghost use Rattle.sheet.specs.Placement.{box_start, box_end};
ghost use Rattle.sheet.specs.Relation.{lowest_start, highest_end};
ghost use Rattle.points.specs.Area.{min_z, max_z};
ghost use Rattle.words.specs.Places.{BoxPlace};
ghost use Rattle.relate.specs.Rows.{RowIn};

use outline::solid;
use outline::solid::Extent;
use words::Place;

// No box of an accepted sheet starts or ends as far from 0.
const FAR: i64 = 2000000;

// Box b of row i in dimension d.
fn of_box(block: &[i64], table: &[i64], i: Place, b: Place, d: usize) -> Extent
    requires { RowIn block.now table.now i d × BoxPlace block.now b }
    ensures { (result.start ≡ box_start block.now table.now i.number b.number d)
        × (result.end ≡ box_end block.now table.now i.number b.number d) }
{
    let at = words::low_of(block, table, i, d);
    let start = at + words::offset_of(block, b, d);
    let end = start + words::size_of(block, b, d);
    Extent { start, end }
}

// The extent of some boxes and of box b, if it is one of row i's.
fn with_box(block: &[i64], table: &[i64], i: Place, b: Place, d: usize, x: Extent) -> Extent
    requires { RowIn block.now table.now i d × BoxPlace block.now b }
    ensures { (result.start ≡ cond (of_row block.now table.now i.number b.number)
        (min_z x.start (box_start block.now table.now i.number b.number d)) x.start)
        × (result.end ≡ cond (of_row block.now table.now i.number b.number)
        (max_z x.end (box_end block.now table.now i.number b.number d)) x.end) }
{
    if !words::has_shape(block, table, i, words::shape_number(block, b)) {
        return x;
    }
    solid::around(x, of_box(block, table, i, b, d))
}

pub(crate) fn of_row(block: &[i64], table: &[i64], i: Place, d: usize) -> Extent
    requires { RowIn block.now table.now i d }
    ensures { (result.start ≡ lowest_start block.now table.now i.number d)
        × (result.end ≡ highest_end block.now table.now i.number d) }
{
    let mut x = Extent {
        start: FAR,
        end: -FAR,
    };
    for b in 0..words::boxes_of(block) {
        x = with_box(block, table, i, words::box_place(block, b), d, x);
    }
    x
}
