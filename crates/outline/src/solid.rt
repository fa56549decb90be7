// Solids: every box of the block, and the hull of every shape that has one, the smallest solid around its boxes.
ghost use Rattle.std.specs.Prelude.{◌≡◌, ℕ, ◌+◌, ◌<◌, set};
ghost use Rattle.points.specs.Area.{coordinates, min_z, max_z};
ghost use Rattle.sheet.specs.Layout.{dims, boxes};
ghost use Rattle.sheet.specs.Accepted.{Boxed, Block};
ghost use Rattle.outline.specs.Places.{hull_of, shapes_most, solid_at, solids, start_of, end_of, SameTo};
ghost use Rattle.outline.specs.Chain.{Chained};
ghost use Rattle.outline.specs.Solids.{IsBox, Boxes, Spans, Spanning, Hull};

use crate::{OUTLINE, SHAPES, SOLID, SOLIDS, chain};
use points::COORDINATES;
use sheet::BOXES;

// No box of an accepted sheet starts or ends farther from its row's origin.
const FAR: i64 = 20000;

// Where a solid starts and ends in one dimension.
#[derive(Clone, Copy)]
pub struct Extent {
    pub start: i64,
    pub end: i64,
}

// The hull of shape s, as a solid.
pub fn hull_of(s: usize) -> usize
    requires { s < shapes_most }
    ensures { result ≡ hull_of s }
{
    BOXES + s
}

// Solid x in dimension d.
pub fn extent_of(outline: &[i64; OUTLINE], x: usize, d: usize) -> Extent
    requires { (x < solids) × (d < coordinates) }
    ensures { (result.start ≡ start_of outline.now x d) × (result.end ≡ end_of outline.now x d) }
{
    let at = SOLIDS + SOLID * x + d;
    Extent {
        start: outline[at],
        end: outline[at + COORDINATES],
    }
}

// Puts where solid x starts and ends in dimension d.
fn put_extent(outline: &mut [i64; OUTLINE], x: usize, d: usize, extent: Extent)
    requires { (x < solids) × (d < coordinates) }
    ensures { outline.new ≡ set (set outline.old (solid_at x + d) extent.start) (solid_at x + d + coordinates) extent.end }
{
    let at = SOLIDS + SOLID * x + d;
    outline[at] = extent.start;
    outline[at + COORDINATES] = extent.end;
}

// ---- boxes

// Puts box b.
fn put_box(block: &[i64], outline: &mut [i64; OUTLINE], b: usize)
    requires { Block block.now × (b < boxes block.now) }
    ensures { SameTo (solid_at b) outline.old outline.new × IsBox block.now outline.new b }
{
    let place = words::box_place(block, b);
    for d in 0..words::dims_of(block) {
        let start = words::offset_of(block, place, d);
        let end = start + words::size_of(block, place, d);
        put_extent(outline, b, d, Extent { start, end });
    }
}

// Puts every box.
pub(crate) fn put_boxes(block: &[i64], outline: &mut [i64; OUTLINE])
    requires { Block block.now }
    ensures { SameTo (solid_at 0) outline.old outline.new × Boxes block.now outline.new }
{
    for b in 0..words::boxes_of(block) {
        put_box(block, outline, b);
    }
}

// ---- hulls

// The smallest extent around two.
pub fn around(a: Extent, b: Extent) -> Extent
    ensures { (result.start ≡ min_z a.start b.start) × (result.end ≡ max_z a.end b.end) }
{
    Extent {
        start: a.start.min(b.start),
        end: a.end.max(b.end),
    }
}

// The smallest extent around the boxes of shape s in dimension d.
fn span(block: &[i64], outline: &[i64; OUTLINE], s: usize, d: usize) -> Extent
    requires { Spanning block.now outline.now s × (d < dims block.now) }
    ensures { Spans block.now s d (boxes block.now) result }
{
    let mut hull = Extent {
        start: FAR,
        end: -FAR,
    };
    let mut next = chain::first_of(block, outline, s);
    while let Some(b) = next {
        hull = around(hull, extent_of(outline, b, d));
        next = chain::after(block, outline, b, s);
    }
    hull
}

// Puts the hull of shape s.
fn put_hull(block: &[i64], outline: &mut [i64; OUTLINE], s: usize)
    requires { Spanning block.now outline.old s }
    ensures { SameTo (solid_at (hull_of s)) outline.old outline.new × Hull block.now outline.new s }
{
    let hull = hull_of(s);
    for d in 0..words::dims_of(block) {
        let extent = span(block, outline, s, d);
        put_extent(outline, hull, d, extent);
    }
}

// Puts the hull of every shape that has a box.
pub(crate) fn put_hulls(block: &[i64], outline: &mut [i64; OUTLINE])
    requires { Block block.now × Chained block.now outline.old × Boxes block.now outline.old }
    ensures { SameTo (solid_at (hull_of 0)) outline.old outline.new
        × ((s : ℕ) → Boxed block.now s → Hull block.now outline.new s) }
{
    for s in 0..SHAPES {
        if chain::first_of(block, outline, s).is_some() {
            put_hull(block, outline, s);
        }
    }
}
