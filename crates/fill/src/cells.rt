// The cells of a room that the rows of its rule cover: the boxes of each row are marked in a grid, and the marks are counted, so that a cell
// that several boxes cover counts once.
ghost use Rattle.std.specs.Prelude.{◌≡◌, ◌<◌};
ghost use Rattle.sheet.specs.Layout.{dims};
ghost use Rattle.sheet.specs.Fill.{room_cells, row_covers, covers_cell, covered_cells};
ghost use Rattle.sheet.specs.Cells.{cell_at};
ghost use Rattle.outline.specs.Outline.{Outline};
ghost use Rattle.fill.specs.Room.{IsWidths, Counting, Named, NamedBox, IsPlace, IsBrick, Adds};

use crate::room;
use grid::{Brick, CELLS};
use outline::{OUTLINE, chain};
use sheet::DIMS;
use words::Place;

// Where box b of row i starts in dimension d, counted from the room's low corner.
fn place_of(block: &[i64], table: &[i64], r: Place, i: Place, b: Place, d: usize) -> usize
    requires { NamedBox block.now table.now r i b × (d < dims block.now) }
    ensures { IsPlace block.now table.now r.number i.number b.number d result }
{
    let start = words::low_of(block, table, i, d) + words::offset_of(block, b, d);
    (start - words::room_low(block, r, d)) as usize
}

// Box b of row i as a brick of the room's grid.
fn brick_of(block: &[i64], table: &[i64], r: Place, i: Place, b: Place) -> Brick
    requires { NamedBox block.now table.now r i b }
    ensures { IsBrick block.now table.now r.number i.number b.number result }
{
    let mut from = [0usize; DIMS];
    let mut size = [0usize; DIMS];
    for d in 0..words::dims_of(block) {
        from[d] = place_of(block, table, r, i, b, d);
        size[d] = words::size_of(block, b, d) as usize;
    }
    Brick { from, size }
}

// Marks the cells of row i, which is fixed: its lowest shape is its one shape.
fn mark_row(
    block: &[i64],
    table: &[i64],
    outline: &[i64; OUTLINE],
    r: Place,
    i: Place,
    widths: [usize; DIMS],
    marks: &mut [bool; CELLS],
)
    requires { Named block.now table.now r i × Outline block.now outline.now × IsWidths block.now r.number widths }
    ensures { Adds (room_cells block.now r.number)
        (λ m. row_covers block.now table.now i.number (cell_at block.now r.number m))
        marks.old marks.new }
{
    let k = words::dims_of(block);
    let s = words::lowest_shape(block, table, i);
    let mut next = chain::first_of(block, outline, s);
    while let Some(b) = next {
        let brick = brick_of(block, table, r, i, words::box_place(block, b));
        grid::mark_brick(marks, k, widths, brick);
        next = chain::after(block, outline, b, s);
    }
}

// Marks the cells of every row that the rule names.
fn mark_rows(
    block: &[i64],
    table: &[i64],
    outline: &[i64; OUTLINE],
    r: Place,
    marks: &mut [bool; CELLS],
)
    requires { Counting block.now table.now r × Outline block.now outline.now }
    ensures { Adds (room_cells block.now r.number)
        (λ m. covers_cell block.now table.now r.number (cell_at block.now r.number m))
        marks.old marks.new }
{
    let widths = room::widths_of(block, r);
    for m in 0..words::rows_of(block, table) {
        if words::names_row(block, r, m + 1) {
            let i = words::row_place(block, table, m + 1);
            mark_row(block, table, outline, r, i, widths, marks);
        }
    }
}

// How many of the room's n cells are covered.
pub(crate) fn covered_cells(
    block: &[i64],
    table: &[i64],
    outline: &[i64; OUTLINE],
    r: Place,
    n: usize,
) -> usize
    requires { Counting block.now table.now r × Outline block.now outline.now × (n ≡ room_cells block.now r.number) }
    ensures { result ≡ covered_cells block.now table.now r.number }
{
    let mut marks = [false; CELLS];
    mark_rows(block, table, outline, r, &mut marks);
    grid::count(&marks, n)
}
