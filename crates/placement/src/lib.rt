// Looking at a sheet: whether a row with a shape is allowed at a point, and whether a fixed placement is good (document 01).
#![tactic(auto)]

mod judge;

ghost use Rattle.std.specs.Prelude.{◌≡◌, ℕ, ◌<◌};
ghost use Rattle.integers.specs.Integer.{nat};
ghost use Rattle.integers.specs.Words.{word};
ghost use Rattle.sheet.specs.Layout.{axes, low};
ghost use Rattle.sheet.specs.Allowed.{allowed};
ghost use Rattle.sheet.specs.Placement.{good};
ghost use Rattle.sheet.specs.Refusal.{refusal_shape, refusal_placement};
ghost use Rattle.sheet.specs.Answer.{answer};
ghost use Rattle.sheet.specs.Accepted.{Block, Table};
ghost use Rattle.words.specs.Places.{RowPlace};
ghost use Rattle.outline.specs.Outline.{Subject};
ghost use Rattle.placement.specs.Rows.{FixedSheet};

use outline::OUTLINE;
use points::COORDINATES;
use sheet::Refusal;
use words::Place;

// Whether row i with shape s is allowed at p: it is in the cut box, and no rule forbids it.
fn stands(
    block: &[i64],
    table: &[i64],
    outline: &[i64; OUTLINE],
    i: Place,
    s: usize,
    p: [i64; COORDINATES],
) -> bool
    requires { Subject block.now table.now outline.now i s }
    ensures { result ≡ allowed block.now table.now i.number s p }
{
    let k = words::axes_of(block);
    let cut = region::cut_box(block, table, outline, i, s);
    cut.holds(k, p) && forbid::forbidding_region(block, table, outline, i, s, p).is_none()
}

// Whether a row with a shape is allowed at a point. Coordinates are any words: a point outside the ranges is simply not allowed.
pub fn point_allowed(
    block: &[i64],
    table: &[i64],
    row: i64,
    shape: i64,
    p: [i64; COORDINATES],
) -> Result<bool, Refusal>
    ensures { result ≡ answer (refusal_shape block.now table.now row shape)
        (allowed block.now table.now (nat row) (nat shape) p) }
{
    accept::check_shape(block, table, row, shape)?;
    let i = words::row_place(block, table, row as usize);
    let mut outline = [0i64; OUTLINE];
    outline::draw(block, &mut outline);
    Ok(stands(block, table, &outline, i, shape as usize, p))
}

// ---- a fixed placement

// The point of a fixed row.
fn origin(block: &[i64], table: &[i64], i: Place) -> [i64; COORDINATES]
    requires { Block block.now × Table block.now table.now × RowPlace block.now table.now i }
    ensures { (d : ℕ) → d < axes block.now
        → word result d ≡ low block.now table.now i.number d }
{
    let mut p = [0i64; COORDINATES];
    for d in 0..words::axes_of(block) {
        p[d] = words::low_of(block, table, i, d);
    }
    p
}

// Whether every row of a fixed placement stands at its point, with its one shape.
pub fn all_good(block: &[i64], table: &[i64], outline: &[i64; OUTLINE]) -> bool
    requires { FixedSheet block.now table.now outline.now }
    ensures { result ≡ good block.now table.now }
{
    (0..words::rows_of(block, table)).all(|m| judge::row_stands(
        block,
        table,
        outline,
        words::row_place(block, table, m + 1),
    ))
}

pub fn check_placement(block: &[i64], table: &[i64]) -> Result<bool, Refusal>
    ensures { result ≡ answer (refusal_placement block.now table.now) (good block.now table.now) }
{
    accept::check_placement(block, table)?;
    let mut outline = [0i64; OUTLINE];
    outline::draw(block, &mut outline);
    Ok(all_good(block, table, &outline))
}
