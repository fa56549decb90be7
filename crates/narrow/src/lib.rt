// Narrowing one row (document 01): its points are searched shape by shape, and the ends that they reach are written into the row. What can
// forbid it is listed, for each shape once, in runs that the caller lends.
#![tactic(auto)]

mod kept;
mod widen;

ghost use Rattle.std.specs.Prelude.{◌≡◌, Bool, true, false, not, ◌||◌, List, ◌∷◌, ℕ, ◌<◌, ◌≤◌, length, set, ℤ, pos};
ghost use Rattle.integers.specs.Integer.{nat, eq_z};
ghost use Rattle.integers.specs.Below.{value_or};
ghost use Rattle.integers.specs.Words.{word, pairs_below, replaced, same_words};
ghost use Rattle.sheet.specs.Layout.{axes, row_at};
ghost use Rattle.sheet.specs.Narrow.{narrow_of};
ghost use Rattle.sheet.specs.Refusal.{refusal_row};
ghost use Rattle.sheet.specs.Answer.{answer, is_found, table_after};
ghost use Rattle.words.specs.Places.{RowPlace};
ghost use Rattle.points.specs.Area.{area_words};
ghost use Rattle.outline.specs.Outline.{OnRow};
ghost use Rattle.points.specs.Ends.{end_at};
ghost use Rattle.narrow.specs.Steps.{step_answer};

use nearby::known::KNOWN;
use nearby::suspect;
use nearby::suspect::{FEW, FEW_WORDS, MANY_WORDS};
use outline::OUTLINE;
use points::{COORDINATES, ends};
use sheet::Refusal;
use words::Place;

// An end that no point has reached: past every point of an accepted sheet.
const NOWHERE: i64 = 1500000;

// What narrowing a row of an accepted sheet came to: no place is left, every word stayed, or some word changed.
#[derive(Clone, Copy, PartialEq, Eq)]
pub enum Step {
    NoPlace,
    Still,
    Moved,
}

// Writes one word. Whether it is another than before, or some word written earlier was.
fn put(table: &mut [i64], at: usize, w: i64, moved: bool) -> bool
    requires { at < length table.old }
    ensures { (table.new ≡ set table.old at w) × (result ≡ (moved || not (eq_z (word table.old at) w))) }
{
    let old = table[at];
    table[at] = w;
    moved || old != w
}

// Writes row i's words. Whether one of them changed.
fn write_row(block: &[i64], table: &mut [i64], i: Place, shapes: u32, ends: &[i64]) -> bool
    requires { RowPlace block.now table.old i × (length ends.now ≡ area_words) }
    ensures { (table.new ≡ replaced table.old (row_at block.now i.number)
        (pos shapes ∷ pairs_below (axes block.now) (λ d. end_at false d ends.now)
        (λ d. end_at true d ends.now)))
        × (result ≡ not (same_words table.new table.old)) }
{
    let k = words::axes_of(block);
    let at = i.at;
    let mut moved = false;
    for d in 0..k {
        moved = put(table, at + 1 + 2 * d, ends[d], moved);
        moved = put(table, at + 2 + 2 * d, ends[COORDINATES + d], moved);
    }
    put(table, at, shapes as i64, moved)
}

// Narrows row i of an accepted sheet; the table stays as it was where no place is left.
pub fn narrow_row(
    block: &[i64],
    table: &mut [i64],
    outline: &[i64; OUTLINE],
    suspects: &mut [i64],
    known: &mut [i64; KNOWN],
    i: Place,
) -> Step
    requires { OnRow block.now table.old outline.now i }
    ensures { (result ≡ step_answer table.old (narrow_of block.now table.old i.number))
        × (table.new ≡ value_or table.old (narrow_of block.now table.old i.number)) }
{
    let mut ends = ends::ends_at(NOWHERE, -NOWHERE);
    let shapes = kept::kept_shapes(block, table, outline, suspects, known, &mut ends, i);
    if shapes == 0 {
        return Step::NoPlace;
    }
    if write_row(block, table, i, shapes, &ends) {
        Step::Moved
    } else {
        Step::Still
    }
}

// Narrows row i of an accepted sheet, and says whether it has a place. N words make room for its suspects.
fn narrow_in<const N: usize>(
    block: &[i64],
    table: &mut [i64],
    outline: &[i64; OUTLINE],
    i: Place,
) -> bool
    requires room { N ≤ 5120 }
    requires on { OnRow block.now table.old outline.now i }
    ensures found { result ≡ is_found (narrow_of block.now table.old i.number) }
    ensures words { table.new ≡ value_or table.old (narrow_of block.now table.old i.number) }
{
    let mut suspects = [0i64; N];
    let mut known = [0i64; KNOWN];
    narrow_row(block, table, outline, &mut suspects, &mut known, i) != Step::NoPlace
}

// The kernel's operation: narrows a row of a sheet, or refuses it and leaves the table as it was. Whether the row has a place.
pub fn narrow(block: &[i64], table: &mut [i64], row: i64) -> Result<bool, Refusal>
    ensures { (result ≡ answer (refusal_row block.now table.old row)
        (is_found (narrow_of block.now table.old (nat row))))
        × (table.new ≡ table_after (refusal_row block.now table.old row) table.old
        (narrow_of block.now table.old (nat row))) }
{
    accept::check_row(block, table, row)?;
    let i = words::row_place(block, table, row as usize);
    let mut outline = [0i64; OUTLINE];
    outline::draw(block, &mut outline);
    if suspect::most(block, table, &outline) <= FEW {
        Ok(narrow_in::<FEW_WORDS>(block, table, &outline, i))
    } else {
        Ok(narrow_in::<MANY_WORDS>(block, table, &outline, i))
    }
}
