// The rule asked about and its room: checks 13 and 14.
ghost use Rattle.std.specs.Prelude.{◌≡◌, true, false, ◌<◌, MatchResult};
ghost use Rattle.integers.specs.Below.{all_below};
ghost use Rattle.sheet.specs.Layout.{dims, names_dim};
ghost use Rattle.sheet.specs.Fill.{rule_asked, is_fill_rule, room_width, room_cells};
ghost use Rattle.sheet.specs.Refusal.{◌when◌, no_fill_rule, bad_cells};
ghost use Rattle.sheet.specs.Answer.{answer};
ghost use Rattle.sheet.specs.declared.Refusal.TheVariants.{NoFillRule};
ghost use Rattle.sheet.specs.Accepted.{Block};
ghost use Rattle.words.specs.Places.{RulePlace};
ghost use Rattle.fill.specs.Room.{FillRoom, IsWidths};

use grid::CELLS;
use sheet::{DIMS, Refusal};
use words::Place;

fn names_every_dim(block: &[i64], r: Place) -> bool
    requires { Block block.now × RulePlace block.now r }
    ensures { result ≡ all_below (dims block.now) (names_dim block.now r.number) }
{
    (0..words::dims_of(block)).all(|d| words::names_dim(block, r, d))
}

fn is_fill_rule(block: &[i64], r: Place) -> bool
    requires { Block block.now × RulePlace block.now r }
    ensures { result ≡ is_fill_rule block.now r.number }
{
    words::is_containment(block, r) && names_every_dim(block, r)
}

// The rule asked about, by its position from 1: check 13.
pub(crate) fn rule_asked(block: &[i64], rule: i64) -> Result<Place, Refusal>
    requires { Block block.now }
    ensures { MatchResult result
        (λ r. FillRoom block.now r × (r.number ≡ rule_asked rule) × (no_fill_rule block.now rule ≡ false))
        (λ g. (g ≡ NoFillRule) × (no_fill_rule block.now rule ≡ true)) }
{
    if !words::is_within(rule, 1, words::rules_of(block) as i64) {
        return Err(Refusal::NoFillRule);
    }
    let r = words::rule_place(block, rule as usize - 1);
    if !is_fill_rule(block, r) {
        return Err(Refusal::NoFillRule);
    }
    Ok(r)
}

// How many cells wide the room is in dimension d.
fn width_of(block: &[i64], r: Place, d: usize) -> usize
    requires { FillRoom block.now r × (d < dims block.now) }
    ensures { result ≡ room_width block.now r.number d }
{
    (words::room_high(block, r, d) - words::room_low(block, r, d)) as usize
}

// The cells of the room: check 14. Once there are none or too many, more dimensions make no difference: there are too many or none.
pub(crate) fn cells_of(block: &[i64], r: Place) -> Result<usize, Refusal>
    requires { FillRoom block.now r }
    ensures { result ≡ answer (14 when bad_cells block.now r.number) (room_cells block.now r.number) }
{
    let mut n = 1;
    for d in 0..words::dims_of(block) {
        n *= width_of(block, r, d);
        if n == 0 || n > CELLS {
            return Err(Refusal::BadCells);
        }
    }
    Ok(n)
}

// How many cells wide the room is in each dimension.
pub(crate) fn widths_of(block: &[i64], r: Place) -> [usize; DIMS]
    requires { FillRoom block.now r }
    ensures { IsWidths block.now r.number result }
{
    let mut widths = [0usize; DIMS];
    for d in 0..words::dims_of(block) {
        widths[d] = width_of(block, r, d);
    }
    widths
}
