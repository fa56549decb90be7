// The fill of a room (document 02, T-03): how many of its cells the rows of a rule cover in a good placement, and how many thousandths of it.
#![tactic(auto)]

ghost use Rattle.std.specs.Prelude.{◌≡◌, ◌≤◌};
ghost use Rattle.sheet.specs.Fill.{rule_asked, room_cells, covered_cells, permille};
ghost use Rattle.sheet.specs.Refusal.{refusal_fill};
ghost use Rattle.sheet.specs.Answer.{answer};
ghost use Rattle.grid.specs.Grid.{cells_most};

use outline::OUTLINE;
use sheet::{Refusal, Share};

mod cells; // cells.rt: the cells that are covered
mod room; // room.rt: checks 13 and 14

// c of n, in thousandths, rounded to the nearest whole number, a half going up.
fn permille(c: usize, n: usize) -> usize
    requires { (c ≤ cells_most) × (1 ≤ n) × (n ≤ cells_most) }
    ensures { result ≡ permille c n }
{
    (2000 * c + n) / (2 * n)
}

pub fn fill(block: &[i64], table: &[i64], rule: i64) -> Result<Share, Refusal>
    ensures { result ≡ answer (refusal_fill block.now table.now rule) (record {
      cells = covered_cells block.now table.now (rule_asked rule);
      permille = permille (covered_cells block.now table.now (rule_asked rule)) (room_cells block.now (rule_asked rule));
    }) }
{
    accept::check_placement(block, table)?;
    let r = room::rule_asked(block, rule)?;
    let n = room::cells_of(block, r)?;
    let mut outline = [0i64; OUTLINE];
    outline::draw(block, &mut outline);
    if !placement::all_good(block, table, &outline) {
        return Err(Refusal::NotGood);
    }
    let c = cells::covered_cells(block, table, &outline, r, n);
    Ok(Share {
        cells: c,
        permille: permille(c, n),
    })
}
