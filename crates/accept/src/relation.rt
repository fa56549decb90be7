// The checks of a call that asks how two rows of a placement stand to each other in a dimension (document 02, T-01).
ghost use Rattle.std.specs.Prelude.{◌≡◌};
ghost use Rattle.sheet.specs.Refusal.{no_box_dim, refusal_relation};
ghost use Rattle.sheet.specs.Answer.{answer};
ghost use Rattle.sheet.specs.Accepted.{Head};

use super::{check_row, no_such_row, range, table};
use sheet::Refusal;

// The dimension is to be one of the boxes', whatever other ranges a row has.
fn no_box_dim(block: &[i64], dim: i64) -> bool
    requires { Head block.now }
    ensures { result ≡ no_box_dim block.now dim }
{
    !range::is_index(dim, words::dims_of(block))
}

pub fn check(block: &[i64], table: &[i64], row: i64, other: i64, dim: i64) -> Result<(), Refusal>
    ensures { result ≡ answer (refusal_relation block.now table.now row other dim) tt }
{
    check_row(block, table, row)?;
    if no_such_row(block, table, other) {
        return Err(Refusal::NoSuchRow);
    }
    if no_box_dim(block, dim) {
        return Err(Refusal::NoSuchDim);
    }
    if table::not_fixed(block, table) {
        return Err(Refusal::NotFixed);
    }
    Ok(())
}
