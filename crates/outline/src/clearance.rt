// Clearances of two rules: whether one keeps boxes at least as far apart as the other does.
ghost use Rattle.std.specs.Prelude.{◌≡◌, true, ◌<◌};
ghost use Rattle.sheet.specs.Layout.{dims};
ghost use Rattle.outline.specs.Clearance.{RulePair, KeepsIn, Keeps};

use points::COORDINATES;
use words::Place;

// Whether rule q has no less clearance than rule r in dimension d, if it names d.
fn is_kept_in(block: &[i64], q: Place, r: Place, d: usize) -> bool
    requires { RulePair block.now q r × (d < dims block.now) }
    ensures { result ≡ true → KeepsIn block.now q.number r.number d }
{
    !words::names_dim(block, q, d)
        || words::clearance_of(block, r, d) <= words::clearance_of(block, q, d)
}

// Whether rule q has no less clearance than rule r in any dimension that it names. The range is a constant, so that the loop is unrolled.
pub(crate) fn is_kept(block: &[i64], q: Place, r: Place) -> bool
    requires { RulePair block.now q r }
    ensures { result ≡ true → Keeps block.now q.number r.number }
{
    let k = words::dims_of(block);
    (0..COORDINATES).all(|d| d >= k || is_kept_in(block, q, r, d))
}
