// Whether the hulls of two shapes clash, as a plain answer: where they are clear of each other, so are all boxes.
ghost use Rattle.std.specs.Prelude.{◌≡◌, false, ℕ};
ghost use Rattle.sheet.specs.Allowed.{shapes_forbid};
ghost use Rattle.sheet.specs.Accepted.{Boxed};
ghost use Rattle.forbid.specs.Region.{Versus};

use crate::pair;
use crate::pair::Pair;
use outline::{OUTLINE, solid};
use points::COORDINATES;
use words::Place;

// Whether row j may forbid p with shape t to shape s of another row.
pub fn hulls_clash(
    block: &[i64],
    table: &[i64],
    outline: &[i64; OUTLINE],
    r: Place,
    s: usize,
    j: Place,
    t: usize,
    p: [i64; COORDINATES],
) -> bool
    requires { Versus block.now table.now outline.now r s j p × Boxed block.now t }
    ensures { (i : ℕ) → result ≡ false
        → shapes_forbid block.now table.now r.number p i s j.number t ≡ false }
{
    let own = solid::hull_of(s);
    let other = solid::hull_of(t);
    let hulls = Pair { r, own, j, other };
    pair::pair_forbids(block, table, outline, hulls, p)
}
