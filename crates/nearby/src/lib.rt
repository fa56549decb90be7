// What can forbid a row with a shape. Suspects, each another row and a rule with an area that holds all they can forbid, are listed once,
// before the sweeps of that row and shape. Known areas, in which every point is forbidden, are remembered by the sweeps.
#![tactic(auto)]

pub mod due;
pub mod gather;
pub mod known;
pub mod suspect;

ghost use Rattle.std.specs.Prelude.{◌≡◌};
ghost use Rattle.sheet.specs.Layout.{axes};
ghost use Rattle.sheet.specs.Allowed.{forbidden};
ghost use Rattle.forbid.specs.Region.{IsRegion};
ghost use Rattle.nearby.specs.Known.{Counted};
ghost use Rattle.nearby.specs.Listing.{Listed, lists_nothing, Sought};

use crate::known::KNOWN;
use outline::OUTLINE;
use points::{Area, COORDINATES};
use words::Place;

// A list: the row and the shape for which it is made, and how many suspects it holds. These and the known areas hold every point of the row's
// ranges that is forbidden; there is no count where the list is not whole.
#[derive(Clone, Copy)]
pub struct Nearby {
    pub i: Place,
    pub s: usize,
    pub count: Option<usize>,
}

// Whether the list has nothing: then no point of the row's ranges is forbidden.
pub fn lists_nothing(known: &[i64; KNOWN], nearby: Nearby) -> bool
    requires { Counted known.now }
    ensures { result ≡ lists_nothing nearby known.now }
{
    (nearby.count == Some(0)) & known::is_none(known)
}

// Whether p, a point of the row's ranges, is forbidden, and where it is, an area around p in which every point is: a known one, or the one
// that a suspect gives, which is known from then on.
pub fn region_at(
    block: &[i64],
    table: &[i64],
    outline: &[i64; OUTLINE],
    suspects: &[i64],
    known: &mut [i64; KNOWN],
    nearby: Nearby,
    p: [i64; COORDINATES],
) -> Option<Area>
    requires { Sought block.now table.now outline.now nearby suspects.now known.old p }
    ensures { IsRegion (axes block.now)
        (forbidden block.now table.now nearby.i.number nearby.s) p result
        × Listed block.now table.now nearby suspects.now known.new }
{
    if let Some(area) = known::known_region(block, known, p) {
        return Some(area);
    }
    let area = suspect::suspected_region(block, table, outline, suspects, nearby, p)?;
    known::remember(known, area);
    Some(area)
}
