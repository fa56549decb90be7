// The forbidden interval of document 01, of any two extents: of two boxes, or of the hulls of two shapes. No other code computes an end of it.
ghost use Rattle.std.specs.Prelude.{◌≡◌};
ghost use Rattle.integers.specs.Integer.{Within};
ghost use Rattle.points.specs.Area.{reach};
ghost use Rattle.forbid.specs.Interval.{forbid_first, forbid_last, SumsFit};

use outline::solid::Extent;

// The numbers from a first to a last one; none where the first exceeds the last.
#[derive(Clone, Copy)]
pub(crate) struct Interval {
    pub from: i64,
    pub to: i64,
}

// The origins at which the own extent is not clear of the other one wherever the other's row stands from low to high: with the clearance it ends
// past the other's start where that row is highest, and starts before the other's end where it is lowest.
pub(crate) fn overlapping(
    own: Extent,
    other: Extent,
    low: i64,
    high: i64,
    clearance: i64,
) -> Interval
    requires { SumsFit own other low high clearance }
    ensures { (result.from ≡ forbid_first own other high clearance) × (result.to ≡ forbid_last own other low clearance)
        × Within reach result.from × Within reach result.to }
{
    let back_from_end = -own.end;
    let back_from_start = -own.start;
    Interval {
        from: high + other.start + back_from_end + 1 - clearance,
        to: low + other.end + back_from_start - 1 + clearance,
    }
}
