// Points and areas: an array of coordinates by value, and the points from a low to a high one.
#![tactic(auto)]

pub mod ends; // ends.rt: an area as a run of words

ghost use Rattle.std.specs.Prelude.{◌≡◌, ℕ, ◌<◌, ◌≤◌, length};
ghost use Rattle.integers.specs.Integer.{within};
ghost use Rattle.integers.specs.Words.{word};
ghost use Rattle.points.specs.Area.{coordinates, area_by, in_area, Small, CutTo, Cuts, field_area};

// How many coordinates an array of a point holds.
pub const COORDINATES: usize = sheet::AXES;

// No bound of an area is farther from 0.
pub const REACH: i64 = 3000000;

// Whether p lies from low to high, in the first k dimensions. The range is a constant one: unrolled, it keeps p in registers.
fn lies_between(low: &[i64], high: &[i64], k: usize, p: [i64; COORDINATES]) -> bool
    requires { (k ≤ length low.now) × (k ≤ length high.now) × (k ≤ coordinates) }
    ensures { result ≡ in_area k (area_by low.now high.now) p }
{
    (0..COORDINATES).all(|d| d >= k || words::is_within(p[d], low[d], high[d]))
}

// The points from low to high, both included, in each dimension.
#[derive(Clone, Copy)]
pub struct Area {
    pub low: [i64; COORDINATES],
    pub high: [i64; COORDINATES],
}

impl Area {
    // Every point that an accepted sheet can speak of.
    pub fn field() -> Self
        ensures { result ≡ field_area }
    {
        Area {
            low: [-REACH; COORDINATES],
            high: [REACH; COORDINATES],
        }
    }

    // The area cut to low..=high in dimension d.
    pub fn within(mut self, d: usize, low: i64, high: i64) -> Self
        requires { CutTo d low high }
        ensures { (k : ℕ) → d < k → Cuts k self result (λ p. within low high (word p d)) }
    {
        self.low[d] = self.low[d].max(low);
        self.high[d] = self.high[d].min(high);
        self
    }

    // The points that another area holds too, in the first k dimensions.
    pub fn common(self, k: usize, other: Area) -> Self
        requires { (k ≤ coordinates) × Small other }
        ensures { Cuts k self result (in_area k other) }
    {
        let mut area = self;
        for d in 0..k {
            area = area.within(d, other.low[d], other.high[d]);
        }
        area
    }

    // Whether the area holds p, in the first k dimensions.
    pub fn holds(self, k: usize, p: [i64; COORDINATES]) -> bool
        requires { k ≤ coordinates }
        ensures { result ≡ in_area k self p }
    {
        lies_between(&self.low, &self.high, k, p)
    }
}
