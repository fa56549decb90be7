// An area as a run of words, its ends: its low point, then its high point. Such a run is changed in place, word by word.
ghost use Rattle.std.specs.Prelude.{◌≡◌, ℕ, ◌+◌, ◌<◌, ◌≤◌, length};
ghost use Rattle.integers.specs.Integer.{within};
ghost use Rattle.integers.specs.Words.{word};
ghost use Rattle.points.specs.Area.{coordinates, area_words, in_area, CutTo, Cuts, area_at, area_of};
ghost use Rattle.points.specs.Ends.{end_at, EndsAre, SameBut, Taken};

use crate::{Area, COORDINATES, lies_between};

pub const AREA_WORDS: usize = COORDINATES + COORDINATES;

// ---- areas in a longer run

// The area whose words stand from `at` on. Two calls of `copy_from_slice` here, and in `put_area`, were slower: they go by the stack.
pub fn area_at(words: &[i64], at: usize) -> Area
    requires { at + area_words ≤ length words.now }
    ensures { result ≡ area_at words.now at }
{
    let mut low = [0; COORDINATES];
    let mut high = [0; COORDINATES];
    for d in 0..COORDINATES {
        low[d] = words[at + d];
        high[d] = words[at + COORDINATES + d];
    }
    Area { low, high }
}

// Whether the area whose words stand from `at` on holds p, in the first k dimensions.
pub fn area_holds(words: &[i64], at: usize, k: usize, p: [i64; COORDINATES]) -> bool
    requires { (at + area_words ≤ length words.now) × (k ≤ coordinates) }
    ensures { result ≡ in_area k (area_at words.now at) p }
{
    let half = at + COORDINATES;
    lies_between(&words[at..half], &words[half..at + AREA_WORDS], k, p)
}

// Puts an area's words from `at` on.
pub fn put_area(words: &mut [i64], at: usize, area: Area)
    requires { at + area_words ≤ length words.old }
    ensures { SameBut at area_words words.old words.new × (area_at words.new at ≡ area) }
{
    for d in 0..COORDINATES {
        words[at + d] = area.low[d];
        words[at + COORDINATES + d] = area.high[d];
    }
}

// ---- the ends of one area

// Ends of which each low one is the one number, and each high one the other.
pub fn ends_at(low: i64, high: i64) -> [i64; AREA_WORDS]
    ensures { EndsAre low high result }
{
    let mut ends = [low; AREA_WORDS];
    ends[COORDINATES..].fill(high);
    ends
}

// The end in dimension d: the low one, or where flip is set the high one.
pub fn end_of(ends: &[i64], d: usize, flip: bool) -> i64
    requires { (length ends.now ≡ area_words) × (d < coordinates) }
    ensures { result ≡ end_at flip d ends.now }
{
    if flip { ends[COORDINATES + d] } else { ends[d] }
}

// Cuts the area to low..=high in dimension d.
pub fn cut(ends: &mut [i64], d: usize, low: i64, high: i64)
    requires { CutTo d low high × (length ends.old ≡ area_words) }
    ensures { (k : ℕ) → d < k → Cuts k (area_of ends.old) (area_of ends.new) (λ p. within low high (word p d)) }
{
    ends[d] = ends[d].max(low);
    ends[COORDINATES + d] = ends[COORDINATES + d].min(high);
}

// Takes every end out to a point.
pub fn take_in(ends: &mut [i64], p: [i64; COORDINATES])
    requires { length ends.old ≡ area_words }
    ensures { Taken coordinates ends.old p ends.new }
{
    for d in 0..COORDINATES {
        ends[d] = ends[d].min(p[d]);
        ends[COORDINATES + d] = ends[COORDINATES + d].max(p[d]);
    }
}
