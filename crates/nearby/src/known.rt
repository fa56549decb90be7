// Known areas: every point of them is forbidden to the row and shape at hand. They are lent as a run of words whose first one counts them, so that
// no caller carries the count (docs/DECISIONS.md 29).
ghost use Rattle.std.specs.Prelude.{◌<◌, ◌≤◌, ◌≡◌, eqb, pos, length, set};
ghost use Rattle.sheet.specs.Accepted.{Head};
ghost use Rattle.nearby.specs.Places.{known_count, known_most};
ghost use Rattle.nearby.specs.Known.{Counted, Remembered, KnownRegion};

use points::ends::AREA_WORDS;
use points::{Area, COORDINATES, ends};

// The most areas; where their count and the first of them stand, and the words of the run.
const AREAS: usize = 64;

const COUNT: usize = 0;

const FIRST: usize = 1;

pub const KNOWN: usize = FIRST + AREA_WORDS * AREAS;

// Writes how many areas there are.
fn put_count(known: &mut [i64], n: usize)
    requires { (0 < length known.old) × (n ≤ known_most) }
    ensures { known.new ≡ set known.old 0 (pos n) }
{
    known[COUNT] = n as i64;
}

// No area is known; the words may have been any.
pub(crate) fn forget(known: &mut [i64; KNOWN])
    ensures { Counted known.new × (known_count known.new ≡ 0) }
{
    put_count(known, 0);
}

// Whether no area is known.
pub(crate) fn is_none(known: &[i64; KNOWN]) -> bool
    requires { Counted known.now }
    ensures { result ≡ eqb (known_count known.now) 0 }
{
    words::count_at(known, COUNT) == 0
}

// A known area that holds p, if there is one: the last one met is the likeliest.
pub(crate) fn known_region(
    block: &[i64],
    known: &[i64; KNOWN],
    p: [i64; COORDINATES],
) -> Option<Area>
    requires { Head block.now × Counted known.now }
    ensures { KnownRegion block.now known.now p result }
{
    let k = words::axes_of(block);
    for e in (0..words::count_at(known, COUNT)).rev() {
        let at = FIRST + AREA_WORDS * e;
        if ends::area_holds(known, at, k, p) {
            return Some(ends::area_at(known, at));
        }
    }
    None
}

// Puts one area more, if there is room. Whether there was.
pub(crate) fn remember(known: &mut [i64; KNOWN], area: Area) -> bool
    requires { Counted known.old }
    ensures { Remembered known.old area result known.new }
{
    let n = words::count_at(known, COUNT);
    if n >= AREAS {
        return false;
    }
    ends::put_area(known, FIRST + AREA_WORDS * n, area);
    put_count(known, n + 1);
    true
}
