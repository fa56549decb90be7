// The rotation of the sweep's dimensions, by the remainder: for every k, d and j from 0 to 5.
use super::tally::Tally;

// How many values each of the three has.
const VALUES: usize = 6;

// The most dimensions of a sweep.
const MOST: usize = 4;

// What document 01 has, for d and j below k, and 0 elsewhere.
fn expected(k: usize, d: usize, j: usize) -> usize {
    if k > MOST || d >= k || j >= k {
        return 0;
    }
    (j + d) % k
}

pub(crate) fn all() -> Tally {
    let mut t = Tally::default();
    for k in 0..VALUES {
        for d in 0..VALUES {
            for j in 0..VALUES {
                t.count_case(sweep::rotated(k, d, j) == expected(k, d, j));
            }
        }
    }
    t
}
