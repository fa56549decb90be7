// Document 000's sweep, Algorithms 10 (NewPruneMin) and 12 (AdjustUp): a candidate point and a jump point that move
// together through the points of a range, the dimension being pruned first and the others in rotation.
// specs/Theorem.antt says what it finds; points and the mirror that serves the greatest coordinate come first.
#![tactic(auto)]

ghost use Rattle.std.specs.Prelude.{◌≡◌};
ghost use Rattle.sweep.specs.Point.{Near, nexts, mirror, turned, turned_end};
ghost use Rattle.sweep.specs.Rotation.{rotation};
ghost use Rattle.sweep.specs.Moves.{begun, jumped_past, advance};

use points::COORDINATES;

// The negative of each word.
fn mirrored(p: [i64; COORDINATES]) -> [i64; COORDINATES]
    requires { Near p }
    ensures { result ≡ mirror p }
{
    p.map(|z| -z)
}

// A point, or its mirror image: the greatest coordinate is the least of the mirrored points.
#[tactic(auto, unfolding(crate::specs::Point::turned))]
pub fn turned_point(p: [i64; COORDINATES], flip: bool) -> [i64; COORDINATES]
    requires { Near p }
    ensures { result ≡ turned flip p }
{
    if flip { mirrored(p) } else { p }
}

// The high end of the turned box from low to high; with low and high exchanged, its low end.
#[tactic(auto, unfolding(crate::specs::Point::turned_end))]
pub fn turned_end(
    low: [i64; COORDINATES],
    high: [i64; COORDINATES],
    flip: bool,
) -> [i64; COORDINATES]
    requires { Near low }
    ensures { result ≡ turned_end flip low high }
{
    if flip { mirrored(low) } else { high }
}

// At k − 1, d and j the dimension at position j of the sweep of dimension d, of k dimensions: j + d, or k less where that is not below k, which
// for d and j below k is (j + d) mod k. The entries are bytes, and no number stands many times in a row, since the table is written anew at
// each call: so it takes four stores.
const ROTATIONS: [[[u8; COORDINATES]; COORDINATES]; COORDINATES] = [
    [[0, 0, 1, 2], [0, 1, 2, 3], [1, 2, 3, 4], [2, 3, 4, 5]],
    [[0, 1, 0, 1], [1, 0, 1, 2], [0, 1, 2, 3], [1, 2, 3, 4]],
    [[0, 1, 2, 0], [1, 2, 0, 1], [2, 0, 1, 2], [0, 1, 2, 3]],
    [[0, 1, 2, 3], [1, 2, 3, 0], [2, 3, 0, 1], [3, 0, 1, 2]],
];

// The dimension at position j of the sweep of dimension d, of k dimensions.
pub fn rotated(k: usize, d: usize, j: usize) -> usize
    ensures { result ≡ rotation k d j }
{
    let table = ROTATIONS;
    if k <= COORDINATES && d < k && j < k {
        table[k - 1][d][j] as usize
    } else {
        0
    }
}

// A candidate point and a jump point; live is false once no candidate is left. The sweep is a struct by value by document 01, and the theorem
// (specs/Theorem) speaks of its `live`.
#[derive(Clone, Copy)]
pub struct Sweep {
    pub candidate: [i64; COORDINATES],
    pub jump: [i64; COORDINATES],
    pub live: bool,
}

impl Sweep {
    // The sweep of the points from low to high, both included.
    pub fn new(low: [i64; COORDINATES], high: [i64; COORDINATES]) -> Self
        requires { Near high }
        ensures { result ≡ begun low high }
    {
        Sweep {
            candidate: low,
            jump: high.map(|z| z + 1),
            live: true,
        }
    }

    // The jump point no further than one past the last point of a forbidden region.
    pub fn jumped(mut self, last: [i64; COORDINATES]) -> Self
        requires { Near last }
        ensures { result ≡ jumped_past self last }
    {
        for e in 0..COORDINATES {
            self.jump[e] = self.jump[e].min(last[e] + 1);
        }
        self
    }

    // The next candidate, from the last position of the rotation down: the jump point's word where it lies in the range, else the
    // position starts again. Once no position is left the sweep is live no more.
    #[tactic(auto, using(crate::proofs::Rotations::rotation_below))]
    pub fn advanced(
        mut self,
        k: usize,
        d: usize,
        low: [i64; COORDINATES],
        high: [i64; COORDINATES],
    ) -> Self
        requires { Near high }
        ensures { result ≡ advance (rotation k d) low high k self }
    {
        for j in (0..k).rev() {
            let i = rotated(k, d, j);
            let up = self.jump[i];
            let end = high[i];
            self.jump[i] = end + 1;
            if up <= end {
                self.candidate[i] = up;
                return self;
            }
            self.candidate[i] = low[i];
        }
        self.live = false;
        self
    }
}
