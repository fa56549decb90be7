// The boxes of each shape, as a chain from the first to the next, so that no search passes over all boxes.
ghost use Rattle.std.specs.Prelude.{◌≡◌, true, ℕ, ◌+◌, ◌<◌, ◌≤◌, pos, MatchOption};
ghost use Rattle.integers.specs.Integer.{nat};
ghost use Rattle.integers.specs.Words.{word};
ghost use Rattle.sheet.specs.Layout.{boxes};
ghost use Rattle.sheet.specs.Accepted.{Count, Head, Block};
ghost use Rattle.outline.specs.Places.{shapes_most, first_at};
ghost use Rattle.outline.specs.Chain.{Chained, ChainedFrom, Linked, FirstFrom, Sole};

use crate::{FIRSTS, OUTLINE, SHAPES, put};

// No shape has a box yet: the first box of each is n, the number of boxes.
fn unlink(outline: &mut [i64; OUTLINE], n: usize)
    requires { n ≤ 128 }
    ensures { (s : ℕ) → s < shapes_most → word outline.new (first_at s) ≡ pos n }
{
    for s in 0..SHAPES {
        put(outline, FIRSTS + s, n);
    }
}

// Puts box b before the boxes of its shape that are linked already, those after b.
fn link(block: &[i64], outline: &mut [i64; OUTLINE], b: usize)
    requires { Block block.now × (b < boxes block.now) × ChainedFrom block.now outline.old (b + 1) }
    ensures { ChainedFrom block.now outline.new b }
{
    let place = words::box_place(block, b);
    let s = words::shape_number(block, place);
    let first = words::count_at(outline, FIRSTS + s);
    put(outline, b, first);
    put(outline, FIRSTS + s, b);
}

// Links the boxes of each shape, from the last box to the first.
pub(crate) fn link_boxes(block: &[i64], outline: &mut [i64; OUTLINE])
    requires { Block block.now }
    ensures { Chained block.now outline.new }
{
    let n = words::boxes_of(block);
    unlink(outline, n);
    for b in (0..n).rev() {
        link(block, outline, b);
    }
}

// The box that a link names: none where it is the number of boxes. `first_of` does not ask for an accepted block, so `get` reads that number.
fn linked(block: &[i64], link: i64) -> Option<usize>
    requires { Count link }
    ensures { MatchOption result (boxes block.now ≤ nat link)
        (λ b. (b ≡ nat link) × (b < boxes block.now)) }
{
    let n = *block.get(1)?;
    (link < n).then_some(link as usize)
}

// The first box of shape s.
pub fn first_of(block: &[i64], outline: &[i64; OUTLINE], s: usize) -> Option<usize>
    requires { Chained block.now outline.now × (s < shapes_most) }
    ensures { FirstFrom block.now s 0 result }
{
    linked(block, outline[FIRSTS + s])
}

// The next box of shape s after box b, which is one.
pub fn after(block: &[i64], outline: &[i64; OUTLINE], b: usize, s: usize) -> Option<usize>
    requires { Linked block.now outline.now b s }
    ensures { FirstFrom block.now s (b + 1) result }
{
    linked(block, outline[b])
}

// Whether shape s has one box: no other follows the first.
pub fn is_single(block: &[i64], outline: &[i64; OUTLINE], s: usize) -> bool
    requires { Head block.now × Chained block.now outline.now × (s < shapes_most) }
    ensures { result ≡ true → Sole block.now s }
{
    first_of(block, outline, s).is_some_and(|b| after(block, outline, b, s).is_none())
}
