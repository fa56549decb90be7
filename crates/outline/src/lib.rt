// What is read off the block once a call, and then lent for reading only: the boxes of each shape, where every box and the hull of every
// shape starts and ends, and the rules that count. It is one run of words (specs/Outline).
#![tactic(auto)]

pub mod chain;
mod clearance;
pub mod rules;
pub mod solid;

ghost use Rattle.std.specs.Prelude.{◌≡◌, ◌<◌, ◌≤◌, pos, set};
ghost use Rattle.sheet.specs.Accepted.{Block};
ghost use Rattle.outline.specs.Outline.{Outline};

use points::ends::AREA_WORDS;
use sheet::BOXES;

// ---- where the words stand: first the next box of each box's shape

// One more than the greatest shape number: there is no shape 0.
const SHAPES: usize = 33;

// The first box of shape s stands at FIRSTS + s.
const FIRSTS: usize = BOXES;

// The set of the rules that count.
const COUNTING: usize = FIRSTS + SHAPES;

// Solid x starts at the words from SOLIDS + SOLID * x on, one for each dimension, and ends at the words COORDINATES further on.
const SOLIDS: usize = COUNTING + 1;

const SOLID: usize = AREA_WORDS;

// The words of an outline: the solids are the boxes, and after them the hulls of the shapes.
pub const OUTLINE: usize = SOLIDS + SOLID * (BOXES + SHAPES);

// Writes a count, an index or a set.
fn put(outline: &mut [i64; OUTLINE], at: usize, n: usize)
    requires { (at < OUTLINE) × (n ≤ 4294967295) }
    ensures { outline.new ≡ set outline.old at (pos n) }
{
    outline[at] = n as i64;
}

// Makes the outline of a block; its words may have been any.
pub fn draw(block: &[i64], outline: &mut [i64; OUTLINE])
    requires { Block block.now }
    ensures { Outline block.now outline.new }
{
    chain::link_boxes(block, outline);
    rules::count_rules(block, outline);
    solid::put_boxes(block, outline);
    solid::put_hulls(block, outline);
}
