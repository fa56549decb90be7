// The rules that count: a non-overlap rule that forbids no more than another one does is left out.
ghost use Rattle.std.specs.Prelude.{◌≡◌, Bool, true, ℕ, ◌+◌, ◌^◌, ◌<◌, ◌≤◌, pos};
ghost use Rattle.std.specs.Int.Count.{ones};
ghost use Rattle.integers.specs.Integer.{nat};
ghost use Rattle.integers.specs.Bits.{bit_at, bit};
ghost use Rattle.integers.specs.Words.{word};
ghost use Rattle.sheet.specs.Layout.{rules, dim_set, row_set};
ghost use Rattle.sheet.specs.Accepted.{Count, Block};
ghost use Rattle.words.specs.Places.{RulePlace};
ghost use Rattle.outline.specs.Places.{rules_at, SameTo};
ghost use Rattle.outline.specs.Rules.{Covers, CoveredBy, CountedTo, Rules};

use crate::{COUNTING, OUTLINE, clearance, put};
use words::Place;

// Whether each member of the one set is one of the other.
fn is_part(a: u32, b: u32) -> bool
    ensures { result ≡ true → (d : ℕ) → bit_at a d ≡ 1 → bit_at b d ≡ 1 }
{
    a & b == a
}

// A word that is a set.
fn set_of(word: i64) -> u32
    requires { Count word }
    ensures { result ≡ nat word }
{
    word as u32
}

// Whether rule q is one of the set, names each of the rows and no dimension but those of `dims`, and has no less clearance than rule r.
fn covers(block: &[i64], set: u32, q: usize, r: Place, rows: u32, dims: u32) -> bool
    requires { Block block.now × (q < rules block.now) × RulePlace block.now r }
    ensures { result ≡ true → (bit (pos set) q ≡ true) × Covers block.now r.number rows dims q }
{
    let rule = words::rule_place(block, q);
    words::has_member(set, q)
        && is_part(rows, set_of(words::row_set_of(block, rule)))
        && is_part(set_of(words::dim_set_of(block, rule)), dims)
        && clearance::is_kept(block, rule, r)
}

// Whether some rule below n is such a rule.
fn is_covered(block: &[i64], set: u32, n: usize, r: Place, rows: u32, dims: u32) -> bool
    requires { Block block.now × (n ≤ rules block.now) × RulePlace block.now r }
    ensures { result ≡ true → CoveredBy block.now set r.number rows dims }
{
    (0..n).any(|q| covers(block, set, q, r, rows, dims))
}

// The set of the rules up to r that count, made from that of the rules below r.
fn with_rule(block: &[i64], set: u32, r: usize) -> u32
    requires { Block block.now × (r < rules block.now) × CountedTo block.now r set }
    ensures { CountedTo block.now (r + 1) result }
{
    let rule = words::rule_place(block, r);
    if !words::is_non_overlap(block, rule) {
        return set;
    }
    let rows = set_of(words::row_set_of(block, rule));
    let dims = set_of(words::dim_set_of(block, rule));
    if is_covered(block, set, r, rule, rows, dims) {
        return set;
    }
    words::with_member(set, r)
}

// The set of the rules that count, read off the block.
fn counted(block: &[i64]) -> u32
    requires { Block block.now }
    ensures { CountedTo block.now (rules block.now) result }
{
    let mut set = 0;
    for r in 0..words::rules_of(block) {
        set = with_rule(block, set, r);
    }
    set
}

// Puts the set of the rules that count into the outline.
pub(crate) fn count_rules(block: &[i64], outline: &mut [i64; OUTLINE])
    requires { Block block.now }
    ensures { SameTo rules_at outline.old outline.new × Rules block.now outline.new }
{
    let set = counted(block);
    put(outline, COUNTING, set as usize);
}

// Whether rule r counts.
pub fn rule_counts(outline: &[i64; OUTLINE], r: usize) -> bool
    requires { Count (word outline.now rules_at) × (r < 32) }
    ensures { result ≡ bit (word outline.now rules_at) r }
{
    words::bit_at(outline, COUNTING, r)
}

// The set of the rules that count, as the outline has it.
pub fn counting(outline: &[i64; OUTLINE]) -> u32
    requires { Count (word outline.now rules_at) }
    ensures { result ≡ nat (word outline.now rules_at) }
{
    words::set_at(outline, COUNTING)
}

// How many rules count.
pub fn how_many(outline: &[i64; OUTLINE]) -> usize
    requires { Count (word outline.now rules_at) }
    ensures { (result ≡ ones (nat (word outline.now rules_at))) × (result ≤ 32) }
{
    u32::count_ones(words::set_at(outline, COUNTING)) as usize
}
