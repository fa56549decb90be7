// Checks 2 to 4, 6 and 7: the block. Each function leans on the checks before it, as document 01 orders them.
ghost use Rattle.std.specs.Prelude.{◌≡◌, false, ◌&&◌, ◌<◌, ◌≤◌};
ghost use Rattle.integers.specs.Below.{all_below};
ghost use Rattle.sheet.specs.Layout.{dims, is_containment, names_dim, valid_box, valid_clearance, valid_ends, valid_rule};
ghost use Rattle.sheet.specs.Refusal.{bad_head, bad_counts, bad_block_length, bad_box, bad_rule};
ghost use Rattle.sheet.specs.Accepted.{Head, Rows};
ghost use Rattle.words.specs.Places.{BoxPlace, RulePlace};
ghost use Rattle.accept.specs.Parts.{valid_extent, SetRule};

use super::range;
use words::Place;

// ---- 2 to 4: k, B, R and the length

pub(crate) fn bad_head(block: &[i64]) -> bool
    ensures { result ≡ bad_head block.now }
{
    block.len() < 3 || !words::word_in(block, 0, 1, 4)
}

pub(crate) fn bad_counts(block: &[i64]) -> bool
    requires { bad_head block.now ≡ false }
    ensures { result ≡ bad_counts block.now }
{
    !words::word_in(block, 1, 1, 128) || !words::word_in(block, 2, 0, 32)
}

pub(crate) fn bad_block_length(block: &[i64]) -> bool
    requires { (bad_head block.now ≡ false) × (bad_counts block.now ≡ false) }
    ensures { result ≡ bad_block_length block.now }
{
    let k = words::count_at(block, 0);
    let n = words::count_at(block, 1);
    let m = words::count_at(block, 2);
    block.len() != 3 + n * (1 + 2 * k) + m * (3 + 2 * k)
}

// ---- 6: the boxes

pub(crate) fn bad_box(block: &[i64]) -> bool
    requires { Head block.now }
    ensures { result ≡ bad_box block.now }
{
    !(0..words::boxes_of(block)).all(|b| valid_box(block, words::box_place(block, b)))
}

fn valid_box(block: &[i64], b: Place) -> bool
    requires { BoxPlace block.now b }
    ensures { result ≡ valid_box block.now b.number }
{
    words::is_within(words::shape_of(block, b), 1, 32) && valid_extents(block, b)
}

// A chain here, inside that of `bad_box`, takes a third more instructions of the whole check of a full sheet.
fn valid_extents(block: &[i64], b: Place) -> bool
    requires { BoxPlace block.now b }
    ensures { result ≡ all_below (dims block.now) (valid_extent block.now b.number) }
{
    for d in 0..words::dims_of(block) {
        if !valid_extent(block, b, d) {
            return false;
        }
    }
    true
}

fn valid_extent(block: &[i64], b: Place, d: usize) -> bool
    requires { BoxPlace block.now b × (d < dims block.now) }
    ensures { result ≡ valid_extent block.now b.number d }
{
    words::is_within(words::offset_of(block, b, d), -10000, 10000)
        && words::is_within(words::size_of(block, b, d), 1, 10000)
}

// ---- 7: the rules

pub(crate) fn bad_rule(block: &[i64], table: &[i64]) -> bool
    requires { Head block.now × Rows block.now table.now }
    ensures { result ≡ bad_rule block.now table.now }
{
    let n = words::rows_of(block, table);
    !(0..words::rules_of(block)).all(|r| valid_rule(block, words::rule_place(block, r), n))
}

// Whether rule r is valid in a sheet of n rows.
fn valid_rule(block: &[i64], r: Place, n: usize) -> bool
    requires { RulePlace block.now r × (n ≤ 32) }
    ensures { result ≡ valid_rule block.now n r.number }
{
    if !words::is_within(words::kind_of(block, r), 1, 2) {
        return false;
    }
    if !range::valid_set(words::dim_set_of(block, r), words::dims_of(block)) {
        return false;
    }
    if !range::valid_set(words::row_set_of(block, r), n) {
        return false;
    }
    valid_rooms(block, r)
}

fn valid_rooms(block: &[i64], r: Place) -> bool
    requires { SetRule block.now r }
    ensures { result ≡ all_below (dims block.now) (valid_ends block.now r.number) }
{
    (0..words::dims_of(block)).all(|d| valid_ends(block, r, d))
}

// Whether rule r has a room in dimension d.
fn has_room(block: &[i64], r: Place, d: usize) -> bool
    requires { SetRule block.now r × (d < dims block.now) }
    ensures { result ≡ (is_containment block.now r.number && names_dim block.now r.number d) }
{
    words::is_containment(block, r) && words::names_dim(block, r, d)
}

fn valid_ends(block: &[i64], r: Place, d: usize) -> bool
    requires { SetRule block.now r × (d < dims block.now) }
    ensures { result ≡ valid_ends block.now r.number d }
{
    if has_room(block, r, d) {
        return range::valid_range(words::room_low(block, r, d), words::room_high(block, r, d));
    }
    if words::names_dim(block, r, d) {
        return valid_clearance(block, r, d);
    }
    words::room_low(block, r, d) == 0 && words::room_high(block, r, d) == 0
}

fn valid_clearance(block: &[i64], r: Place, d: usize) -> bool
    requires { RulePlace block.now r × (d < dims block.now) }
    ensures { result ≡ valid_clearance block.now r.number d }
{
    words::is_within(words::clearance_of(block, r, d), 0, 1000)
        && words::room_high(block, r, d) == 0
}
