// Reading the words of a sheet: one small reader for each kind of word. Where a word stands is known besides to acceptance (k, B and R,
// before there is a head to lean on), to the writing of a narrowed row, and to the reader and the writer of a text.
// A record's place is found once and handed on, and with it the lengths that checks 2 to 5 leave (`Head`, `Rows`); a reader leans on the
// range of a word only where it is cast.
#![tactic(auto)]

ghost use Rattle.std.specs.Prelude.{◌≡◌, true, ◌+◌, ◌^◌, ◌<◌, length, pos};
ghost use Rattle.integers.specs.Integer.{nat, eq_z, within};
ghost use Rattle.integers.specs.Below.{any_up_to, UpTo};
ghost use Rattle.integers.specs.Bits.{bit};
ghost use Rattle.integers.specs.Words.{word};
ghost use Rattle.sheet.specs.Layout.{dims, axes, boxes, rules, shape_of, offset, size};
ghost use Rattle.sheet.specs.Layout.{kind, is_non_overlap, is_containment, dim_set, row_set, names_dim, names_row, room_low, room_high, clearance};
ghost use Rattle.sheet.specs.Layout.{row_len, rows, shape_set, has_shape, has_only, low, high};
ghost use Rattle.sheet.specs.Accepted.{Count, Head, Rows, Table};
ghost use Rattle.words.specs.Places.{BoxPlace, RulePlace, RowPlace};
ghost use Rattle.words.specs.Shapes.{LowestShape};

// A record's number, and where its first word stands.
#[derive(Clone, Copy)]
pub struct Place {
    pub number: usize,
    pub at: usize,
}

// ---- words of any run

pub fn is_within(w: i64, lo: i64, hi: i64) -> bool
    ensures { result ≡ within lo hi w }
{
    lo <= w && w <= hi
}

fn word_at(words: &[i64], at: usize) -> i64
    requires { at < length words.now }
    ensures { result ≡ word words.now at }
{
    words[at]
}

pub fn word_in(words: &[i64], at: usize, lo: i64, hi: i64) -> bool
    requires { at < length words.now }
    ensures { result ≡ within lo hi (word words.now at) }
{
    is_within(words[at], lo, hi)
}

// A word that is a count, an index or a set.
pub fn count_at(words: &[i64], at: usize) -> usize
    requires { (at < length words.now) × Count (word words.now at) }
    ensures { result ≡ nat (word words.now at) }
{
    words[at] as usize
}

fn word_is(words: &[i64], at: usize, n: usize) -> bool
    requires { (at < length words.now) × Count (word words.now at) }
    ensures { result ≡ eq_z (word words.now at) (pos n) }
{
    count_at(words, at) == n
}

// Bit d of a set.
pub fn bit_at(words: &[i64], at: usize, d: usize) -> bool
    requires { (at < length words.now) × Count (word words.now at) × (d < 32) }
    ensures { result ≡ bit (word words.now at) d }
{
    (count_at(words, at) >> d) % 2 == 1
}

pub fn set_at(words: &[i64], at: usize) -> u32
    requires { (at < length words.now) × Count (word words.now at) }
    ensures { result ≡ nat (word words.now at) }
{
    words[at] as u32
}

// ---- sets of numbers from 0 on

// Whether the set holds q.
pub fn has_member(set: u32, q: usize) -> bool
    requires { q < 32 }
    ensures { result ≡ bit (pos set) q }
{
    (set >> q) % 2 == 1
}

// One member more in a set whose members are all lesser.
pub fn with_member(set: u32, q: usize) -> u32
    requires { (q < 32) × (set < 2 ^ q) }
    ensures { result ≡ set + 2 ^ q }
{
    set + (1 << q)
}

// Whether every member of the set is below s.
pub fn is_below(set: u32, s: usize) -> bool
    requires { s < 32 }
    ensures { (result ≡ true → set < 2 ^ s) × (set < 2 ^ s → result ≡ true) }
{
    set >> s == 0
}

// ---- the block

pub fn dims_of(block: &[i64]) -> usize
    requires { Head block.now }
    ensures { result ≡ dims block.now }
{
    count_at(block, 0)
}

// How many ranges a row has, and coordinates a point.
pub fn axes_of(block: &[i64]) -> usize
    requires { Head block.now }
    ensures { result ≡ axes block.now }
{
    dims_of(block)
}

pub fn boxes_of(block: &[i64]) -> usize
    requires { Head block.now }
    ensures { result ≡ boxes block.now }
{
    count_at(block, 1)
}

pub fn rules_of(block: &[i64]) -> usize
    requires { Head block.now }
    ensures { result ≡ rules block.now }
{
    count_at(block, 2)
}

pub fn box_place(block: &[i64], b: usize) -> Place
    requires { Head block.now × (b < boxes block.now) }
    ensures { BoxPlace block.now result × (result.number ≡ b) }
{
    Place {
        number: b,
        at: 3 + b * (1 + 2 * dims_of(block)),
    }
}

pub fn rule_place(block: &[i64], r: usize) -> Place
    requires { Head block.now × (r < rules block.now) }
    ensures { RulePlace block.now result × (result.number ≡ r) }
{
    let k = dims_of(block);
    let n = boxes_of(block);
    Place {
        number: r,
        at: 3 + n * (1 + 2 * k) + r * (3 + 2 * k),
    }
}

// ---- a box

pub fn shape_of(block: &[i64], b: Place) -> i64
    requires { BoxPlace block.now b }
    ensures { result ≡ shape_of block.now b.number }
{
    word_at(block, b.at)
}

// A box's shape, as a number.
pub fn shape_number(block: &[i64], b: Place) -> usize
    requires { BoxPlace block.now b × Count (shape_of block.now b.number) }
    ensures { result ≡ nat (shape_of block.now b.number) }
{
    count_at(block, b.at)
}

pub fn offset_of(block: &[i64], b: Place, d: usize) -> i64
    requires { BoxPlace block.now b × (d < dims block.now) }
    ensures { result ≡ offset block.now b.number d }
{
    word_at(block, b.at + 1 + d)
}

pub fn size_of(block: &[i64], b: Place, d: usize) -> i64
    requires { BoxPlace block.now b × (d < dims block.now) }
    ensures { result ≡ size block.now b.number d }
{
    word_at(block, b.at + 1 + dims_of(block) + d)
}

// ---- a rule

pub fn kind_of(block: &[i64], r: Place) -> i64
    requires { RulePlace block.now r }
    ensures { result ≡ kind block.now r.number }
{
    word_at(block, r.at)
}

pub fn dim_set_of(block: &[i64], r: Place) -> i64
    requires { RulePlace block.now r }
    ensures { result ≡ dim_set block.now r.number }
{
    word_at(block, r.at + 1)
}

pub fn row_set_of(block: &[i64], r: Place) -> i64
    requires { RulePlace block.now r }
    ensures { result ≡ row_set block.now r.number }
{
    word_at(block, r.at + 2)
}

pub fn is_non_overlap(block: &[i64], r: Place) -> bool
    requires { RulePlace block.now r × Count (kind block.now r.number) }
    ensures { result ≡ is_non_overlap block.now r.number }
{
    word_is(block, r.at, 1)
}

pub fn is_containment(block: &[i64], r: Place) -> bool
    requires { RulePlace block.now r × Count (kind block.now r.number) }
    ensures { result ≡ is_containment block.now r.number }
{
    word_is(block, r.at, 2)
}

pub fn names_dim(block: &[i64], r: Place, d: usize) -> bool
    requires { RulePlace block.now r × Count (dim_set block.now r.number)
        × (d < dims block.now) }
    ensures { result ≡ names_dim block.now r.number d }
{
    bit_at(block, r.at + 1, d)
}

pub fn names_row(block: &[i64], r: Place, i: usize) -> bool
    requires { RulePlace block.now r × Count (row_set block.now r.number) × UpTo 32 i }
    ensures { result ≡ names_row block.now r.number i }
{
    bit_at(block, r.at + 2, i - 1)
}

pub fn room_low(block: &[i64], r: Place, d: usize) -> i64
    requires { RulePlace block.now r × (d < dims block.now) }
    ensures { result ≡ room_low block.now r.number d }
{
    word_at(block, r.at + 3 + 2 * d)
}

pub fn room_high(block: &[i64], r: Place, d: usize) -> i64
    requires { RulePlace block.now r × (d < dims block.now) }
    ensures { result ≡ room_high block.now r.number d }
{
    word_at(block, r.at + 4 + 2 * d)
}

pub fn clearance_of(block: &[i64], r: Place, d: usize) -> i64
    requires { RulePlace block.now r × (d < dims block.now) }
    ensures { result ≡ clearance block.now r.number d }
{
    room_low(block, r, d)
}

// ---- the table

pub fn row_len(block: &[i64]) -> usize
    requires { Head block.now }
    ensures { result ≡ row_len block.now }
{
    1 + 2 * axes_of(block)
}

pub fn rows_of(block: &[i64], table: &[i64]) -> usize
    requires { Head block.now }
    ensures { result ≡ rows block.now table.now }
{
    table.len() / row_len(block)
}

pub fn row_place(block: &[i64], table: &[i64], i: usize) -> Place
    requires { Head block.now × Rows block.now table.now × UpTo (rows block.now table.now) i }
    ensures { RowPlace block.now table.now result × (result.number ≡ i) }
{
    Place {
        number: i,
        at: (i - 1) * row_len(block),
    }
}

// A row's shapes, as the word, as a set, and one by one.
pub fn shape_set_of(block: &[i64], table: &[i64], i: Place) -> i64
    requires { RowPlace block.now table.now i }
    ensures { result ≡ shape_set block.now table.now i.number }
{
    word_at(table, i.at)
}

pub fn shapes_of(block: &[i64], table: &[i64], i: Place) -> u32
    requires { RowPlace block.now table.now i
        × Count (shape_set block.now table.now i.number) }
    ensures { result ≡ nat (shape_set block.now table.now i.number) }
{
    set_at(table, i.at)
}

pub fn has_shape(block: &[i64], table: &[i64], i: Place, s: usize) -> bool
    requires { RowPlace block.now table.now i
        × Count (shape_set block.now table.now i.number) × UpTo 32 s }
    ensures { result ≡ has_shape block.now table.now i.number s }
{
    bit_at(table, i.at, s - 1)
}

// Whether a row's set holds one shape.
pub fn has_one_shape(block: &[i64], table: &[i64], i: Place) -> bool
    requires { RowPlace block.now table.now i
        × Count (shape_set block.now table.now i.number) }
    ensures { result ≡ any_up_to 32 (has_only block.now table.now i.number) }
{
    u32::count_ones(shapes_of(block, table, i)) == 1
}

pub fn lowest_shape(block: &[i64], table: &[i64], i: Place) -> usize
    requires { Table block.now table.now × RowPlace block.now table.now i }
    ensures { LowestShape block.now table.now i.number result }
{
    u32::trailing_zeros(shapes_of(block, table, i)) as usize + 1
}

pub fn low_of(block: &[i64], table: &[i64], i: Place, d: usize) -> i64
    requires { RowPlace block.now table.now i
        × (d < axes block.now) }
    ensures { result ≡ low block.now table.now i.number d }
{
    word_at(table, i.at + 1 + 2 * d)
}

pub fn high_of(block: &[i64], table: &[i64], i: Place, d: usize) -> i64
    requires { RowPlace block.now table.now i
        × (d < axes block.now) }
    ensures { result ≡ high block.now table.now i.number d }
{
    word_at(table, i.at + 2 + 2 * d)
}
