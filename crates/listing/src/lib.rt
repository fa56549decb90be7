// What the program prints (document 01, "The text program"), put into a lent buffer. A buffer that is too short takes what fits, and the
// result is the length needed.
#![tactic(auto)]

ghost use Rattle.std.specs.Prelude.{◌≡◌, [], ◌∷◌, ◌++◌, ◌+◌, ◌≤◌, min, pos, length, take};
ghost use Rattle.std.proofs.Math.Option.{some};
ghost use Rattle.stores.specs.Put.{Put};
ghost use Rattle.sheet.specs.Layout.{table_most, row_len};
ghost use Rattle.sheet.specs.Text.{ascii, shown, commas, row_lines, printed_for};
ghost use Rattle.listing.specs.Rows.{RowsAhead};

mod number; // number.rt: a number in decimal digits

use number::{put_natural, put_number};
use sheet::TABLE_WORDS;
use std::cmp::min;
use stores::{put, put_all};

// A comma and a word.
fn put_field(out: &mut [u8], at: usize, w: i64) -> usize
    requires { at ≤ 200000 }
    ensures { Put out.old at (44 ∷ shown w) result out.new }
{
    put(out, at, b',');
    put_number(out, at + 1, w)
}

// Each word behind a comma, and a line feed.
fn put_commas(out: &mut [u8], at: usize, words: &[i64]) -> usize
    requires { (at ≤ 100000) × (length words.now ≤ 1000) }
    ensures { Put out.old at (commas words.now) result out.new }
{
    let mut p = at;
    for w in words {
        p = put_field(out, p, *w);
    }
    put(out, p, b'\n');
    p + 1
}

// The line of row `m`: its number and its words.
fn put_row(out: &mut [u8], at: usize, m: usize, words: &[i64]) -> usize
    requires { (at ≤ 50000) × (length words.now ≤ 1000) }
    ensures { Put out.old at (shown (pos m) ++ commas words.now) result out.new }
{
    let p = put_natural(out, at, m as u64);
    put_commas(out, p, words)
}

// The lines of `n` rows of `len` words each.
fn put_rows(out: &mut [u8], at: usize, len: usize, n: usize, table: &[i64]) -> usize
    requires { RowsAhead at len n table.now }
    ensures { Put out.old at (row_lines len n 0 table.now) result out.new }
{
    let mut p = at;
    for (m, row) in (0..n).zip(table.chunks_exact(len)) {
        p = put_row(out, p, m + 1, row);
    }
    p
}

// A first line: a name, and a number behind a comma.
fn put_first(out: &mut [u8], name: &[u8], z: i64) -> usize
    requires { length name.now ≤ 100 }
    ensures { Put out.old 0 (name.now ++ commas (z ∷ [])) result out.new }
{
    let p = put_all(out, 0, name);
    put_commas(out, p, &[z])
}

// The length of a row, or one more than the words of the largest table where it is more, as it is for each k past 143.
fn row_len(block: &[i64]) -> usize
    ensures { result ≡ min (row_len block.now) (table_most + 1) }
{
    if block.len() == 0 {
        return 1;
    }
    let k = block[0];
    if k < 1 {
        return 1;
    }
    if k > 143 {
        return TABLE_WORDS + 1;
    }
    1 + 2 * k as usize
}

// Puts what is printed for a settled table that is no longer than the largest.
fn put_table(out: &mut [u8], block: &[i64], table: &[i64]) -> usize
    requires { length table.now ≤ table_most }
    ensures { Put out.old 0 (printed_for 0 block.now (some table.now)) result out.new }
{
    let len = row_len(block);
    let n = table.len() / len;
    let p = put_first(out, b"SETTLED", n as i64);
    put_rows(out, p, len, n, table)
}

// Puts what is printed for a settled table. Words past those of the largest table, which no accepted sheet has, are not looked at.
pub fn put_settled(out: &mut [u8], block: &[i64], table: &[i64]) -> usize
    ensures { Put out.old 0 (printed_for 0 block.now (some (take table_most table.now))) result
        out.new }
{
    let n = min(table.len(), TABLE_WORDS);
    put_table(out, block, &table[..n])
}

// Puts what is printed for a refusal.
pub fn put_refused(out: &mut [u8], refusal: i64) -> usize
    ensures { Put out.old 0 (ascii "REFUSED" ++ commas (refusal ∷ [])) result out.new }
{
    put_first(out, b"REFUSED", refusal)
}
