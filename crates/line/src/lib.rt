// The lines of a text: a letter and so many numbers, parted by commas and closed by line feeds. The next part is found by its
// separator and lent as a slice; a line's words are stored only when it is whole.
#![tactic(auto)]

ghost use Rattle.std.specs.Prelude.{◌≡◌, ◌+◌, length, drop};
ghost use Rattle.sheet.specs.Text.{line};
ghost use Rattle.line.specs.Parts.{until, parts_from, numbers_in};
ghost use Rattle.line.specs.Answers.{line_of, LinesAhead, LinesRead};

mod number; // number.rt: the number that a field spells

use number::read_number;
use sheet::RECORD_WORDS;
use std::cmp::max;
use stores::{put, put_all};

// The most bytes of a text (specs/Answers has it as `text_most`).
pub const TEXT_BYTES: usize = 65536;

// Lines that were read: how many, where the next one starts, and the place past their words. After a last line that is not closed,
// the next one starts one past the text's end.
#[derive(Clone, Copy)]
pub struct Passed {
    pub count: usize,
    pub next: usize,
    pub end: usize,
}

// Where the first byte `b` from `from` on stands; if there is none, the end, or `from` if that is past the end.
pub fn find(s: &[u8], from: usize, b: u8) -> usize
    ensures { result ≡ from + length (until b (drop from s.now)) }
{
    for i in from..s.len() {
        if s[i] == b {
            return i;
        }
    }
    max(from, s.len())
}

// The fields from `from` on: `n` numbers, no fewer and no more.
fn read_fields(s: &[u8], from: usize, n: usize) -> Option<[i64; RECORD_WORDS]>
    ensures { result ≡ line_of (numbers_in n (parts_from 44 s.now from)) }
{
    let mut w = [0; RECORD_WORDS];
    let mut p = from;
    for i in 0..n {
        if p > s.len() {
            return None;
        }
        let e = find(s, p, b',');
        let v = read_number(&s[p..e])?;
        put(&mut w, i, v);
        p = e + 1;
    }
    if p <= s.len() {
        return None;
    }
    Some(w)
}

// A line: the letter alone in the first field, and `n` numbers. Its words, and zeros past them, if it has the form.
pub fn read_line(s: &[u8], letter: u8, n: usize) -> Option<[i64; RECORD_WORDS]>
    ensures { result ≡ line_of (line letter n s.now) }
{
    if find(s, 0, b',') != 1 || s[0] != letter {
        return None;
    }
    read_fields(s, 2, n)
}

// The lines of one letter with `n` numbers each, from `at` on; their words are put into `out` from `to` on.
pub fn lines_into(s: &[u8], at: usize, letter: u8, n: usize, out: &mut [i64], to: usize) -> Passed
    requires { LinesAhead s.now at n to }
    ensures { LinesRead s.now at letter n out.old to result out.new }
{
    let mut c = 0;
    let mut p = at;
    let mut t = to;
    // Where a line ends says where the next one starts: no range counts them.
    while p <= s.len() {
        let e = find(s, p, b'\n');
        let Some(w) = read_line(&s[p..e], letter, n) else {
            break;
        };
        t = put_all(out, t, &w[..n]);
        c += 1;
        p = e + 1;
    }
    Passed {
        count: c,
        next: p,
        end: t,
    }
}
