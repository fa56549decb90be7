// The form of a text (document 01, "The text program"): from bytes to the words of block and table, with no look at what they mean.
// A text may have more words than a sheet has room for: the lines past it are checked and counted all the same.
#![tactic(auto)]

ghost use Rattle.std.specs.Prelude.{◌≡◌};
ghost use Rattle.sheet.specs.Text.{records, read_text};
ghost use Rattle.line.specs.Parts.{parts_from};
ghost use Rattle.line.specs.Answers.{zeros};
ghost use Rattle.form.specs.Parsed.{filled, parsed_of, head_of, k_of, RecordsAhead};

use line::{TEXT_BYTES, find, lines_into, read_line};
use sheet::{BLOCK_WORDS, TABLE_WORDS};
use stores::{put, put_all};

// Block and table of a text that is in the form, as far as there is room, with zeros past the words; how many words it has for each, which
// may be more than there is room for: so each is an array with a count, and no slice. A vector would ask for memory, which the program never
// does (docs/DECISIONS.md, 36).
#[derive(Clone, Copy)]
pub struct Parsed {
    pub block: [i64; BLOCK_WORDS],
    pub block_len: usize,
    pub table: [i64; TABLE_WORDS],
    pub table_len: usize,
}

// As many zeros.
#[tactic(auto, unfolding(line::specs::Answers::zeros))]
pub fn zeros<const N: usize>() -> [i64; N]
    ensures { result ≡ zeros N }
{
    [0; N]
}

// What is handed back of a text whose first line has a k outside 1 to 4.
fn headed(k: i64) -> Parsed
    ensures { result ≡ filled (head_of k) }
{
    let mut b = zeros();
    put(&mut b, 0, k);
    Parsed {
        block: b,
        block_len: 1,
        table: zeros(),
        table_len: 0,
    }
}

// k, if it is from 1 to 4.
#[tactic(auto, unfolding(crate::specs::Parsed::k_of))]
fn k_of(w: i64) -> Option<usize>
    ensures { result ≡ k_of w }
{
    match w {
        1..=4 => Some(w as usize),
        _ => None,
    }
}

// The lines after the first: B, R and O lines in that order, and nothing else. k, B and R are put before the records.
fn read_records(s: &[u8], at: usize, k: usize) -> Option<Parsed>
    requires { RecordsAhead s.now at k }
    ensures { result ≡ parsed_of (records k (parts_from 10 s.now at)) }
{
    let mut b = zeros();
    let mut t = zeros();
    let bs = lines_into(s, at, b'B', 1 + 2 * k, &mut b, 3);
    let rs = lines_into(s, bs.next, b'R', 3 + 2 * k, &mut b, bs.end);
    let os = lines_into(s, rs.next, b'O', 1 + 2 * k, &mut t, 0);
    if os.next != s.len() {
        return None;
    }
    put_all(&mut b, 0, &[k as i64, bs.count as i64, rs.count as i64]);
    Some(Parsed {
        block: b,
        block_len: rs.end,
        table: t,
        table_len: os.end,
    })
}

// The words of a text, if it is not too long and in the form.
pub fn parse_text(text: &[u8]) -> Option<Parsed>
    ensures { result ≡ parsed_of (read_text text.now) }
{
    if text.len() > TEXT_BYTES {
        return None;
    }
    let e = find(text, 0, b'\n');
    if e == text.len() {
        return None;
    }
    let w = read_line(&text[..e], b'K', 1)?[0];
    let Some(k) = k_of(w) else {
        return Some(headed(w));
    };
    read_records(text, e + 1, k)
}
