// Reading a text (document 01, "The text program"), which makes checks 1 to 8.
#![tactic(auto)]

ghost use Rattle.std.specs.Prelude.{◌≡◌};
ghost use Rattle.sheet.specs.Text.{reading};
ghost use Rattle.text.specs.Answers.{reading_of};

pub use line::TEXT_BYTES; // the most bytes of a text
use sheet::{BLOCK_WORDS, Refusal, TABLE_WORDS};

// Block and table of an accepted text, with the lengths in use and zeros past them. They are arrays with a length, as the program asks for no
// memory (docs/DECISIONS.md, 36).
#[derive(Clone, Copy)]
pub struct Reading {
    pub block: [i64; BLOCK_WORDS],
    pub block_len: usize,
    pub table: [i64; TABLE_WORDS],
    pub table_len: usize,
}

// Reads a text and checks its sheet. A block of more words than there is room for has B or R past its range, and a table of more words than
// there is room for is refused as an empty one is.
pub fn read_text(text: &[u8]) -> Result<Reading, Refusal>
    ensures { result ≡ reading_of (reading text.now) }
{
    let Some(p) = form::parse_text(text) else {
        return Err(Refusal::BadText);
    };
    if p.block_len > BLOCK_WORDS {
        return Err(Refusal::BadCounts);
    }
    let m = if p.table_len > TABLE_WORDS {
        0
    } else {
        p.table_len
    };
    accept::check(&p.block[..p.block_len], &p.table[..m])?;
    Ok(Reading {
        block: p.block,
        block_len: p.block_len,
        table: p.table,
        table_len: m,
    })
}
