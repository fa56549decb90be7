// The text program (document 01, "The text program"): a sheet on standard input, what settling finds on standard output.
#![tactic(auto)]

mod input; // input.rt: reading standard input

ghost use Rattle.std.specs.Prelude.{is_ok, take};
ghost use Rattle.stores.specs.Put.{Put};
ghost use Rattle.sheet.specs.Layout.{table_most};
ghost use Rattle.sheet.specs.Text.{printed};
ghost use Rattle.room.specs.Answers.{printed_of, response};
ghost use Rattle.room.specs.Counts.{IsPrefixLen, what_read};

use sheet::Refusal;
use std::io;
use text::TEXT_BYTES;

// The bytes of room for a text: one more than it may have. A text that fills them is too long, whatever follows.
const TEXT: usize = TEXT_BYTES + 1;

// The bytes of room for an answer (specs/Answers has them as `answer_most`). The longest answer has 32 rows in 4 dimensions: `SETTLED,32`
// and its line feed are 11 bytes, and a row at most 86: its number 2, the set 10, eight ends of 8 each, nine commas, a line feed.
// 11 + 32 * 86 = 2,763. What is proved holds of any words, in and out of range (proofs/Printed.antt, `printed-few`).
const ANSWER: usize = 13000;

// Puts what is printed for a finding of settling at the start of `out`, as far as there is room; the result is the length needed. Block and
// table are as settling left them: nothing is checked again. Words past those of the largest table, which no accepted sheet has, are not
// looked at.
fn write_answer(
    finding: Result<bool, Refusal>,
    block: &[i64],
    table: &[i64],
    out: &mut [u8],
) -> usize
    ensures { Put out.old 0 (printed_of finding block.now (take table_most table.now)) result out.new }
{
    match finding {
        Ok(true) => listing::put_settled(out, block, table),
        Ok(false) => stores::put_all(out, 0, b"NO LAYOUT\n"),
        Err(g) => listing::put_refused(out, i64::from(g)),
    }
}

// Puts what the program prints for a text at the start of `out`, which has room for it; the other bytes stay. The result is its length.
fn answer(text: &[u8], out: &mut [u8; ANSWER]) -> usize
    ensures put { Put out.old 0 (printed text.now) result out.new }
    ensures prefix_len { IsPrefixLen result out.new }
{
    match text::read_text(text) {
        Ok(r) => {
            let mut words = r.table;
            let block = &r.block[..r.block_len];
            let table = &mut words[..r.table_len];
            let found = settle::settle(block, table);
            write_answer(found, block, table, out)
        }
        Err(g) => write_answer(Err(g), &[], &[], out),
    }
}

// Puts what the program prints at the start of `out`, which has room for it: for a text that was read to its end its answer, and for one that
// was not its refusal with 1. The other bytes stay. The result is the length.
fn respond(read: Result<&[u8], &[u8]>, out: &mut [u8; ANSWER]) -> usize
    ensures put { Put out.old 0 (response (is_ok read.entry) (what_read read.entry).now) result out.new }
    ensures prefix_len { IsPrefixLen result out.new }
{
    match read {
        Ok(text) => answer(text, out),
        Err(_) => listing::put_refused(out, i64::from(Refusal::BadText)),
    }
}

// A failed write ends the program with its error.
fn main(rt: HostRuntime) -> io::Result<()> {
    let mut text = [0u8; TEXT];
    let mut out = [0u8; ANSWER];
    let read = match input::read_input(&mut rt.stdin(), &mut text) {
        Ok(n) => Ok(&text[..n]),
        Err(n) => Err(&text[..n]),
    };
    let m = respond(read, &mut out);
    rt.write_all(&out[..m])
}
