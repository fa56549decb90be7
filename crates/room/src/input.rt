// Standard input, read to its end: a failed read is told from the end of the input, and an interrupted one is tried again.
ghost use Rattle.std.specs.Prelude.{◌<◌, length, take, IfOk};
ghost use Rattle.std.specs.Io.KnownBytes.{Consumes, IsAtEnd, ReadConsumes};
ghost use Rattle.std.specs.Io.{ReadsAtMost};
ghost use Rattle.room.specs.Counts.{IsPrefixLen, read_len};

use std::io;
use std::io::{ErrorKind, Read};

// How often a read that a signal interrupts is tried before it counts as failed.
const TRIES: usize = 1000000;

// One read: no byte at the end of the input, and none where it failed. Which bytes a reader has left is known of some readers, but not of
// standard input: no contract can say which bytes are read there.
fn read_some<R: Read>(reader: &mut R, buf: &mut [u8]) -> io::Result<usize>
    ensures len { ReadsAtMost result buf.old }
    ensures bytes { ReadConsumes (R.remaining reader.old) (R.remaining reader.new) result buf.new }
{
    for _ in 0..TRIES {
        match reader.read(buf) {
            Err(e) if e.kind() == ErrorKind::Interrupted => {}
            read => return read,
        }
    }
    Err(ErrorKind::Interrupted.into())
}

// Reads until the input ends, the run is full or a read fails: how many bytes were put at the start of the run, in `Err` those before the read
// that failed. What a reader has left is known of some readers: of such a one the run has its bytes in their order, and where no read failed and
// the run has room left, all of them.
pub(crate) fn read_input<R: Read>(reader: &mut R, text: &mut [u8]) -> Result<usize, usize>
    ensures prefix_len { IsPrefixLen (read_len result) text.new }
    ensures bytes { Consumes (R.remaining reader.old) (R.remaining reader.new) (take (read_len result) text.new) }
    ensures end { IfOk result (λ n. n < length text.new → IsAtEnd (R.remaining reader.new)) }
{
    let mut n = 0;
    // What a read gives says where the next one starts: no range counts them.
    while n < text.len() {
        match read_some(reader, &mut text[n..]) {
            Ok(0) => return Ok(n),
            Ok(more) => n += more,
            Err(_) => return Err(n),
        }
    }
    Ok(n)
}
