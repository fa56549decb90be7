// Numbers in decimal, with a minus where they are negative.
ghost use Rattle.std.specs.Prelude.{◌≡◌, [], ◌+◌, ◌≤◌, pos, length, drop};
ghost use Rattle.stores.specs.Put.{Put};
ghost use Rattle.sheet.specs.Text.{decimal, shown};

use stores::{put, put_all};

// The digits of `n` at the end of `buf`, from the last on: where they start.
fn fill_digits(buf: &mut [u8], n: u64) -> usize
    ensures { (result ≤ length buf.old) × (drop result buf.new ≡ decimal (length buf.old) n []) }
{
    let mut m = n;
    for i in (0..buf.len()).rev() {
        buf[i] = b'0' + (m % 10) as u8;
        if m < 10 {
            return i;
        }
        m /= 10;
    }
    0
}

// Puts the digits of `n`. A 64-bit number has at most 20.
pub(crate) fn put_natural(out: &mut [u8], at: usize, n: u64) -> usize
    requires { at ≤ 1000000 }
    ensures { Put out.old at (shown (pos n)) result out.new }
{
    let mut buf = [0u8; 20];
    let i = fill_digits(&mut buf, n);
    put_all(out, at, &buf[i..])
}

// Puts a word: a minus where it is negative, and its digits.
pub(crate) fn put_number(out: &mut [u8], at: usize, v: i64) -> usize
    requires { at + 1 ≤ 1000000 }
    ensures { Put out.old at (shown v) result out.new }
{
    let n = v.unsigned_abs();
    if v < 0 {
        put(out, at, b'-');
        return put_natural(out, at + 1, n);
    }
    put_natural(out, at, n)
}
