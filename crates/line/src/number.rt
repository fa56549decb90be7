// A number: 0, or an optional minus, a digit 1 to 9 and up to nine digits more.
ghost use Rattle.std.specs.Prelude.{◌≡◌, ◌≤◌, pos, length};
ghost use Rattle.sheet.specs.Text.{digits_from, positive, signed, number};
ghost use Rattle.line.specs.Answers.{number_of};

// Digits alone, read onto the digit `v`.
fn read_digits(f: &[u8], v: u64) -> Option<i64>
    requires { (v ≤ 9) × (length f.now ≤ 9) }
    ensures { result ≡ number_of (signed pos (digits_from v f.now)) }
{
    let mut n = v;
    for b in f {
        if !b.is_ascii_digit() {
            return None;
        }
        n = n * 10 + u64::from(*b - b'0');
    }
    Some(n as i64)
}

// A digit 1 to 9 and up to nine digits more.
fn read_positive(f: &[u8]) -> Option<i64>
    ensures { result ≡ number_of (signed pos (positive f.now)) }
{
    let [b @ b'1'..=b'9', rest @ ..] = f else {
        return None;
    };
    if rest.len() > 9 {
        return None;
    }
    read_digits(rest, u64::from(*b - b'0'))
}

// The number that the field `f` spells, if it spells one.
pub(crate) fn read_number(f: &[u8]) -> Option<i64>
    ensures { result ≡ number_of (number f.now) }
{
    match f {
        [b'-', rest @ ..] => read_positive(rest).map(|v| -v),
        [b'0'] => Some(0),
        _ => read_positive(f),
    }
}
