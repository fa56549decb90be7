// Words and ranges, as checks 6 to 12 test them.
ghost use Rattle.std.specs.Prelude.{◌≡◌, ◌&&◌, ◌-◌, ◌^◌, ◌≤◌, pos};
ghost use Rattle.std.specs.Int.Signed.{le_z, lt_z};
ghost use Rattle.integers.specs.Integer.{eq_z, within};
ghost use Rattle.accept.specs.Parts.{valid_range};

// Whether the word is one of the numbers 0 to n − 1.
pub(crate) fn is_index(z: i64, n: usize) -> bool
    requires { n ≤ 32 }
    ensures { result ≡ (le_z (pos 0) z && lt_z z (pos n)) }
{
    (0..n as i64).contains(&z)
}

pub(crate) fn valid_range(a: i64, b: i64) -> bool
    ensures { result ≡ valid_range a b }
{
    words::is_within(a, -1000000, 1000000) && words::is_within(b, -1000000, 1000000) && a <= b
}

// Whether the word is a set of some of the numbers 1 to n.
pub(crate) fn valid_set(set: i64, n: usize) -> bool
    requires { n ≤ 32 }
    ensures { result ≡ within (pos 1) (pos (2 ^ n - 1)) set }
{
    words::is_within(set, 1, full_set(n))
}

// The set of all the numbers 1 to n.
fn full_set(n: usize) -> i64
    requires { n ≤ 32 }
    ensures { result ≡ pos (2 ^ n - 1) }
{
    ((1u64 << n) - 1) as i64
}
