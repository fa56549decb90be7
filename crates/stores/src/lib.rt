// Stores that never leave a lent run: what would stand past its end is counted and left out. So whoever reads or writes a text goes
// on counting, and too much shows in the counts.
#![tactic(auto)]

ghost use Rattle.std.specs.Prelude.{◌≡◌, ◌+◌, ◌≤◌, length, set};
ghost use Rattle.stores.specs.Put.{Put};

pub fn put<T: Copy>(out: &mut [T], at: usize, x: T)
    ensures { out.new ≡ set out.old at x }
{
    if at < out.len() {
        out[at] = x;
    }
}

// Puts items from `at` on, and hands back the place past them.
pub fn put_all<T: Copy>(out: &mut [T], at: usize, items: &[T]) -> usize
    requires { at + length items.now ≤ 1000000000 }
    ensures { Put out.old at items.now result out.new }
{
    for (i, x) in items.iter().enumerate() {
        put(out, at + i, *x);
    }
    at + items.len()
}
