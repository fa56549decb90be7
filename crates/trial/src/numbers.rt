// Words, places and sets that are defined for every argument, so that no caller has anything to prove. The sheets of the trial stay far below
// the ends of the types.

ghost use Rattle.std.specs.Prelude.{◌<◌};

// ---- words

// Word i, or 0 past the end.
pub(crate) fn at(words: &[i64], i: usize) -> i64 {
    words.get(i).copied().unwrap_or(0)
}

// Puts a word where there is one.
pub(crate) fn put(words: &mut [i64], i: usize, w: i64) {
    if let Some(x) = words.get_mut(i) {
        *x = w;
    }
}

// The n words from `first` on, or none where there are not so many.
pub(crate) fn part(words: &[i64], first: usize, n: usize) -> &[i64] {
    words.get(first..first.saturating_add(n)).unwrap_or(&[])
}

// Puts a run of words from `first` on, as far as there is room, and says whether one of them was other.
pub(crate) fn put_run(words: &mut [i64], first: usize, run: &[i64]) -> bool {
    let mut other = false;
    for (x, y) in words.iter_mut().skip(first).zip(run) {
        other |= *x != *y;
        *x = *y;
    }
    other
}

// A copy of some words, which stands at the start of `room`; it ends with the room.
pub(crate) fn copied<'a>(room: &'a mut [i64], words: &[i64]) -> &'a mut [i64] {
    let n = words.len().min(room.len());
    let copy = &mut room[..n];
    copy.copy_from_slice(&words[..n]);
    copy
}

// ---- numbers

// A word as a number, and a number as a word. One function over both types would say no more than the library's `try_from`.
pub(crate) fn count_of(w: i64) -> usize {
    usize::try_from(w).unwrap_or(0)
}

pub(crate) fn word_of(n: usize) -> i64 {
    i64::try_from(n).unwrap_or(0)
}

// first + count * size
pub(crate) fn place(first: usize, count: usize, size: usize) -> usize {
    count.saturating_mul(size).saturating_add(first)
}

pub(crate) fn quotient(a: usize, b: usize) -> usize {
    a.checked_div(b).unwrap_or(0)
}

pub(crate) fn remainder(a: usize, b: usize) -> usize {
    a.checked_rem(b).unwrap_or(0)
}

// ---- sets

// Bit d of a set.
pub(crate) fn has(set: i64, d: usize) -> bool {
    set & set_of(d) != 0
}

// The set of d alone, for d up to 32.
pub(crate) fn set_of(d: usize) -> i64 {
    if d > 32 { 0 } else { 1 << d }
}

// The set of the first n, 2^n − 1.
pub(crate) fn all_of(n: usize) -> i64 {
    set_of(n).saturating_sub(1)
}

// ---- chance

// A xorshift generator.
fn next(seed: &mut usize) -> usize {
    let mut x = *seed;
    x ^= x << 13;
    x ^= x >> 7;
    x ^= x << 17;
    *seed = x;
    x
}

// A number from 0 to n - 1.
pub(crate) fn below(seed: &mut usize, n: usize) -> usize
    ensures { 0 < n → result < n }
{
    let x = next(seed);
    if n == 0 { 0 } else { x % n }
}

// One of the n words from `first` on.
pub(crate) fn from(seed: &mut usize, first: i64, n: usize) -> i64 {
    first.saturating_add(word_of(below(seed, n)))
}

// Once in n times.
pub(crate) fn one_of(seed: &mut usize, n: usize) -> bool {
    below(seed, n) == 0
}
