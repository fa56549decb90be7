// Marks on the cells of a grid. The cells are numbered from 0, the first dimension counting fastest: a cell's place in dimension d is a digit
// of its number, whose base is the grid's width there (crates/integers/specs/Digits). Of the sheet it has the number of dimensions alone.
#![tactic(auto)]

ghost use Rattle.std.specs.Prelude.{◌≡◌, false, cond, ◌||◌, ℕ, ◌+◌, ◌/◌, ◌%◌, ◌<◌, ◌≤◌, get_or, length};
ghost use Rattle.integers.specs.Below.{sum_below, product_below};
ghost use Rattle.grid.specs.Grid.{cells_most, at, in_line, lines, line_start, Lies, in_brick};

use sheet::DIMS;

// The most cells of a grid.
pub const CELLS: usize = 4096;

// A brick of cells: its first place in each dimension, and how many places it takes.
#[derive(Clone, Copy)]
pub struct Brick {
    pub from: [usize; DIMS],
    pub size: [usize; DIMS],
}

// Marks n cells in a line along the first dimension: lent as a slice, an array tells its length.
fn mark_line(marks: &mut [bool], start: usize, n: usize)
    requires { start + n ≤ length marks.old }
    ensures { (m : ℕ) → get_or marks.new m false ≡ (get_or marks.old m false || in_line start n m) }
{
    marks[start..start + n].fill(true);
}

// How many lines along the first dimension a brick has.
fn lines_of(k: usize, widths: [usize; DIMS], brick: Brick) -> usize
    requires { Lies k widths brick }
    ensures { result ≡ lines k brick.size }
{
    let mut n = 1;
    for d in 1..k {
        n *= brick.size[d];
    }
    n
}

// The quotient and the remainder. A number below the base, as one is in a brick's last dimension, needs no division.
fn divided(n: usize, base: usize) -> (usize, usize)
    requires { 1 ≤ base }
    ensures { (result.0 ≡ n / base) × (result.1 ≡ n % base) }
{
    if n < base {
        (0, n)
    } else {
        (n / base, n % base)
    }
}

// The first cell of a brick's line j.
fn line_start(k: usize, widths: [usize; DIMS], brick: Brick, j: usize) -> usize
    requires { Lies k widths brick }
    ensures { result ≡ line_start k widths brick.from brick.size j }
{
    let mut start = brick.from[0];
    let mut step = widths[0];
    let mut rest = j;
    for d in 1..k {
        let (quotient, remainder) = divided(rest, brick.size[d]);
        start += (brick.from[d] + remainder) * step;
        rest = quotient;
        step *= widths[d];
    }
    start
}

// Marks the cells of a brick, in a grid of k dimensions.
pub fn mark_brick(marks: &mut [bool; CELLS], k: usize, widths: [usize; DIMS], brick: Brick)
    requires { Lies k widths brick }
    ensures { (m : ℕ) → m < product_below k (at widths)
        → get_or marks.new m false ≡ (get_or marks.old m false || in_brick k widths brick m) }
{
    for j in 0..lines_of(k, widths, brick) {
        mark_line(marks, line_start(k, widths, brick, j), brick.size[0]);
    }
}

// How many of the first n cells are marked. A chain that ends in `count` takes six times as long.
pub fn count(marks: &[bool; CELLS], n: usize) -> usize
    requires { n ≤ cells_most }
    ensures { result ≡ sum_below n (λ m. cond (get_or marks.now m false) 1 0) }
{
    let mut c = 0;
    for mark in &marks[..n] {
        if *mark {
            c += 1;
        }
    }
    c
}
