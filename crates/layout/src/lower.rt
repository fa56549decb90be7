// Lowering a placement's numbers one after another, each by halving: is there a placement that has this number at most halfway between the least
// that is open and the best found so far?
ghost use Rattle.std.specs.Prelude.{◌≡◌, suc, ◌<◌, length};
ghost use Rattle.std.proofs.Math.Option.{some};
ghost use Rattle.sheet.specs.FirstLayout.{Places, numbers, FirstLayout};
ghost use Rattle.layout.specs.Search.{Small};
ghost use Rattle.splits.specs.Splits.{SplitAt};
ghost use Rattle.layout.specs.Lowering.{OnTable, LeastOf, Probed, Lowering, excess, Halved, Lowered};

use crate::find;
use sheet::{LAYOUT_ROWS, LAYOUT_WORDS};
use splits::Split;

// Number m as a number of a row, split at its least value.
fn least_of(block: &[i64], table: &[i64], m: usize) -> Split
    requires { OnTable block.now table.now × (m < numbers block.now table.now) }
    ensures { LeastOf block.now table.now m result }
{
    let columns = words::axes_of(block) + 1;
    let row = m / columns + 1;
    let column = m % columns;
    let at = splits::number(block, table, row, column);
    Split { row, column, at }
}

// How far number m of the best is above the least value that is open in the rest.
fn excess(block: &[i64], rest: &[i64], best: &[i64], m: usize) -> u64
    requires { Lowering block.now m rest.now best.now }
    ensures { result ≡ excess block.now m rest.now best.now }
{
    let low = least_of(block, rest, m);
    let high = least_of(block, best, m);
    splits::gap(low.at, high.at)
}

// Looks for a placement in the rest that has a value up to the split: it is then the best. Where there is none the rest keeps the values past
// the split.
fn probe(
    block: &[i64],
    rest: &mut [i64],
    best: &mut [i64],
    failures: &mut [u32; LAYOUT_ROWS],
    s: Split,
)
    requires { Small block.now rest.old × SplitAt block.now rest.old s.row s.column s.at
        × (length best.old ≡ length rest.old) }
    ensures { Probed block.now rest.old best.old s rest.new best.new }
{
    let mut words = [0i64; LAYOUT_WORDS];
    let part = &mut words[..rest.len()];
    splits::copy_upto(block, rest, part, s);
    if find::place(block, part, failures) {
        best.copy_from_slice(part);
    } else {
        splits::keep_past(block, rest, s);
    }
}

// Lowers number m by half of what it is above the least value that is open in the rest: of the best, or where that cannot be, of the rest.
fn halve(
    block: &[i64],
    rest: &mut [i64],
    best: &mut [i64],
    failures: &mut [u32; LAYOUT_ROWS],
    m: usize,
)
    requires { Lowering block.now m rest.old best.old }
    ensures { Halved block.now m rest.old best.old rest.new best.new }
{
    let low = least_of(block, rest, m);
    let high = least_of(block, best, m);
    if high.at <= low.at {
        return;
    }
    let at = splits::halfway(low.at, high.at);
    probe(block, rest, best, failures, Split { at, ..low });
}

// Lowers number m until the best has the least value of it, and fixes it in the rest.
fn lower(
    block: &[i64],
    rest: &mut [i64],
    best: &mut [i64],
    failures: &mut [u32; LAYOUT_ROWS],
    m: usize,
)
    requires { Lowering block.now m rest.old best.old }
    ensures { Lowered block.now (suc m) rest.old best.old rest.new best.new }
{
    while excess(block, rest, best, m) > 0 {
        // The best lies inside, so that settling leaves a table.
        find::settled(block, rest);
        halve(block, rest, best, failures, m);
    }
    splits::keep_upto(block, rest, least_of(block, best, m));
}

// Lowers every number of the placement `best` inside the table `rest`.
fn lower_all(block: &[i64], rest: &mut [i64], best: &mut [i64], failures: &mut [u32; LAYOUT_ROWS])
    requires { Small block.now rest.old × Places block.now rest.old best.old }
    ensures { Lowered block.now (numbers block.now rest.old) rest.old best.old
        rest.new best.new }
{
    let count = words::rows_of(block, rest) * (words::axes_of(block) + 1);
    for m in 0..count {
        lower(block, rest, best, failures, m);
    }
}

// Lowers the placement `best` inside the table until none inside precedes it.
pub(crate) fn to_first(
    block: &[i64],
    table: &[i64],
    best: &mut [i64],
    failures: &mut [u32; LAYOUT_ROWS],
)
    requires { Small block.now table.now × Places block.now table.now best.old }
    ensures { FirstLayout block.now table.now (some best.new) }
{
    let mut words = [0i64; LAYOUT_WORDS];
    let rest = &mut words[..table.len()];
    rest.copy_from_slice(table);
    lower_all(block, rest, best, failures);
}
