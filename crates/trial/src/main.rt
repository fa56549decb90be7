// Holds the kernel against brute force: the rotations, document 01's positions that are not marked, then some thousands of small sheets by
// chance, some hundreds of larger ones, some thousands of rooms, crowds and tight rooms, and five squares in two rooms. It prints how many
// were run, how many answers were compared, and how many differ.
#![tactic(auto)]

mod brute; // brute.rt: what is allowed, by definition; every point tried
mod catalogue; // catalogue.rt: good placements
mod compare; // compare.rt: kernel and brute force
mod edges; // edges.rt: the positions
mod fills; // fills.rt: the fill of a room
mod findings; // findings.rt: what brute force finds
mod firsts; // firsts.rt: the first whole layout
mod generate; // generate.rt: sheets by chance
mod inside; // inside.rt: good placements and what settling leaves
mod numbers; // numbers.rt: words, places and sets
mod plan; // plan.rt: what the sheets are made of
mod reading; // reading.rt: the words of a sheet
mod refusals; // refusals.rt: the grounds
mod relations; // relations.rt: how two rows stand to each other
mod rotations; // rotations.rt: the order of a sweep's dimensions
mod squares; // squares.rt: five squares in a room
mod tally; // tally.rt: what is counted

use generate::{BLOCK, WORDS};
use plan::Kind;
use std::io;
use tally::Tally;

// How many small and how many larger sheets are tried, and how many rooms, crowds and tight rooms.
const SHEETS: usize = 10000;

const LARGER: usize = 300;

const ROOMS: usize = 8000;

const CROWDS: usize = 4000;

const TIGHT: usize = 4000;

// Sheet m of a kind.
fn sheet(t: &mut Tally, seed: &mut usize, kind: Kind, m: usize) {
    let mut words = [0i64; WORDS];
    let z = generate::sheet(seed, &mut words, kind, m);
    let block = numbers::part(&words, 0, z.block);
    let table = numbers::part(&words, BLOCK, z.table);
    // Each kind has checks of its own beside those of all; a table of closures would hold what the arms say.
    match kind {
        Kind::Position => edges::position(t, block, table, m),
        Kind::Room => compare::room(t, seed, block, table),
        Kind::Crowd | Kind::Tight => {
            t.count_sheet(false, false);
            firsts::sheet(t, block, table);
        }
        Kind::Small | Kind::Larger => compare::sheet(t, seed, block, table, kind),
    }
}

// The first n sheets of a kind.
fn sheets(kind: Kind, n: usize, first: usize) -> Tally {
    let mut seed = first;
    let mut t = Tally::default();
    for m in 0..n {
        sheet(&mut t, &mut seed, kind, m);
    }
    t
}

// ---- what is printed

fn print_run(rt: &impl Print, text: &str, t: Tally) -> io::Result<()> {
    println!(rt; "{text}: {} run, {} differ", t.run, t.differ)
}

fn print_sheets(rt: &impl Print, text: &str, t: Tally) -> io::Result<()> {
    print!(rt;
        "{text}: {} (refused {}, too large {}",
        t.run, t.refused, t.large
    )?;
    println!(rt;
        ", settled {}, of these moved {}, no layout {})",
        t.settled, t.moved, t.none
    )
}

// A line of the output each, so that a line is found by what it says.
fn print_placements(rt: &impl Print, t: Tally) -> io::Result<()> {
    println!(rt; "placements: good {}, not good {}", t.good, t.bad)
}

fn print_fills(rt: &impl Print, t: Tally) -> io::Result<()> {
    println!(rt;
        "fills: found {}, with a cell in several boxes {}",
        t.filled, t.shared
    )
}

fn print_firsts(rt: &impl Print, t: Tally) -> io::Result<()> {
    println!(rt; "first layouts: placed {}, none {}", t.placed, t.unplaced)
}

fn print_compared(rt: &impl Print, t: Tally) -> io::Result<()> {
    println!(rt; "comparisons: {}, differences: {}", t.compared, t.differ)
}

fn print_layouts(rt: &impl Print, text: &str, t: Tally) -> io::Result<()> {
    print!(rt; "{text}: {}, ", t.run)?;
    print_firsts(rt, t)?;
    print_compared(rt, t)
}

// A failed write ends the trial with its error.
fn main(rt: HostRuntime) -> io::Result<()> {
    print_run(&rt, "rotations", rotations::all())?;
    let p = sheets(Kind::Position, edges::POSITIONS, 1);
    print_run(&rt, "positions", p)?;
    let t = sheets(Kind::Small, SHEETS, 88172645463325252);
    print_sheets(&rt, "sheets", t)?;
    print_placements(&rt, t)?;
    println!(rt;
        "relations: found {}, kinds {}",
        t.related,
        t.kinds.count_ones()
    )?;
    print_fills(&rt, t)?;
    println!(rt;
        "tiny sheets: {}, good placements inside what was settled {}",
        t.tiny, t.inside
    )?;
    print_firsts(&rt, t)?;
    print_compared(&rt, t)?;
    let l = sheets(Kind::Larger, LARGER, 362436069362436069);
    print_sheets(&rt, "larger sheets", l)?;
    print_compared(&rt, l)?;
    let r = sheets(Kind::Room, ROOMS, 521288629521288629);
    print!(rt; "rooms: {}, ", r.run)?;
    print_placements(&rt, r)?;
    print_fills(&rt, r)?;
    print_compared(&rt, r)?;
    let c = sheets(Kind::Crowd, CROWDS, 123456789123456789);
    print_layouts(&rt, "crowds", c)?;
    let n = sheets(Kind::Tight, TIGHT, 987654321987654321);
    print_layouts(&rt, "tight rooms", n)?;
    print!(rt; "five squares, ")?;
    print_compared(&rt, squares::both())
}
