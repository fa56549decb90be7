// Listing: every rule that counts and names the row, and every other row that it names.
ghost use Rattle.std.specs.Prelude.{◌≡◌, true, ◌&&◌, List, ℕ, ◌<◌, ℤ};
ghost use Rattle.integers.specs.Bits.{bit};
ghost use Rattle.integers.specs.Words.{word};
ghost use Rattle.sheet.specs.Layout.{rules};
ghost use Rattle.sheet.specs.Allowed.{set_forbids, row_forbids};
ghost use Rattle.words.specs.Places.{RowPlace};
ghost use Rattle.outline.specs.Outline.{Subject};
ghost use Rattle.outline.specs.Places.{rules_at, shapes_most, hull_of};
ghost use Rattle.forbid.specs.Region.{rows_forbid, rule_forbids};
ghost use Rattle.nearby.specs.Listing.{Listed};
ghost use Rattle.nearby.specs.Adding.{Hulled, FillsHulls, Adding, Binds, Grows, Space, Threat};

use crate::known::KNOWN;
use crate::suspect::SUSPECT;
use crate::{Nearby, known, suspect};
use forbid::pair;
use forbid::pair::Pair;
use outline::{OUTLINE, chain, rules, solid};
use points::Area;
use words::Place;

// Row i with shape s: for whom a list is made.
#[derive(Clone, Copy)]
pub(crate) struct Query {
    pub i: Place,
    pub s: usize,
}

// The hulls of shape t of row j and of shape s, which stand for all their boxes.
pub(crate) fn hulls(r: Place, s: usize, j: Place, t: usize) -> Pair
    requires { (s < shapes_most) × (t < shapes_most) }
    ensures { result ≡ record { r = r; own = hull_of s; j = j; other = hull_of t } }
{
    Pair {
        r,
        own: solid::hull_of(s),
        j,
        other: solid::hull_of(t),
    }
}

// Whether row j forbids all that the hulls of shape s and of its shape t do: it has no other shape, and both shapes have one box.
fn fills_hulls(
    block: &[i64],
    table: &[i64],
    outline: &[i64; OUTLINE],
    s: usize,
    j: Place,
    t: usize,
) -> bool
    requires { Hulled block.now table.now outline.now s j t }
    ensures { result ≡ true → FillsHulls block.now table.now s j.number t }
{
    words::has_one_shape(block, table, j)
        && chain::is_single(block, outline, s)
        && chain::is_single(block, outline, t)
}

// Lists an area that row j threatens by rule r: as known where row j forbids all of it, and else as a suspect's. How many suspects there are
// then, if there is room for all.
fn add_area(
    suspects: &mut [i64],
    known: &mut [i64; KNOWN],
    count: Option<usize>,
    r: usize,
    j: usize,
    area: Area,
    fills: bool,
) -> Option<usize>
    requires { Space suspects.old known.old count r j }
    ensures { (block table : List ℤ) (i s : ℕ) → Threat block table i s r j area fills
        → Grows block table i s (λ p. set_forbids block table r p i s j)
        suspects.old known.old count suspects.new known.new result }
{
    if fills && known::remember(known, area) {
        return count;
    }
    let e = count?;
    if suspects.len() - SUSPECT * e < SUSPECT {
        return None;
    }
    suspect::put_suspect(suspects, e, r, j, area);
    Some(e + 1)
}

// Lists row j, if it is another row, the rule names it, and its lowest shape can forbid a point of row i's ranges: what row j forbids, that shape
// does.
fn add_row(
    block: &[i64],
    table: &[i64],
    outline: &[i64; OUTLINE],
    suspects: &mut [i64],
    known: &mut [i64; KNOWN],
    count: Option<usize>,
    q: Query,
    r: Place,
    j: Place,
) -> Option<usize>
    requires { Adding block.now table.now outline.now q suspects.old known.old count × Binds block.now q.i.number r
        × RowPlace block.now table.now j }
    ensures { Grows block.now table.now q.i.number q.s
        (λ p. row_forbids block.now table.now r.number p q.i.number q.s j.number)
        suspects.old known.old count suspects.new known.new result }
{
    let own = q.i.number;
    let other = j.number;
    if own == other {
        return count;
    }
    if !words::names_row(block, r, other) {
        return count;
    }
    let t = words::lowest_shape(block, table, j);
    let pair = hulls(r, q.s, j, t);
    let Some(area) = pair::pair_meets(block, table, outline, pair, q.i) else {
        return count;
    };
    let fills = fills_hulls(block, table, outline, q.s, j, t);
    add_area(suspects, known, count, r.number, other, area, fills)
}

// Lists every row of rule r.
fn add_rows(
    block: &[i64],
    table: &[i64],
    outline: &[i64; OUTLINE],
    suspects: &mut [i64],
    known: &mut [i64; KNOWN],
    count: Option<usize>,
    q: Query,
    r: Place,
) -> Option<usize>
    requires { Adding block.now table.now outline.now q suspects.old known.old count × Binds block.now q.i.number r }
    ensures { Grows block.now table.now q.i.number q.s
        (rows_forbid block.now table.now r.number q.i.number q.s)
        suspects.old known.old count suspects.new known.new result }
{
    let mut found = count;
    for j in 0..words::rows_of(block, table) {
        let other = words::row_place(block, table, j + 1);
        found = add_row(block, table, outline, suspects, known, found, q, r, other);
    }
    found
}

// Lists what rule r forbids, if it counts and keeps row i apart from other rows.
fn add_rule(
    block: &[i64],
    table: &[i64],
    outline: &[i64; OUTLINE],
    suspects: &mut [i64],
    known: &mut [i64; KNOWN],
    count: Option<usize>,
    q: Query,
    r: usize,
) -> Option<usize>
    requires { Adding block.now table.now outline.now q suspects.old known.old count × (r < rules block.now) }
    ensures { Grows block.now table.now q.i.number q.s
        (λ p. bit (word outline.now rules_at) r
        && rule_forbids block.now table.now q.i.number q.s r p)
        suspects.old known.old count suspects.new known.new result }
{
    if !rules::rule_counts(outline, r) {
        return count;
    }
    let rule = words::rule_place(block, r);
    if !forbid::is_non_overlap_of(block, rule, q.i.number) {
        return count;
    }
    add_rows(block, table, outline, suspects, known, count, q, rule)
}

// Lists what can forbid row i with shape s some point of its ranges: no further than the last rule that counts. The words of both runs may
// have been any.
pub fn gather(
    block: &[i64],
    table: &[i64],
    outline: &[i64; OUTLINE],
    suspects: &mut [i64],
    known: &mut [i64; KNOWN],
    i: Place,
    s: usize,
) -> Nearby
    requires { Subject block.now table.now outline.now i s }
    ensures { Listed block.now table.now result suspects.new known.new × (result.i ≡ i) × (result.s ≡ s) }
{
    known::forget(known);
    let q = Query { i, s };
    let counted = rules::counting(outline);
    let mut count = Some(0);
    for r in 0..words::rules_of(block) {
        if words::is_below(counted, r) {
            break;
        }
        count = add_rule(block, table, outline, suspects, known, count, q, r);
    }
    Nearby { i, s, count }
}
