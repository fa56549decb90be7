// The C interface, include/zivokkal.h: the kernel's operations over lent words, each with its finding as a word: 0 for the good answer,
// -1 for the other, and otherwise the refusal's number (specs/Findings.antt). A slice is a pointer and a length in C.
#![tactic(auto)]

ghost use Rattle.std.specs.Prelude.{◌≡◌, ◌^◌, ◌<◌, IfOk, [], ◌∷◌, pos, length};
ghost use Rattle.integers.specs.Integer.{nat};
ghost use Rattle.sheet.specs.Allowed.{allowed};
ghost use Rattle.sheet.specs.Placement.{good};
ghost use Rattle.sheet.specs.Bounds.{least_of, greatest_of};
ghost use Rattle.sheet.specs.Narrow.{narrow_of};
ghost use Rattle.sheet.specs.Settle.{settle_of};
ghost use Rattle.sheet.specs.FirstLayout.{first_layout_of};
ghost use Rattle.sheet.specs.Relation.{relation_of};
ghost use Rattle.sheet.specs.Fill.{rule_asked, room_cells, covered_cells, permille};
ghost use Rattle.sheet.specs.Refusal.{refusal, refusal_row, refusal_shape, refusal_dim, refusal_placement, refusal_relation, refusal_fill};
ghost use Rattle.sheet.specs.Refusal.{refusal_layout, row_slice, row_start};
ghost use Rattle.sheet.specs.Answer.{answer, as_option, is_found, table_after};
ghost use Rattle.capi.specs.Findings.{finding, refusal_finding, no_bound, bound_finding, standing_finding, share_finding};

use sheet::{Allen, Refusal, Share};

// ---- results in C's layout

// struct zk_bound: the value is 0 unless a coordinate was found.
#[repr(C)]
#[derive(Clone, Copy)]
pub struct BoundFinding {
    pub finding: i64,
    pub value: i64,
}

// struct zk_span: the row's first word in its table, and how many; 0 and 0 when refused.
#[repr(C)]
#[derive(Clone, Copy)]
pub struct RowSpan {
    pub start: i64,
    pub length: i64,
}

// struct zk_standing: the relation's number, 1 to 13; 0 when refused.
#[repr(C)]
#[derive(Clone, Copy)]
pub struct StandingFinding {
    pub finding: i64,
    pub relation: i64,
}

// struct zk_share: the cells covered, and how many thousandths of the room they are; 0 and 0 when refused.
#[repr(C)]
#[derive(Clone, Copy)]
pub struct ShareFinding {
    pub finding: i64,
    pub cells: i64,
    pub permille: i64,
}

// ---- findings as words

fn finding(x: Result<bool, Refusal>) -> i64
    ensures { result ≡ finding x }
{
    match x {
        Ok(true) => 0,
        Ok(false) => -1,
        Err(g) => i64::from(g),
    }
}

fn refusal_finding(x: Result<(), Refusal>) -> i64
    ensures { result ≡ refusal_finding x }
{
    match x {
        Ok(()) => 0,
        Err(refusal) => i64::from(refusal),
    }
}

fn no_bound(finding: i64) -> BoundFinding
    ensures { result ≡ no_bound finding }
{
    BoundFinding { finding, value: 0 }
}

fn bound_finding(x: Result<Option<i64>, Refusal>) -> BoundFinding
    ensures { result ≡ bound_finding x }
{
    match x {
        Ok(Some(value)) => BoundFinding { finding: 0, value },
        Ok(None) => no_bound(-1),
        Err(g) => no_bound(i64::from(g)),
    }
}

fn standing_finding(x: Result<Allen, Refusal>) -> StandingFinding
    ensures { result ≡ standing_finding x }
{
    match x {
        Ok(y) => StandingFinding {
            finding: 0,
            relation: i64::from(y),
        },
        Err(g) => StandingFinding {
            finding: i64::from(g),
            relation: 0,
        },
    }
}

fn share_finding(x: Result<Share, Refusal>) -> ShareFinding
    requires { IfOk x (λ s. (s.cells < 2 ^ 63) × (s.permille < 2 ^ 63)) }
    ensures { result ≡ share_finding x }
{
    match x {
        Ok(s) => ShareFinding {
            finding: 0,
            cells: s.cells as i64,
            permille: s.permille as i64,
        },
        Err(g) => ShareFinding {
            finding: i64::from(g),
            cells: 0,
            permille: 0,
        },
    }
}

// ---- the exported functions

#[unsafe(no_mangle)]
pub extern "C" fn zk_refusal(block: &[i64], table: &[i64]) -> i64
    ensures { result ≡ pos (refusal block.now table.now) }
{
    refusal_finding(accept::check(block, table))
}

#[unsafe(no_mangle)]
pub extern "C" fn zk_row_refusal(block: &[i64], table: &[i64], row: i64) -> i64
    ensures { result ≡ pos (refusal_row block.now table.now row) }
{
    refusal_finding(accept::check_row(block, table, row))
}

#[unsafe(no_mangle)]
pub extern "C" fn zk_point_allowed(
    block: &[i64],
    table: &[i64],
    row: i64,
    shape: i64,
    p0: i64,
    p1: i64,
    p2: i64,
    p3: i64,
) -> i64
    ensures { result ≡ finding (answer (refusal_shape block.now table.now row shape)
        (allowed block.now table.now (nat row) (nat shape) (p0 ∷ p1 ∷ p2 ∷ p3 ∷ []))) }
{
    finding(placement::point_allowed(block, table, row, shape, [p0, p1, p2, p3]))
}

#[unsafe(no_mangle)]
pub extern "C" fn zk_check_placement(block: &[i64], table: &[i64]) -> i64
    ensures { result ≡ finding (answer (refusal_placement block.now table.now)
        (good block.now table.now)) }
{
    finding(placement::check_placement(block, table))
}

#[unsafe(no_mangle)]
pub extern "C" fn zk_least(
    block: &[i64],
    table: &[i64],
    row: i64,
    shape: i64,
    dimension: i64,
) -> BoundFinding
    ensures { result ≡ bound_finding (answer (refusal_dim block.now table.now row shape dimension)
        (as_option (least_of block.now table.now (nat row) (nat shape) (nat dimension)))) }
{
    bound_finding(bounds::least(block, table, row, shape, dimension))
}

#[unsafe(no_mangle)]
pub extern "C" fn zk_greatest(
    block: &[i64],
    table: &[i64],
    row: i64,
    shape: i64,
    dimension: i64,
) -> BoundFinding
    ensures { result ≡ bound_finding (answer (refusal_dim block.now table.now row shape dimension)
        (as_option (greatest_of block.now table.now (nat row) (nat shape) (nat dimension)))) }
{
    bound_finding(bounds::greatest(block, table, row, shape, dimension))
}

#[unsafe(no_mangle)]
pub extern "C" fn zk_narrow(block: &[i64], table: &mut [i64], row: i64) -> i64
    ensures { (result ≡ finding (answer (refusal_row block.now table.old row)
        (is_found (narrow_of block.now table.old (nat row)))))
        × (table.new ≡ table_after (refusal_row block.now table.old row) table.old
        (narrow_of block.now table.old (nat row))) }
{
    finding(narrow::narrow(block, table, row))
}

#[unsafe(no_mangle)]
pub extern "C" fn zk_settle(block: &[i64], table: &mut [i64]) -> i64
    ensures { (result ≡ finding (answer (refusal block.now table.old)
        (is_found (settle_of block.now table.old))))
        × (table.new ≡ table_after (refusal block.now table.old) table.old
        (settle_of block.now table.old)) }
{
    finding(settle::settle(block, table))
}

#[unsafe(no_mangle)]
pub extern "C" fn zk_first_layout(block: &[i64], table: &mut [i64]) -> i64
    ensures { (result ≡ finding (answer (refusal_layout block.now table.old)
        (is_found (first_layout_of block.now table.old))))
        × (table.new ≡ table_after (refusal_layout block.now table.old) table.old
        (first_layout_of block.now table.old)) }
{
    finding(layout::first_layout(block, table))
}

#[unsafe(no_mangle)]
pub extern "C" fn zk_row_span(block: &[i64], table: &[i64], row: i64) -> RowSpan
    ensures { (result.start ≡ pos (row_start block.now table.now row))
        × (result.length ≡ pos (length (row_slice block.now table.now row))) }
{
    let span = accept::row_span(block, table, row);
    RowSpan {
        start: span.start as i64,
        length: span.length as i64,
    }
}

#[unsafe(no_mangle)]
pub extern "C" fn zk_relation(
    block: &[i64],
    table: &[i64],
    row: i64,
    other: i64,
    dimension: i64,
) -> StandingFinding
    ensures { result ≡ standing_finding (answer (refusal_relation block.now table.now row other dimension)
        (relation_of block.now table.now (nat row) (nat other) (nat dimension))) }
{
    standing_finding(relate::relation(block, table, row, other, dimension))
}

#[unsafe(no_mangle)]
pub extern "C" fn zk_fill(block: &[i64], table: &[i64], rule: i64) -> ShareFinding
    ensures { result ≡ share_finding (answer (refusal_fill block.now table.now rule) (record {
      cells = covered_cells block.now table.now (rule_asked rule);
      permille = permille (covered_cells block.now table.now (rule_asked rule)) (room_cells block.now (rule_asked rule));
    })) }
{
    share_finding(fill::fill(block, table, rule))
}
