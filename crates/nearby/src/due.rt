// Whether one row can forbid another anything: so the rows are found that are to be narrowed again when a row has moved.
ghost use Rattle.std.specs.Prelude.{◌≡◌, false};
ghost use Rattle.nearby.specs.Due.{HarmlessBy, ShapeHarmless, Faces, ShapeFaces};

use crate::gather;
use forbid::pair;
use outline::OUTLINE;
use words::Place;

// Whether shape t of row j can forbid row i with shape s a point of its ranges, if s is one of its shapes.
fn threatens_shape(
    block: &[i64],
    table: &[i64],
    outline: &[i64; OUTLINE],
    r: Place,
    j: Place,
    t: usize,
    i: Place,
    s: usize,
) -> bool
    requires { ShapeFaces block.now table.now outline.now r j t i s }
    ensures { result ≡ false → ShapeHarmless block.now table.now r.number j.number t i.number s }
{
    words::has_shape(block, table, i, s)
        && pair::pair_meets(block, table, outline, gather::hulls(r, s, j, t), i).is_some()
}

// Whether row j can forbid row i some point of its ranges by rule r: its lowest shape forbids all that it does. From the first shape of row i's
// set to the last.
pub fn threatens_row(
    block: &[i64],
    table: &[i64],
    outline: &[i64; OUTLINE],
    r: Place,
    j: Place,
    i: Place,
) -> bool
    requires { Faces block.now table.now outline.now r j i }
    ensures { result ≡ false → HarmlessBy block.now table.now r.number j.number i.number }
{
    let t = words::lowest_shape(block, table, j);
    if words::has_one_shape(block, table, i) {
        let own = words::lowest_shape(block, table, i);
        return threatens_shape(block, table, outline, r, j, t, i, own);
    }
    let set = words::shapes_of(block, table, i);
    for s in u32::trailing_zeros(set) as usize..32 {
        if words::is_below(set, s) {
            return false;
        }
        if threatens_shape(block, table, outline, r, j, t, i, s + 1) {
            return true;
        }
    }
    false
}
