// The meaning of a room sheet (document 01): the definitions are in specs/, their theorems in proofs/, and here are the limits of a sheet
// and what the kernel's operations answer with. specs/Answer.antt says which answer stands for which finding.
#![tactic(auto)]

ghost use Rattle.std.specs.Prelude.{◌≡◌, pos};
ghost use Rattle.sheet.specs.Relation.{relation_number};
ghost use Rattle.sheet.specs.Refusal.{refusal_number};

// ---- the limits that code makes room by

// The most dimensions, boxes, rules and rows. A row has a range for each axis, and a point a coordinate.
pub const DIMS: usize = 4;

pub const BOXES: usize = 128;

pub const RULES: usize = 32;

pub const ROWS: usize = 32;

pub const AXES: usize = DIMS;

// The most words of a record, which a rule has, of a block and of a table (specs/Layout has them in figures).
pub const RECORD_WORDS: usize = 3 + 2 * DIMS;

pub const BLOCK_WORDS: usize = 3 + BOXES * (1 + 2 * DIMS) + RULES * RECORD_WORDS;

pub const TABLE_WORDS: usize = ROWS * (1 + 2 * AXES);

// The most rows of a sheet whose first layout is looked for (document 02, T-06), and the most words of its table.
pub const LAYOUT_ROWS: usize = 8;

pub const LAYOUT_WORDS: usize = LAYOUT_ROWS * (1 + 2 * AXES);

// ---- grounds for turning a call away (documents 01 and 02)

// A refusal is the document's ground, with its number there; specs/Refusal.antt has the check of each by its name.
#[derive(Clone, Copy, PartialEq, Eq)]
pub enum Refusal {
    BadText = 1,
    BadHead = 2,
    BadCounts = 3,
    BadBlockLength = 4,
    BadTableLength = 5,
    BadBox = 6,
    BadRule = 7,
    BadRow = 8,
    NoSuchRow = 9,
    NoSuchShape = 10,
    NoSuchDim = 11,
    NotFixed = 12,
    NoFillRule = 13,
    BadCells = 14,
    NotGood = 15,
    TooManyRows = 16,
}

impl From<Refusal> for i64 {
    ghost from_gives = { λ g z. z ≡ pos (refusal_number g) };

    fn from(g: Refusal) -> i64 {
        g as i64
    }
}

// ---- how two rows stand to each other (document 02, T-01)

// The relations of document 004, with their numbers in the request's order; specs/Relation.antt has the rule of each.
#[derive(Clone, Copy, PartialEq, Eq)]
pub enum Allen {
    Precedes = 1,
    Meets = 2,
    Overlaps = 3,
    Contains = 4,
    Starts = 5,
    Finishes = 6,
    Equals = 7,
    StartedBy = 8,
    FinishedBy = 9,
    During = 10,
    OverlappedBy = 11,
    MetBy = 12,
    PrecededBy = 13,
}

impl From<Allen> for i64 {
    ghost from_gives = { λ x z. z ≡ pos (relation_number x) };

    fn from(x: Allen) -> i64 {
        x as i64
    }
}

// ---- the fill of a room (document 02, T-03)

// How many cells of the room are covered, and how many thousandths of it they are.
#[derive(Clone, Copy, PartialEq, Eq)]
pub struct Share {
    pub cells: usize,
    pub permille: usize,
}
