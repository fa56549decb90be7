// What the trial counts.
use super::findings::Finding;

#[derive(Clone, Copy, Default)]
pub struct Tally {
    pub run: u64, // sheets, positions, or rotations
    pub refused: u64, // sheets
    pub large: u64, // sheets with too many points, of which only the refusal is compared
    pub settled: u64, // sheets
    pub moved: u64, // settled sheets of which a word moved
    pub none: u64, // sheets with no layout
    pub good: u64, // placements
    pub bad: u64, // placements
    pub related: u64, // pairs of rows of which a relation was found
    pub kinds: i64, // the relations that were found, as a set of their numbers
    pub filled: u64, // rules of which a fill was found
    pub shared: u64, // of these, in which two boxes share a cell
    pub placed: u64, // tiny sheets with a first layout
    pub unplaced: u64, // tiny sheets with none
    pub tiny: u64, // sheets of which every placement was tried
    pub inside: u64, // of these placements, the good ones that lie inside what settling left
    pub compared: u64, // answers, tables and good placements
    pub differ: u64,
}

// Counts one more where something holds.
fn count(n: &mut u64, holds: bool) {
    *n = n.wrapping_add(u64::from(holds));
}

impl Tally {
    // One comparison. Each method counts its own fields, which a shared one would take as names.
    pub(crate) fn compare(&mut self, same: bool) {
        count(&mut self.compared, true);
        count(&mut self.differ, !same);
    }

    // A position or a rotation.
    pub(crate) fn count_case(&mut self, agrees: bool) {
        count(&mut self.run, true);
        count(&mut self.differ, !agrees);
    }

    pub(crate) fn count_sheet(&mut self, refused: bool, large: bool) {
        count(&mut self.run, true);
        count(&mut self.refused, refused);
        count(&mut self.large, large);
    }

    // What settling a sheet found, and whether a word of it moved. Only a settled table was moved.
    pub(crate) fn count_settling(&mut self, found: Finding, moved: bool) {
        count(&mut self.settled, found == Ok(true));
        count(&mut self.moved, moved);
        count(&mut self.none, found == Ok(false));
    }

    pub(crate) fn count_verdict(&mut self, found: Finding) {
        count(&mut self.good, found == Ok(true));
        count(&mut self.bad, found == Ok(false));
    }

    pub(crate) fn count_relation(&mut self, set: i64) {
        count(&mut self.related, true);
        self.kinds |= set;
    }

    pub(crate) fn count_fill(&mut self, shared: bool) {
        count(&mut self.filled, true);
        count(&mut self.shared, shared);
    }

    pub(crate) fn count_first(&mut self, found: bool) {
        count(&mut self.placed, found);
        count(&mut self.unplaced, !found);
    }

    pub(crate) fn count_tiny(&mut self) {
        count(&mut self.tiny, true);
    }

    // A good placement.
    pub(crate) fn count_inside(&mut self, is_inside: bool) {
        count(&mut self.inside, is_inside);
        self.compare(is_inside);
    }
}
