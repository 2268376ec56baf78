ghost use Rattle.std.specs.Prelude.{◌≡◌, ℕ, ◌||◌, ◌==◌, nat_le};
ghost use Rattle.theory.specs.Delays.{affected, asked, some_row};
ghost use Rattle.theory.specs.Figures.{Within, priorities};
ghost use Rattle.delay.specs.Blockers.{blocker_of};
ghost use Rattle.delay.specs.RowSets.{in_rows};

use super::rows::RowSet;
use names::{PRIORITIES, Priority};

/// A row that is judged, and its blocker, if it has one.
#[derive(Clone, Copy, PartialEq, Eq, Debug)]
pub struct Pair {
    pub row: Priority,
    pub blocker: Option<Priority>,
}

/// What a delay model is asked: the cost of each job of a pre-empting row, while a pair is judged in a column of
/// thresholds.
#[derive(Clone, Copy)]
pub struct Question<'a> {
    pub pair: Pair,
    pub preempting: Priority,
    pub column: &'a [u8],
}

impl Question<'_> {
    /// Whether the judged and the pre-empting row are priorities, and the blocker is one or none. A model answers 0 to
    /// any other question.
    pub fn in_range(&self) -> bool
        ensures { result ≡ asked self.now.pair.row.0 (blocker_of self.now.pair.blocker) self.now.preempting.0 }
    {
        self.pair.row.index().is_ok()
            && self.pair.blocker.is_none_or(|b| b.0 <= PRIORITIES)
            && self.preempting.index().is_ok()
    }

    /// The rows whose started jobs the pre-empting row can pre-empt, among the judged row, the rows more urgent than
    /// it, and the blocker.
    pub fn affected_rows(&self) -> RowSet
        ensures { (k : ℕ) → Within priorities k → in_rows result k ≡ affected self.now.pair.row.0 (blocker_of self.now.pair.blocker) self.now.preempting.0 self.now.column.now k }
    {
        RowSet::pre_empted_by(self.preempting, self.column).intersection(self.judged_rows())
    }

    // Whether some row is affected.
    pub(super) fn any_affected(&self) -> bool
        ensures { result ≡ some_row (affected self.now.pair.row.0 (blocker_of self.now.pair.blocker) self.now.preempting.0 self.now.column.now) }
    {
        let i = self.pair.row.0;
        let b = self.pair.blocker.map_or(0, |b| b.0);
        let known = self.column.len().min(PRIORITIES as usize);
        let mut some = false;
        // `&` and `|` leave no branch, so 16 entries are tested at a time: `&&` and `||` take twice as long, and so
        // does the set of the affected rows.
        for (t, entry) in self.column[..known].iter().enumerate() {
            let k = t as u8 + 1;
            some |= ((k <= i) | (k == b)) & (self.preempting.0 < *entry);
        }
        some
    }

    // The judged row, the rows more urgent than it, and the blocker.
    fn judged_rows(&self) -> RowSet
        ensures { (k : ℕ) → Within priorities k → in_rows result k ≡ (nat_le k self.now.pair.row.0 || k == blocker_of self.now.pair.blocker) }
    {
        let rows = RowSet::up_to(self.pair.row);
        match self.pair.blocker {
            Some(b) => rows.with(b),
            None => rows,
        }
    }
}
