ghost use Rattle.std.specs.Prelude.{◌≡◌, ℕ, ◌&&◌, ◌||◌, ◌==◌, not};
ghost use Rattle.std.specs.Iterator.{YieldsFirstBy, item_count};
ghost use Rattle.theory.specs.Delays.{preempts, some_row};
ghost use Rattle.theory.specs.Figures.{Within, priorities};
ghost use Rattle.theory.specs.Reckonings.{up_to};
ghost use Rattle.theory.specs.Sets.{SameSets, Sets, largest, union_over};
ghost use Rattle.blocks.specs.Members.{has};
ghost use Rattle.delay.specs.RowSets.{in_rows, rows_left};

use blocks::sets::CacheSets;
use names::{PRIORITIES, Priority};

// No twin of `CacheSets`: its members are priorities from 1, and any may be asked for; those are numbers from 0, and all of them sets.
/// Some of the 32 rows.
// Row k is bit k - 1.
#[derive(Clone, Copy, PartialEq, Eq, Debug)]
pub struct RowSet(u32);

// The rows of a set that are still to come, the most urgent first.
#[derive(Clone, Copy, Drop)]
struct Rows(RowSet);

impl Iterator for Rows {
    type Item = Priority;

    ghost next_gives = { YieldsFirstBy (λ k. k.0) (λ s. rows_left s.0) };

    ghost remaining = { item_count (λ s. rows_left s.0) };

    fn next(&mut self) -> Option<Priority> {
        let bits = self.0.0;
        if bits == 0 {
            return None;
        }
        self.0.0 = bits & (bits - 1);
        Some(Priority(bits.trailing_zeros() as u8 + 1))
    }
}

impl RowSet {
    // The rows up to j.
    pub(super) fn up_to(j: Priority) -> RowSet
        ensures { (k : ℕ) → Within priorities k → in_rows result k ≡ up_to j.0 k }
    {
        // A shift: a test of each row takes 9 ns more.
        RowSet(((1u64 << j.0.min(PRIORITIES)) - 1) as u32)
    }

    // The rows of a column that row j can pre-empt. A missing entry is 0, so that no row can pre-empt there.
    pub(super) fn pre_empted_by(j: Priority, column: &[u8]) -> RowSet
        ensures { (k : ℕ) → Within priorities k → in_rows result k ≡ preempts column.now j.0 k }
    {
        // Over a slice: a `zip` of the entries with the numbers of the rows takes twice as long.
        let known = column.len().min(PRIORITIES as usize);
        let mut rows = 0u32;
        for (t, entry) in column[..known].iter().enumerate() {
            if j.0 < *entry {
                rows |= 1 << t;
            }
        }
        RowSet(rows)
    }

    // These rows and row k, if it is one.
    pub(super) fn with(self, k: Priority) -> RowSet
        ensures { (p : ℕ) → Within priorities p → in_rows result p ≡ (in_rows self p || p == k.0) }
    {
        match k.index() {
            Ok(t) => RowSet(self.0 | 1 << t),
            Err(_) => self,
        }
    }

    // The rows that are among these and the others.
    pub(super) fn intersection(self, other: RowSet) -> RowSet
        ensures { (k : ℕ) → in_rows result k ≡ (in_rows self k && in_rows other k) }
    {
        RowSet(self.0 & other.0)
    }

    /// Whether row k is among these; no row is outside 1 to 32.
    pub fn contains(self, k: Priority) -> bool
        ensures { result ≡ in_rows self k.0 }
    {
        k.index().is_ok_and(|t| self.0 >> t & 1 == 1)
    }

    /// Whether these are no rows.
    pub fn is_empty(self) -> bool
        ensures { result ≡ not (some_row (in_rows self)) }
    {
        self.0 == 0
    }

    // The union of a set for each of these rows.
    pub(super) fn union<F: Fn(Priority) -> CacheSets>(self, sets: F) -> CacheSets
        requires { F.IsAlwaysCallable sets }
        ensures { (x : ℕ → Sets) → ((k : _) (s : _) → F.post sets k s → SameSets (has s) (x k.0)) → SameSets (has result) (union_over (in_rows self) x) }
    {
        Rows(self).fold(CacheSets::empty(), |all, k| all.union(&sets(k)))
    }

    // The largest of a number for each of these rows, 0 where there is no row.
    pub(super) fn largest<F: Fn(Priority) -> u32>(self, number: F) -> u32
        requires { F.IsAlwaysCallable number }
        ensures { (f : ℕ → ℕ) → ((k : _) (n : _) → F.post number k n → n ≡ f k.0) → result ≡ largest (in_rows self) f }
    {
        Rows(self).fold(0, |most, k| most.max(number(k)))
    }
}
