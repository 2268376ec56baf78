ghost use Rattle.std.specs.Prelude.{ℕ, ◌≤◌, slice_index_or};
ghost use Rattle.theory.specs.Blocks.{reload_top};
ghost use Rattle.blocks.specs.Footprints.{Nested, no_footprint};

use super::footprint::Footprint;

pub mod edits;
pub mod reads;

/// The ticks that a block takes to load again, from 0 to 1023, and the footprint of each row, in which every
/// useful block is evicting.
// The footprint of priority p stands at p - 1.
#[derive(Clone, Copy, PartialEq, Eq, Debug)]
pub struct BlockMap {
    reload: u16,
    footprints: [Footprint; 32],
    ghost small: { reload ≤ reload_top },
    ghost nested: { (k : ℕ) → Nested (slice_index_or footprints k no_footprint) },
}
