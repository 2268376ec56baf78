ghost use Rattle.std.specs.Prelude.{◌≡◌, ◌<◌, ◌≤◌, Ok, Err};
ghost use Rattle.theory.specs.Blocks.{FootprintAnswer, SameBlocks, fresh_blocks, reload_top, with_footprint};
ghost use Rattle.theory.specs.Figures.{after};
ghost use Rattle.names.specs.Refusals.{refused};
ghost use Rattle.blocks.specs.Members.{has};
ghost use Rattle.blocks.specs.Views.{blocks_of};

use super::super::footprint::Footprint;
use super::super::sets::CacheSets;
use super::BlockMap;
use names::Priority;
use names::refusal::Refusal;

/// The longest reload time of a block, in ticks.
pub const RELOAD_TOP: u16 = 1023;

impl BlockMap {
    /// A fresh map, in which no row has a block.
    pub fn new(reload: u16) -> Result<BlockMap, Refusal>
        ensures { elim result [ Ok m ↦ (reload ≤ reload_top) × SameBlocks (blocks_of m) (fresh_blocks reload) | Err e ↦ (reload_top < reload) × (e ≡ Refusal.ReloadRange) ] }
    {
        if reload > RELOAD_TOP {
            return Err(Refusal::ReloadRange);
        }
        let none = Footprint::default();
        Ok(BlockMap {
            reload,
            footprints: [none; 32],
        })
    }

    /// Gives a row other evicting and useful sets. Every useful one has to be evicting.
    pub fn footprint(
        &mut self,
        p: Priority,
        evicting: CacheSets,
        useful: CacheSets,
    ) -> Result<(), Refusal>
        ensures answer { FootprintAnswer p.0 (has evicting) (has useful) (refused result) }
        ensures left { SameBlocks (blocks_of self.new) (after (refused result) (with_footprint p.0 (has evicting) (has useful) (blocks_of self.old)) (blocks_of self.old)) }
    {
        let k = p.index()?;
        if let Some(s) = useful.first_outside(&evicting) {
            return Err(Refusal::UsefulNotEvicting(s.into()));
        }
        self.footprints[k] = Footprint { evicting, useful };
        Ok(())
    }
}
