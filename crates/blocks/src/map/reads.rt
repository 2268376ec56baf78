ghost use Rattle.std.specs.Prelude.{◌≡◌, ◌≤◌};
ghost use Rattle.theory.specs.Sets.{Inside, SameSets, cache_sets};
ghost use Rattle.theory.specs.Blocks.{reload_top};
ghost use Rattle.blocks.specs.Members.{has};
ghost use Rattle.blocks.specs.Views.{blocks_of};

use super::super::footprint::Footprint;
use super::super::sets::CacheSets;
use super::BlockMap;
use names::Priority;

impl BlockMap {
    /// The ticks that a block takes to load again.
    pub fn reload(&self) -> u16
        ensures value { result ≡ (blocks_of self.now).reload }
        ensures small { result ≤ reload_top }
    {
        self.reload
    }

    /// The evicting sets at a priority; none outside 1 to 32.
    pub fn evicting(&self, p: Priority) -> CacheSets
        ensures { SameSets (has result) ((blocks_of self.now).evicting p.0) }
    {
        self.footprint_at(p).evicting
    }

    /// The useful sets at a priority; none outside 1 to 32.
    pub fn useful(&self, p: Priority) -> CacheSets
        ensures value { SameSets (has result) ((blocks_of self.now).useful p.0) }
        ensures nested { Inside cache_sets (has result) ((blocks_of self.now).evicting p.0) }
    {
        self.footprint_at(p).useful
    }

    fn footprint_at(&self, p: Priority) -> Footprint
        ensures evicting { SameSets (has result.evicting) ((blocks_of self.now).evicting p.0) }
        ensures useful { SameSets (has result.useful) ((blocks_of self.now).useful p.0) }
        ensures nested { Inside cache_sets (has result.useful) (has result.evicting) }
    {
        p.index()
            .map_or(Footprint::default(), |k| self.footprints[k])
    }

    /// Whether the row at a priority loads blocks into set s.
    pub fn is_evicting(&self, p: Priority, s: u8) -> bool
        ensures { result ≡ (blocks_of self.now).evicting p.0 s }
    {
        self.evicting(p).contains(s)
    }

    /// Whether the row at a priority uses the block in set s again.
    pub fn is_useful(&self, p: Priority, s: u8) -> bool
        ensures { result ≡ (blocks_of self.now).useful p.0 s }
    {
        self.useful(p).contains(s)
    }
}
