ghost use Rattle.std.specs.Prelude.{◌≡◌, ℕ, false, List};
ghost use Rattle.theory.specs.Delays.{affected, some_row};
ghost use Rattle.theory.specs.Reckonings.{Sharper, reloads};
ghost use Rattle.blocks.specs.Members.{has};
ghost use Rattle.blocks.specs.Views.{blocks_of};
ghost use Rattle.delay.specs.Reckonings.{among_size, lost_by};
ghost use Rattle.delay.specs.RowSets.{in_rows};
ghost use Rattle.delay.specs.Keeping.{reckoned_lawful};

use super::model::DelayModel;
use super::question::Question;
use super::reckoning::Reckoning;
use super::rows::RowSet;
use blocks::map::BlockMap;
use blocks::sets::CacheSets;
use names::Priority;

/// Models E, U, V and X: the reload time of a block for each block that is lost by a reckoning, 0 where no row is
/// affected.
#[derive(Clone, Copy)]
pub struct MapModel {
    pub reckoning: Reckoning,
    // Owned, so that a model can be returned and kept, with no map to be kept alive beside it.
    pub map: BlockMap,
}

impl MapModel {
    // The blocks that are lost, with the affected rows given.
    fn lost(&self, j: Priority, rows: RowSet) -> u32
        ensures { result ≡ lost_by self.now.reckoning (blocks_of self.now.map) j.0 (in_rows rows) }
    {
        match self.reckoning {
            Reckoning::EvictingOnly => {
                if rows.is_empty() {
                    0
                } else {
                    self.map.evicting(j).size()
                }
            }
            Reckoning::UsefulOnly => rows.largest(|k| self.map.useful(k).size()),
            Reckoning::UsefulUnion => {
                let useful = rows.union(|k| self.map.useful(k));
                useful.intersection(&self.map.evicting(j)).size()
            }
            Reckoning::EvictingUnion => {
                let evicting = RowSet::up_to(j).union(|p| self.map.evicting(p));
                rows.largest(|k| self.useful_among(k, &evicting))
            }
        }
    }

    // How many of row k's useful sets are among some sets.
    fn useful_among(&self, k: Priority, sets: &CacheSets) -> u32
        ensures { result ≡ among_size (blocks_of self.now.map) (has sets.now) k.0 }
    {
        self.map.useful(k).intersection(sets).size()
    }
}

impl DelayModel for MapModel {
    ghost charge = { λ m. reloads (lost_by m.reckoning) (blocks_of m.map) };

    ghost monotone = { λ m. (reckoned_lawful m.reckoning m.map).monotone };

    ghost bounded = { λ m. (reckoned_lawful m.reckoning m.map).bounded };

    fn charge_of(&self, question: &Question<'_>) -> u32 {
        if !question.in_range() {
            return 0;
        }
        let rows = question.affected_rows();
        u32::from(self.map.reload()) * self.lost(question.preempting, rows)
    }
}

/// Where no row is affected, nothing is charged.
pub fn unaffected(m: &MapModel)
    ensures { (i b j : ℕ) (h : List ℕ) → some_row (affected i b j h) ≡ false → reloads (lost_by m.now.reckoning) (blocks_of m.now.map) i b j h ≡ 0 }
{}

/// V never charges more than E, and X never more than U.
pub fn sharper(map: &BlockMap)
    ensures { Sharper (blocks_of map.now) }
{}
