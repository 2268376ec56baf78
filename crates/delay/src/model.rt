ghost use Rattle.std.specs.Prelude.{◌≡◌, ℕ, ◌≤◌, List};
ghost use Rattle.theory.specs.Delays.{Alike, Charge, NoGreater, too_much};
ghost use Rattle.theory.proofs.Charging.{nothing_lawful};
ghost use Rattle.delay.specs.Blockers.{blocker_of};

use super::question::Question;

// A number, and no `None`: the laws order charges, and the switch adds to them.
/// The greatest charge, which means "too much".
pub const TOO_MUCH: u32 = 1_048_575;

/// A delay model: the ticks that each job of row j costs in cache reloads, while row i is judged with blocker b in a
/// column of thresholds. In the charge, b is 0 where there is no blocker.
///
/// Two laws make a model fit for the analysis. Stronger thresholds never cost more: of two columns that are 0 at the
/// same priorities, one that has no greater number at 1 to i and at b has no greater charge. And a charge is at most
/// 1048575.
pub trait DelayModel {
    ghost charge: { Self → Charge };

    /// The charge. It is never refused: every model here answers 0 where the judged or the pre-empting row is outside 1
    /// to 32 or the blocker is above 32, and an entry that the column does not have is a 0.
    fn charge_of(&self, question: &Question<'_>) -> u32
        ensures { result ≡ charge self.now question.now.pair.row.0 (blocker_of question.now.pair.blocker) question.now.preempting.0 question.now.column.now };

    ghost monotone: { (m : Self) (i b j : ℕ) (g h : List ℕ) → NoGreater i b g h → charge m i b j g ≤ charge m i b j h };

    ghost bounded: { (m : Self) (i b j : ℕ) (h : List ℕ) → charge m i b j h ≤ too_much };
}

/// Model N: reloads cost nothing.
#[derive(Clone, Copy)]
pub struct NoDelay;

impl DelayModel for NoDelay {
    ghost charge = { λ _ _ _ _ _. 0 };

    ghost monotone = { λ _. nothing_lawful.monotone };

    ghost bounded = { λ _. nothing_lawful.bounded };

    fn charge_of(&self, _question: &Question<'_>) -> u32 {
        0
    }
}

/// Of every delay model: columns with the same zeros and with equal entries at 1 to i and at b have equal charges.
/// So of a column nothing counts but these entries and where it is 0, and a missing entry is a 0.
pub fn alike<M: DelayModel>(m: &M)
    ensures { (i b j : ℕ) (g h : List ℕ) → Alike i b g h → M.charge m.now i b j g ≡ M.charge m.now i b j h }
{}
