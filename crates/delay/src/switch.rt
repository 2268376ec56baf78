ghost use Rattle.theory.specs.Delays.{switched};
ghost use Rattle.theory.proofs.Charging.{switched_bounded, switched_monotone};

use super::model::{DelayModel, TOO_MUCH};
use super::question::Question;
use super::switch_cost::SwitchCost;

/// The cost of a switch over another model: the charge below, and the cost when some row is affected, but never more
/// than too much. It is a model again.
#[derive(Clone, Copy)]
pub struct Switch<M> {
    pub below: M,
    pub cost: SwitchCost,
}

impl<M: DelayModel> DelayModel for Switch<M> {
    ghost charge = { λ s. switched s.cost.ticks (M.DelayModel.charge s.below) };

    ghost monotone = { λ s. switched_monotone s.cost.ticks (M.DelayModel.charge s.below) (M.DelayModel.monotone s.below) };

    ghost bounded = { λ s. switched_bounded s.cost.ticks (M.DelayModel.charge s.below) };

    fn charge_of(&self, question: &Question<'_>) -> u32 {
        if !question.in_range() {
            return 0;
        }
        let below = self.below.charge_of(question);
        if question.any_affected() {
            (below + u32::from(self.cost.ticks())).min(TOO_MUCH)
        } else {
            below
        }
    }
}
