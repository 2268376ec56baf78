ghost use Rattle.std.specs.Prelude.{◌≡◌, ◌<◌, ◌≤◌, Ok, Err};
ghost use Rattle.theory.specs.Delays.{switch_top};

use names::refusal::Refusal;

/// The most that a switch can cost, in ticks.
pub const SWITCH_TOP: u16 = 4095;

/// What a switch between two jobs costs, from 0 to 4095 ticks.
#[derive(Clone, Copy)]
pub struct SwitchCost {
    ticks: u16,
    ghost small: { ticks ≤ switch_top },
}

impl SwitchCost {
    // `new` and `ticks`, and no `TryFrom` and `From`: the names say the rule and the unit.
    /// Refused above 4095 ticks.
    pub fn new(ticks: u16) -> Result<SwitchCost, Refusal>
        ensures { elim result [ Ok w ↦ (w.ticks ≡ ticks) × (ticks ≤ switch_top) | Err e ↦ (e ≡ Refusal.SwitchCostRange) × (switch_top < ticks) ] }
    {
        if ticks > SWITCH_TOP {
            return Err(Refusal::SwitchCostRange);
        }
        Ok(SwitchCost { ticks })
    }

    /// The cost in ticks.
    pub fn ticks(self) -> u16
        ensures value { result ≡ self.ticks }
        ensures small { result ≤ switch_top }
    {
        self.ticks
    }
}
