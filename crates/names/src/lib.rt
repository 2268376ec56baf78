// The words that every crate shares: priorities, thresholds, timings and refusals.
#![tactic(auto)]

ghost use Rattle.std.specs.Prelude.{◌≡◌, ◌-◌, if◌then◌else◌, Some, Ok, Err, decimal};
ghost use Rattle.theory.specs.Figures.{priorities, within};

use refusal::{Place, Refusal};
use std::fmt;

pub mod refusal;

/// The least urgent priority.
pub const PRIORITIES: u8 = 32;

/// A base priority, of which 1 is the most urgent. A caller may name one outside 1 to 32, and is refused.
#[derive(Clone, Copy, PartialEq, Eq, Debug)]
pub struct Priority(pub u8);

/// A threshold number; a smaller one is stronger. It never stands where a base priority is asked for.
#[derive(Clone, Copy, PartialEq, Eq, Debug)]
pub struct Threshold(pub u8);

/// What a task asks of the processor, in ticks. A caller may give figures out of range, and is refused.
#[derive(Clone, Copy, PartialEq, Eq, Debug)]
pub struct Timing {
    pub run_time: u32,
    pub separation: u32,
    pub deadline: u32,
}

impl Priority {
    /// Where the entry of a priority stands in a list of 32, of which the first is that of priority 1.
    pub fn index(self) -> Result<usize, Refusal>
        ensures { result ≡ (if within priorities self.0 then Ok (self.0 - 1) else Err (Refusal.PriorityRange self.0)) }
    {
        if self.0 < 1 || self.0 > PRIORITIES {
            return Err(Refusal::PriorityRange(self.into()));
        }
        Ok(self.0 as usize - 1)
    }
}

impl From<Priority> for Place {
    ghost from_gives = { λ p place. place ≡ p.0 };

    fn from(p: Priority) -> Place {
        Place::from(p.0)
    }
}

impl fmt::Display for Priority {
    ghost output = { λ p. Some (decimal p.0) };

    fn fmt<W: fmt::Write>(&self, f: &mut fmt::Formatter<W>) -> fmt::Result {
        self.0.fmt(f)
    }
}

// As of a priority, once more: no macro of the repository may write an impl.
impl fmt::Display for Threshold {
    ghost output = { λ q. Some (decimal q.0) };

    fn fmt<W: fmt::Write>(&self, f: &mut fmt::Formatter<W>) -> fmt::Result {
        let Threshold(number) = self;
        number.fmt(f)
    }
}
