ghost use Rattle.std.specs.Prelude.{◌≡◌, Bool};
ghost use Rattle.theory.specs.Outcomes.{verdict_number, passed};
ghost use Rattle.response.specs.Verdicts.{verdict_of};

use names::Priority;

// Four outcomes of one standing, in the order in which they apply, and no `Result`: none is an error of the test.
/// What a row test finds, the first of these that applies. Jobs are counted from 0, and responses are in ticks.
#[derive(Clone, Copy, PartialEq, Eq, Debug)]
pub enum Outcome {
    /// A row above is charged too much; the most urgent such row.
    TooMuch(Priority),
    /// No active period of 100000000 ticks or less ends.
    NoPeriod,
    /// The first job that misses the deadline, and its response.
    Late { job: u32, response: u32 },
    /// Every job meets the deadline; the greatest response.
    Passes { response: u32 },
}

impl Outcome {
    // A number, since it is the order in which they apply.
    /// The outcomes in their order, from 1.
    pub fn number(self) -> u8
        ensures { result ≡ verdict_number (verdict_of self) }
    {
        match self {
            Outcome::TooMuch(_) => 1,
            Outcome::NoPeriod => 2,
            Outcome::Late { .. } => 3,
            Outcome::Passes { .. } => 4,
        }
    }

    pub fn passes(self) -> bool
        ensures { result ≡ passed (verdict_of self) }
    {
        matches!(self, Outcome::Passes { .. })
    }
}
