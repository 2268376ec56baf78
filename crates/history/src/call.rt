use names::refusal::Refusal;
use names::{Priority, Threshold, Timing};

/// A call that edits a sheet.
#[derive(Clone, Copy, PartialEq, Eq, Debug)]
pub enum Call {
    Enter(Priority, Timing),
    Strike(Priority),
    Cap(Priority, Threshold),
}

/// What a call is answered: nothing where it was accepted, else why it was refused.
pub type Answer = Result<(), Refusal>;
