// The definitions that every other crate cites, and the mathematics about them, in plain figures.
// The functions here do nothing: each stands for the theorem in its contract.
#![tactic(auto)]

ghost use Rattle.theory.specs.History.{CallsDecide};

/// Nothing but the calls of a history decides what its edits are answered and which rows they leave.
pub fn calls_decide() -> u8
    ensures { CallsDecide }
{
    0
}
