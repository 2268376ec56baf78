use delay::question::{Pair, Question};
use names::Priority;

// What a model is asked of row i with a blocker, if it has one, and row j that pre-empts.
pub(super) fn question(i: u8, blocker: Option<u8>, j: u8, column: &[u8]) -> Question<'_> {
    let pair = Pair {
        row: Priority(i),
        blocker: blocker.map(Priority),
    };
    Question {
        pair,
        preempting: Priority(j),
        column,
    }
}
