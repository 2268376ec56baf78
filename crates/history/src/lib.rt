// Calls on a sheet, their answers, and the replay of a list of calls from a fresh sheet.
#![tactic(auto)]

ghost use Rattle.std.specs.Prelude.{◌≡◌, ◌≤◌, length, take, drop, IfOk};
ghost use Rattle.theory.specs.Edits.{Edited};
ghost use Rattle.theory.specs.History.{Replayed};
ghost use Rattle.sheet.specs.Views.{table_of};
ghost use Rattle.names.specs.Refusals.{refused};
ghost use Rattle.history.specs.Calls.{edit_of, edits_of, faults_in, ReplayedInto};

pub mod call;

use call::{Answer, Call};
use names::refusal::Refusal;
use sheet::table::Sheet;
use std::alloc::{AllocError, Global};

/// What a list of calls comes to: the answer to each, in their order, and the sheet that they leave.
#[derive(Drop)]
pub struct Transcript {
    pub answers: Vec<Answer>,
    pub sheet: Sheet,
}

/// Makes one call.
pub fn apply(sheet: &mut Sheet, call: Call) -> Answer
    ensures { Edited (edit_of call) (table_of sheet.old) (refused result) (table_of sheet.new) }
{
    // A call is data, which is told, compared and printed: a closure in its place could only be called.
    match call {
        Call::Enter(p, timing) => sheet.enter(p, timing),
        Call::Strike(p) => sheet.strike(p),
        Call::Cap(p, to) => sheet.cap(p, to),
    }
}

// Makes all the calls, in their order, on a fresh sheet, and writes their answers to the front of a list.
fn make_calls(calls: &[Call], answers: &mut [Answer]) -> Sheet
    requires { length calls.now ≤ length answers.old }
    ensures replays { Replayed (edits_of calls.now) (faults_in (take (length calls.now) answers.new)) (table_of result) }
    ensures rest { drop (length calls.now) answers.new ≡ drop (length calls.now) answers.old }
{
    let mut sheet = Sheet::new();
    // By place: over a zip with answers.iter_mut() `search` did not prove `returns-clause-replays`, as it knows no answer.
    for (i, call) in calls.iter().enumerate() {
        answers[i] = apply(&mut sheet, *call);
    }
    sheet
}

/// Makes all the calls, in their order, on a fresh sheet. The answers are written to the front of a list; refused, with
/// nothing written, where it is shorter than the calls.
pub fn replay_into(calls: &[Call], answers: &mut [Answer]) -> Result<Sheet, Refusal>
    ensures { ReplayedInto calls.now answers.old answers.new result }
{
    if answers.len() < calls.len() {
        return Err(Refusal::ListTooShort);
    }
    Ok(make_calls(calls, answers))
}

/// Makes all the calls, in their order, on a fresh sheet.
pub fn replay(calls: &[Call], heap: Global) -> Result<Transcript, AllocError>
    ensures { IfOk result (λ v. Replayed (edits_of calls.now) (faults_in v.answers.items) (table_of v.sheet)) }
{
    let mut answers = vec![in heap; Ok(()); calls.len()]?;
    let sheet = make_calls(calls, &mut answers);
    Ok(Transcript { answers, sheet })
}
