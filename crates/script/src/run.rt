ghost use Rattle.std.specs.Prelude.{◌≡◌, IfOk};
ghost use Rattle.sheet.specs.Views.{table_of};
ghost use Rattle.std.specs.List.{slice_get};
ghost use Rattle.script.specs.Lines.{script_of, calls_in};
ghost use Rattle.script.specs.Replies.{reply_for, left_after, replies_for, Reported};

use super::answer::Answered;
use super::line::{Line, Reply};
use super::parse::read_line;
use history::call::{Answer, Call};
use history::{Transcript, replay};
use sheet::table::Sheet;
use std::alloc::{AllocError, Global};
use std::slice::Iter;
use text::Lines;

/// What each line of a script comes to, and the sheet that its calls leave.
#[derive(Drop)]
pub struct Report {
    pub replies: Vec<Reply>,
    pub sheet: Sheet,
}

fn read_lines(text: &[u8], heap: Global) -> Result<Vec<Line>, AllocError>
    ensures { IfOk result (λ v. v.items ≡ script_of text.now) }
{
    Lines(text).map(read_line).collect(heap)
}

fn calls_of(lines: &[Line], heap: Global) -> Result<Vec<Call>, AllocError>
    ensures { IfOk result (λ v. v.items ≡ calls_in lines.now) }
{
    lines
        .iter()
        .filter_map(|line| line.ok().flatten())
        .collect(heap)
}

// The reply to a line, with the next answer where the line asks a call.
fn reply_to(line: Line, answers: &mut Iter<Answer>) -> Reply
    ensures reply { result ≡ reply_for line (slice_get answers.old.rest.now 0) }
    ensures rest { answers.new.rest.now ≡ left_after line answers.old.rest.now }
{
    let Some(call) = line? else {
        return Ok(None);
    };
    let answer = answers.next().copied();
    Ok(answer.map(|answer| Answered { call, answer }))
}

// Two lists side by side: the replay answers calls, and only a line that asks a call has an answer.
fn pair(lines: &[Line], answers: &[Answer], heap: Global) -> Result<Vec<Reply>, AllocError>
    ensures { IfOk result (λ v. v.items ≡ replies_for lines.now answers.now) }
{
    let mut replies = Vec::new(heap);
    let mut left = answers.iter();
    for line in lines {
        replies.push(reply_to(*line, &mut left))?;
    }
    Ok(replies)
}

/// Reads every line of a script and makes its calls on a fresh sheet. A line that is no call stops no other.
pub fn run_script(text: &[u8], heap: Global) -> Result<Report, AllocError>
    ensures { IfOk result (λ v. Reported text.now v.replies.items (table_of v.sheet)) }
{
    let lines = read_lines(text, heap)?;
    let calls = calls_of(&lines, heap)?;
    let Transcript { answers, sheet } = replay(&calls, heap)?;
    let replies = pair(&lines, &answers, heap)?;
    Ok(Report { replies, sheet })
}
