ghost use Rattle.std.specs.Prelude.{Some};
ghost use Rattle.script.specs.Answers.{answer_text, mistake_text};

use super::line::Mistake;
use history::call::{Answer, Call};
use std::error::Error;
use std::fmt;

/// A call and its answer, printed as the line that the call is answered with.
#[derive(Clone, Copy, PartialEq, Eq, Debug)]
pub struct Answered {
    pub call: Call,
    pub answer: Answer,
}

impl fmt::Display for Answered {
    ghost output = { λ a. Some (answer_text a.call a.answer) };

    fn fmt<W: fmt::Write>(&self, f: &mut fmt::Formatter<W>) -> fmt::Result {
        match (self.answer, self.call) {
            (Err(refusal), _) => write!(f, "refused {} at {}", refusal.number(), refusal.place()),
            (Ok(()), Call::Enter(p, _)) => write!(f, "entered {p}"),
            (Ok(()), Call::Strike(p)) => write!(f, "struck {p}"),
            (Ok(()), Call::Cap(p, to)) => write!(f, "capped {p} at {to}"),
        }
    }
}

/// A mistake at a line, whose number is counted from 1, printed as the message about that line.
#[derive(Clone, Copy, PartialEq, Eq, Debug)]
pub struct Misread {
    pub number: usize,
    pub mistake: Mistake,
}

impl fmt::Display for Misread {
    ghost output = { λ m. Some (mistake_text m.number m.mistake) };

    fn fmt<W: fmt::Write>(&self, f: &mut fmt::Formatter<W>) -> fmt::Result {
        write!(f, "line {}: {}", self.number, self.mistake)
    }
}

impl Error for Misread {}
