ghost use Rattle.std.specs.Prelude.{Some};
ghost use Rattle.script.specs.Answers.{wrong_text};

use super::answer::Answered;
use history::call::Call;
use std::error::Error;
use std::fmt;
use text::NumberFault;

/// What is wrong with a line that is no call. Arguments are counted from 1.
#[derive(Clone, Copy, PartialEq, Eq, Debug)]
pub enum Mistake {
    UnknownCall,
    TooFewArguments,
    TooManyArguments,
    Argument(u8, NumberFault),
}

impl fmt::Display for Mistake {
    ghost output = { λ e. Some (wrong_text e) };

    fn fmt<W: fmt::Write>(&self, f: &mut fmt::Formatter<W>) -> fmt::Result {
        match self {
            Mistake::UnknownCall => {
                write!(f, "not a call; calls begin with enter, strike or cap")
            }
            Mistake::TooFewArguments => write!(f, "too few arguments"),
            Mistake::TooManyArguments => write!(f, "too many arguments"),
            Mistake::Argument(k, fault) => write!(f, "argument {k} is {fault}"),
        }
    }
}

impl Error for Mistake {}

/// What a line says: a call, unless it is blank.
pub type Line = Result<Option<Call>, Mistake>;

/// What a line of a script comes to: a call with its answer, unless the line is blank.
pub type Reply = Result<Option<Answered>, Mistake>;
