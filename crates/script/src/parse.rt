ghost use Rattle.std.specs.Prelude.{◌≡◌, ◌+◌, ◌<◌, ◌≤◌, drop, IfOk, OnOk};
ghost use Rattle.text.specs.Text.{words};
ghost use Rattle.script.specs.Lines.{byte_top, argument, ended, enter_in, strike_in, cap_in, call_in, line_of};

use super::line::{Line, Mistake};
use history::call::Call;
use names::{Priority, Threshold, Timing};
use text::{read_number, split_word};

// The words after the name of a call, of which some have been taken. The count is what a mistake tells.
#[derive(Drop)]
struct Arguments<'a> {
    rest: &'a [u8],
    taken: u8,
}

impl<'a> Arguments<'a> {
    fn new(rest: &'a [u8]) -> Self
        ensures rest { result.rest.now ≡ rest.now }
        ensures taken { result.taken ≡ 0 }
    {
        Arguments { rest, taken: 0 }
    }

    // The next argument, a number up to the top.
    fn number(&mut self, top: u32) -> Result<u32, Mistake>
        requires { self.old.taken < 255 }
        ensures value { result ≡ argument (self.old.taken + 1) top (words self.old.rest.now) }
        ensures bound { IfOk result (λ n. n ≤ top) }
        ensures rest { OnOk result (words self.new.rest.now ≡ drop 1 (words self.old.rest.now)) }
        ensures taken { OnOk result (self.new.taken ≡ self.old.taken + 1) }
    {
        let (word, rest) = split_word(self.rest).ok_or(Mistake::TooFewArguments)?;
        self.rest = rest;
        self.taken += 1;
        read_number(word, top).map_err(|fault| Mistake::Argument(self.taken, fault))
    }

    // The next argument, a number up to 255.
    fn byte(&mut self) -> Result<u8, Mistake>
        requires { self.old.taken < 255 }
        ensures value { result ≡ argument (self.old.taken + 1) byte_top (words self.old.rest.now) }
        ensures rest { OnOk result (words self.new.rest.now ≡ drop 1 (words self.old.rest.now)) }
        ensures taken { OnOk result (self.new.taken ≡ self.old.taken + 1) }
    {
        let n = self.number(u32::from(u8::MAX))?;
        Ok(n as u8)
    }

    // The call, where no argument is left.
    fn end(&self, call: Call) -> Result<Call, Mistake>
        ensures { result ≡ ended call (words self.now.rest.now) }
    {
        match split_word(self.rest) {
            None => Ok(call),
            Some(_) => Err(Mistake::TooManyArguments),
        }
    }
}

fn read_enter(text: &[u8]) -> Result<Call, Mistake>
    ensures { result ≡ enter_in (words text.now) }
{
    let mut args = Arguments::new(text);
    let p = args.byte()?;
    let run_time = args.number(u32::MAX)?;
    let separation = args.number(u32::MAX)?;
    let deadline = args.number(u32::MAX)?;
    let timing = Timing {
        run_time,
        separation,
        deadline,
    };
    args.end(Call::Enter(Priority(p), timing))
}

fn read_strike(text: &[u8]) -> Result<Call, Mistake>
    ensures { result ≡ strike_in (words text.now) }
{
    let mut args = Arguments::new(text);
    let p = args.byte()?;
    args.end(Call::Strike(Priority(p)))
}

fn read_cap(text: &[u8]) -> Result<Call, Mistake>
    ensures { result ≡ cap_in (words text.now) }
{
    let mut args = Arguments::new(text);
    let p = args.byte()?;
    let to = args.byte()?;
    args.end(Call::Cap(Priority(p), Threshold(to)))
}

fn read_call(name: &[u8], text: &[u8]) -> Result<Call, Mistake>
    ensures { result ≡ call_in name.now (words text.now) }
{
    match name {
        b"enter" => read_enter(text),
        b"strike" => read_strike(text),
        b"cap" => read_cap(text),
        _ => Err(Mistake::UnknownCall),
    }
}

/// What a line says.
pub fn read_line(text: &[u8]) -> Line
    ensures { result ≡ line_of text.now }
{
    let Some((name, rest)) = split_word(text) else {
        return Ok(None);
    };
    Ok(Some(read_call(name, rest)?))
}
