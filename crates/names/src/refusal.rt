ghost use Rattle.std.specs.Prelude.{◌≡◌, Some};
ghost use Rattle.names.specs.Refusals.{fault_of};
ghost use Rattle.names.specs.Reasons.{reason};

use std::error::Error;
use std::fmt;

/// Where a rule was broken: a priority, a cache set or a record of a file; 0 where there is nothing to point at.
pub type Place = u16;

/// Every reason for which a call of the project is refused, in the order of their numbers, each with its place
/// where that is not always 0.
#[derive(Clone, Copy, PartialEq, Eq, Debug)]
pub enum Refusal {
    ListTooShort,
    PriorityRange(Place),
    RunTimeRange(Place),
    SeparationRange(Place),
    DeadlineRange(Place),
    NoRow(Place),
    CapRange(Place),
    ColumnMisfit(Place),
    NotBlocking(Place),
    UsefulNotEvicting(Place),
    ReloadRange,
    SwitchCostRange,
    NoColumn(Place),
    FileTooShort,
    UnknownVersion,
    UnknownLetter,
    WrongLayout,
    SpareByte(Place),
    PriorityOrder(Place),
}

impl Refusal {
    // A number, since it is told to programs that know no Rust.
    /// The number under which the rule is listed.
    pub fn number(self) -> u8
        ensures { result ≡ (fault_of self).number }
    {
        match self {
            Refusal::ListTooShort => 1,
            Refusal::PriorityRange(_) => 2,
            Refusal::RunTimeRange(_) => 3,
            Refusal::SeparationRange(_) => 4,
            Refusal::DeadlineRange(_) => 5,
            Refusal::NoRow(_) => 6,
            Refusal::CapRange(_) => 7,
            Refusal::ColumnMisfit(_) => 8,
            Refusal::NotBlocking(_) => 9,
            Refusal::UsefulNotEvicting(_) => 10,
            Refusal::ReloadRange => 11,
            Refusal::SwitchCostRange => 12,
            Refusal::NoColumn(_) => 13,
            Refusal::FileTooShort => 14,
            Refusal::UnknownVersion => 15,
            Refusal::UnknownLetter => 16,
            Refusal::WrongLayout => 17,
            Refusal::SpareByte(_) => 18,
            Refusal::PriorityOrder(_) => 19,
        }
    }

    /// Where the rule was broken.
    pub fn place(self) -> Place
        ensures { result ≡ (fault_of self).place }
    {
        match self {
            Refusal::ListTooShort
            | Refusal::ReloadRange
            | Refusal::SwitchCostRange
            | Refusal::FileTooShort
            | Refusal::UnknownVersion
            | Refusal::UnknownLetter
            | Refusal::WrongLayout => 0,
            Refusal::PriorityRange(p)
            | Refusal::RunTimeRange(p)
            | Refusal::SeparationRange(p)
            | Refusal::DeadlineRange(p)
            | Refusal::NoRow(p)
            | Refusal::CapRange(p)
            | Refusal::ColumnMisfit(p)
            | Refusal::NotBlocking(p)
            | Refusal::UsefulNotEvicting(p)
            | Refusal::NoColumn(p)
            | Refusal::SpareByte(p)
            | Refusal::PriorityOrder(p) => p,
        }
    }
}

impl fmt::Display for Refusal {
    ghost output = { λ r. Some (reason r) };

    fn fmt<W: fmt::Write>(&self, f: &mut fmt::Formatter<W>) -> fmt::Result {
        f.write_str(match self {
            Refusal::ListTooShort => "a list has too few entries",
            Refusal::PriorityRange(_) => "a priority is from 1 to 32",
            Refusal::RunTimeRange(_) => "a run time is from 1 to 16777215 ticks",
            Refusal::SeparationRange(_) => "a separation is from 1 to 100000000 ticks",
            Refusal::DeadlineRange(_) => "a deadline is from 1 to 100000000 ticks",
            Refusal::NoRow(_) => "there is no row",
            Refusal::CapRange(_) => "a cap is from 1 to its row's priority",
            Refusal::ColumnMisfit(_) => "the column does not fit the sheet",
            Refusal::NotBlocking(_) => "the blocker does not block the row",
            Refusal::UsefulNotEvicting(_) => "a useful set has to be evicting",
            Refusal::ReloadRange => "a reload time is at most 1023 ticks",
            Refusal::SwitchCostRange => "a switch cost is at most 4095 ticks",
            Refusal::NoColumn(_) => "no column passes",
            Refusal::FileTooShort => "a sheet file has at least 16 bytes",
            Refusal::UnknownVersion => "the version of the sheet file is unknown",
            Refusal::UnknownLetter => "no delay model has the letter",
            Refusal::WrongLayout => "the sheet file does not keep the layout",
            Refusal::SpareByte(_) => "a spare byte is 0",
            Refusal::PriorityOrder(_) => "priorities rise from record to record",
        })
    }
}

impl Error for Refusal {}
