ghost use Rattle.std.specs.Prelude.{◌≡◌, ◌<◌, length, IfOk, slice_set};
ghost use Rattle.names.specs.Refusals.{refused};
ghost use Rattle.sheet.specs.Views.{table_of};
ghost use Rattle.theory.specs.Columns.{put};
ghost use Rattle.theory.specs.Tests.{TrialRefusal, Found};
ghost use Rattle.response.specs.Testing.{BlockerNamed, failure_of};

use super::checks::row_at;
use super::tests::{Failure, column_test};
use delay::model::DelayModel;
use names::refusal::Refusal;
use names::{Priority, Threshold};
use sheet::table::Sheet;

// A column with another entry in it for a while: dropping the guard writes the old entry back.
struct Replaced<'a> {
    column: &'a mut [u8],
    at: usize,
    old: u8,
}

impl Drop for Replaced<'_> {
    fn drop(self)
        requires { self.at < length self.column.now }
        ensures { self.exit.0.now ≡ slice_set self.entry.column.now self.entry.at self.entry.old }
    {
        self.column[self.at] = self.old;
        let Replaced {
            column: _,
            at: _,
            old: _,
        } = self;
    }
}

impl Replaced<'_> {
    fn column(&self) -> &[u8]
        ensures { result.now ≡ self.entry.now.column.now }
    {
        self.column
    }
}

/// Puts a threshold into the caller's column for one column test. On every way out the column is as it was.
pub fn trial<M: DelayModel>(
    sheet: &Sheet,
    model: &M,
    column: &mut [u8],
    p: Priority,
    q: Threshold,
) -> Result<Option<Failure>, Refusal>
    ensures kept { column.new ≡ column.old }
    ensures refusal { TrialRefusal (table_of sheet.now) column.old p.0 q.0 (refused result) }
    ensures finding { IfOk result (λ f. Found (table_of sheet.now) (M.charge model.now) (put column.old p.0 q.0) (failure_of f)) }
    ensures named { IfOk result BlockerNamed }
{
    row_at(sheet, column, p)?;
    let at = p.index()?;
    let old = column[at];
    let guard = Replaced { column, at, old };
    guard.column[at] = q.0;
    column_test(sheet, model, guard.column())
}
