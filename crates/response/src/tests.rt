ghost use Rattle.std.specs.Prelude.{IfOk};
ghost use Rattle.names.specs.Refusals.{refused};
ghost use Rattle.sheet.specs.Views.{table_of};
ghost use Rattle.theory.specs.Columns.{ColumnAnswer};
ghost use Rattle.theory.specs.Tests.{RowRefusal, RowOutcome, Found};
ghost use Rattle.delay.specs.Blockers.{blocker_of};
ghost use Rattle.response.specs.Testing.{BlockerNamed, failure_of};
ghost use Rattle.response.specs.Verdicts.{verdict_of};

use super::checks::row_at;
use super::outcome::Outcome;
use super::setting::Setting;
use delay::model::DelayModel;
use delay::question::Pair;
use names::Priority;
use names::refusal::Refusal;
use sheet::table::Sheet;

// Three values side by side, as they are told: a failure is no pair to judge again.
/// A row, its blocker, if it has one, and the outcome by which the row fails.
pub type Failure = (Priority, Option<Priority>, Outcome);

// Sheet, model and column stay three parameters: a caller changes each without the others, and a trial changes the column.
/// Judges a row with a blocker in a column of thresholds. Only the first 32 entries of the column count.
pub fn row_test<M: DelayModel>(
    sheet: &Sheet,
    model: &M,
    column: &[u8],
    pair: Pair,
) -> Result<Outcome, Refusal>
    ensures refusal { RowRefusal (table_of sheet.now) column.now pair.row.0 (blocker_of pair.blocker) (refused result) }
    ensures outcome { IfOk result (λ o. RowOutcome (table_of sheet.now) (M.charge model.now) column.now pair.row.0 (blocker_of pair.blocker) (verdict_of o)) }
{
    let row = row_at(sheet, column, pair.row)?;
    sheet.check_column(column)?;
    let setting = Setting {
        sheet,
        model,
        column,
    };
    match pair.blocker {
        Some(b) if !setting.may_block(pair) => Err(Refusal::NotBlocking(b.into())),
        _ => Ok(setting.judge(pair, row)),
    }
}

/// Judges every row of a column, by rising priority, without a blocker and then with each row that blocks it, by rising
/// priority. It stops at the first failure; none says that the column passes.
pub fn column_test<M: DelayModel>(
    sheet: &Sheet,
    model: &M,
    column: &[u8],
) -> Result<Option<Failure>, Refusal>
    ensures refusal { ColumnAnswer (table_of sheet.now) column.now (refused result) }
    ensures finding { IfOk result (λ f. Found (table_of sheet.now) (M.charge model.now) column.now (failure_of f)) }
    ensures named { IfOk result BlockerNamed }
{
    sheet.check_column(column)?;
    let setting = Setting {
        sheet,
        model,
        column,
    };
    Ok(setting.first_failure())
}
