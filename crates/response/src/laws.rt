// What is known of every row test, over every sheet and every delay model. The functions here do nothing: each stands
// for the theorem in its contract.
ghost use Rattle.sheet.specs.Views.{table_of};
ghost use Rattle.theory.specs.Tests.{OneOutcome, JobsRun, EasierNeverLater, AlikeOutcomes};

use delay::model::DelayModel;
use sheet::table::Sheet;

/// Every row has exactly one outcome with a blocker in a column.
pub fn one_outcome<M: DelayModel>(sheet: &Sheet, model: &M)
    ensures { OneOutcome (table_of sheet.now) (M.charge model.now) }
{}

/// Every job of an active period starts, finishes after its start and within the active period, and after its release:
/// no response is cut off at 0.
pub fn jobs_run<M: DelayModel>(sheet: &Sheet, model: &M)
    ensures { JobsRun (table_of sheet.now) (M.charge model.now) }
{}

/// Easier is never later: a row that passes with a blocker in a column passes, with no greater response, in a column with
/// the same zeros and no greater number at the rows up to it and at the blocker.
pub fn easier_never_later<M: DelayModel>(sheet: &Sheet, model: &M)
    ensures { EasierNeverLater (table_of sheet.now) (M.charge model.now) }
{}

/// Columns with the same zeros and equal numbers at the rows up to the judged one and at the blocker give equal outcomes.
/// So no entry after the 32nd counts.
pub fn alike_outcomes<M: DelayModel>(sheet: &Sheet, model: &M)
    ensures { AlikeOutcomes (table_of sheet.now) (M.charge model.now) }
{}
