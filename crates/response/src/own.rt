ghost use Rattle.sheet.specs.Views.{table_of};
ghost use Rattle.theory.specs.Columns.{OwnColumn};
ghost use Rattle.response.specs.Own.{OutcomeAt, OwnOutcomes};

use super::outcome::Outcome;
use super::setting::Setting;
use delay::model::DelayModel;
use delay::question::Pair;
use names::Priority;
use sheet::table::Sheet;
use std::array;

/// The column in which each row has its own priority as its threshold, and so blocks no other row.
pub fn own_column(sheet: &Sheet) -> [u8; 32]
    ensures { OwnColumn (table_of sheet.now) result }
{
    // 0 where no row is, as in every column.
    array::from_fn(|k| {
        let p = k as u8 + 1;
        sheet.row(Priority(p)).map_or(0, |_| p)
    })
}

impl<M: DelayModel> Setting<'_, M> {
    // The outcome of the row at p without a blocker, if a row is there.
    fn unblocked(&self, p: Priority) -> Option<Outcome>
        ensures { OutcomeAt (table_of self.now.sheet.now) (M.charge self.now.model.now) self.now.column.now p.0 result }
    {
        let row = self.sheet.row(p)?;
        let pair = Pair {
            row: p,
            blocker: None,
        };
        Some(self.judge(pair, row))
    }
}

/// The outcome of each row in the column of own priorities, where no row has a blocker; none where no row is. The
/// first is that of priority 1.
pub fn own_outcomes<M: DelayModel>(sheet: &Sheet, model: &M) -> [Option<Outcome>; 32]
    ensures { OwnOutcomes (table_of sheet.now) (M.charge model.now) result }
{
    let column = &own_column(sheet);
    let setting = Setting {
        sheet,
        model,
        column,
    };
    array::from_fn(|k| setting.unblocked(Priority(k as u8 + 1)))
}
