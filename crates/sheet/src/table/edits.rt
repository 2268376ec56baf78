ghost use Rattle.std.specs.Prelude.{◌≡◌, OnOk};
ghost use Rattle.theory.specs.Figures.{Timed};
ghost use Rattle.theory.specs.Edits.{enter, strike, limit, timing_refusal, Edited};
ghost use Rattle.names.specs.Refusals.{refused};
ghost use Rattle.names.specs.Timings.{timing_of};
ghost use Rattle.sheet.specs.Views.{table_of};

use super::super::row::Row;
use super::Sheet;
use names::refusal::Refusal;
use names::{Priority, Threshold, Timing};

const RUN_TIME_TOP: u32 = 16_777_215;

const TICKS_TOP: u32 = 100_000_000;

// Whether every figure is in range.
fn check_timing(p: Priority, timing: Timing) -> Result<(), Refusal>
    ensures answer { refused result ≡ timing_refusal p.0 (timing_of timing) }
    ensures ranges { OnOk result (Timed (timing_of timing)) }
{
    let place = p.into();
    if timing.run_time < 1 || timing.run_time > RUN_TIME_TOP {
        return Err(Refusal::RunTimeRange(place));
    }
    if timing.separation < 1 || timing.separation > TICKS_TOP {
        return Err(Refusal::SeparationRange(place));
    }
    if timing.deadline < 1 || timing.deadline > TICKS_TOP {
        return Err(Refusal::DeadlineRange(place));
    }
    Ok(())
}

impl Sheet {
    /// Puts a row at a priority, in place of one that is there, with cap 1.
    pub fn enter(&mut self, p: Priority, timing: Timing) -> Result<(), Refusal>
        ensures { Edited (enter p.0 (timing_of timing)) (table_of self.old) (refused result) (table_of self.new) }
    {
        let i = p.index()?;
        check_timing(p, timing)?;
        let fresh = Row {
            timing,
            cap: Threshold(1),
        };
        self.rows[i] = Some(fresh);
        Ok(())
    }

    /// Removes the row at a priority.
    pub fn strike(&mut self, p: Priority) -> Result<(), Refusal>
        ensures { Edited (strike p.0) (table_of self.old) (refused result) (table_of self.new) }
    {
        let i = p.index()?;
        if self.rows[i].is_none() {
            return Err(Refusal::NoRow(p.into()));
        }
        self.rows[i] = None;
        Ok(())
    }

    /// Gives the row at a priority another cap.
    pub fn cap(&mut self, p: Priority, to: Threshold) -> Result<(), Refusal>
        ensures { Edited (limit p.0 to.0) (table_of self.old) (refused result) (table_of self.new) }
    {
        let i = p.index()?;
        // Copied and written back: a row that is changed in its place gets no proof.
        let Some(mut row) = self.rows[i] else {
            return Err(Refusal::NoRow(p.into()));
        };
        if to.0 < 1 || to.0 > p.0 {
            return Err(Refusal::CapRange(p.into()));
        }
        row.cap = to;
        self.rows[i] = Some(row);
        Ok(())
    }
}
