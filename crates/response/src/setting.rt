ghost use Rattle.std.specs.Prelude.{◌≡◌, ◌≤◌, length, Some};
ghost use Rattle.names.specs.Timings.{timing_of};
ghost use Rattle.sheet.specs.Views.{figures, table_of};
ghost use Rattle.theory.specs.Columns.{Fits, entry, may_block};
ghost use Rattle.theory.specs.Equations.{question, contribution};
ghost use Rattle.theory.specs.Figures.{Within};
ghost use Rattle.theory.specs.Outcomes.{Judged};
ghost use Rattle.theory.specs.Tests.{Found};
ghost use Rattle.delay.specs.Blockers.{blocker_of};
ghost use Rattle.response.specs.Gathering.{charges_in, Gathers, Sourced};
ghost use Rattle.response.specs.Testing.{BlockerNamed, failure_of};
ghost use Rattle.response.specs.Verdicts.{verdict_of};

use super::case::Case;
use super::outcome::Outcome;
use super::source::{Above, Source};
use super::tests::Failure;
use delay::model::{DelayModel, TOO_MUCH};
use delay::question::{Pair, Question};
use names::{PRIORITIES, Priority};
use sheet::row::Row;
use sheet::table::Sheet;

/// A sheet, a delay model, and a column that fits the sheet.
#[derive(Drop)]
pub struct Setting<'a, M> {
    pub sheet: &'a Sheet,
    pub model: &'a M,
    pub column: &'a [u8],
    ghost wide: { 32 ≤ length column.now },
    ghost fits: { Fits (table_of sheet.now) column.now },
}

impl<M: DelayModel> Setting<'_, M> {
    fn threshold(&self, p: Priority) -> u8
        requires { Within 32 p.0 }
        ensures { result ≡ entry self.now.column.now p.0 }
    {
        self.column[p.index().unwrap()]
    }

    /// Whether the pair has no blocker, or its blocker blocks the row.
    pub fn may_block(&self, pair: Pair) -> bool
        ensures { result ≡ may_block self.now.column.now (blocker_of pair.blocker) pair.row.0 }
    {
        let i = pair.row;
        match pair.blocker {
            // No row has priority 0, so that it names no blocker either.
            None | Some(Priority(0)) => true,
            Some(b) if b.0 <= i.0 || b.0 > PRIORITIES => false,
            Some(b) => (1..=i.0).contains(&self.threshold(b)),
        }
    }

    // What a blocker contributes.
    fn blocking(&self, blocker: Option<Priority>) -> u32
        ensures value { result ≡ contribution (table_of self.now.sheet.now) (blocker_of blocker) }
        ensures bound { result ≤ 16777215 }
    {
        match blocker.and_then(|b| self.sheet.row(b)) {
            Some(row) => row.timing.run_time,
            None => 0,
        }
    }

    // The source at priority j, if a row is there; that priority, if its row is charged too much.
    fn source(&self, pair: Pair, j: Priority) -> Result<Option<Source>, Priority>
        ensures { Sourced (table_of self.now.sheet.now) (charges_in (M.charge self.now.model.now) self.now.column.now pair.row.0 (blocker_of pair.blocker)) j.0 result }
    {
        let Some(row) = self.sheet.row(j) else {
            return Ok(None);
        };
        let charge = self.model.charge_of(&Question {
            pair,
            preempting: j,
            column: self.column,
        });
        if charge == TOO_MUCH {
            return Err(j);
        }
        let price = row.timing.run_time + charge;
        Ok(Some(Source { row, price }))
    }

    // The rows above, of which those below the threshold can pre-empt; or the most urgent that is charged too much.
    fn sources_above(&self, pair: Pair, own: Row, threshold: u8) -> Result<Above, Priority>
        requires { Within 32 pair.row.0 }
        ensures { Gathers (table_of self.now.sheet.now) (charges_in (M.charge self.now.model.now) self.now.column.now pair.row.0 (blocker_of pair.blocker)) threshold pair.row.0 result }
    {
        // A place behind the last row is not read, and the judged row fills it.
        let filler = Source { row: own, price: 0 };
        let mut sources = [filler; 32];
        let mut len = 0;
        let mut preempting = 0;
        for j in 1..pair.row.0 {
            if let Some(source) = self.source(pair, Priority(j))? {
                sources[len] = source;
                len += 1;
                if j < threshold {
                    preempting = len;
                }
            }
        }
        Ok(Above {
            sources,
            preempting,
            len,
        })
    }

    /// The outcome of a row with a blocker. Every charge is asked for once.
    pub fn judge(&self, pair: Pair, own: Row) -> Outcome
        requires { figures (Some own) ≡ table_of self.now.sheet.now pair.row.0 }
        ensures { Judged (question (table_of self.now.sheet.now) (M.charge self.now.model.now) self.now.column.now pair.row.0 (blocker_of pair.blocker) (timing_of own.timing)) (verdict_of result) }
    {
        // A match: what is an error there is an outcome here.
        let above = match self.sources_above(pair, own, self.threshold(pair.row)) {
            Ok(above) => above,
            Err(j) => return Outcome::TooMuch(j),
        };
        let (preempting, others) = above.sources[..above.len].split_at(above.preempting);
        let case = Case {
            own,
            blocking: self.blocking(pair.blocker),
            preempting,
            others,
        };
        case.outcome()
    }

    /// The first row and blocker that fail, by rising priority, no blocker first.
    pub fn first_failure(&self) -> Option<Failure>
        ensures finding { Found (table_of self.now.sheet.now) (M.charge self.now.model.now) self.now.column.now (failure_of result) }
        ensures named { BlockerNamed result }
    {
        'search: {
            for p in 1..=PRIORITIES {
                let i = Priority(p);
                let Some(row) = self.sheet.row(i) else {
                    continue;
                };
                // From 0, which stands for no blocker here, so that one loop judges both.
                for b in 0..=PRIORITIES {
                    let pair = Pair {
                        row: i,
                        blocker: (b != 0).then_some(Priority(b)),
                    };
                    if !self.may_block(pair) {
                        continue;
                    }
                    let outcome = self.judge(pair, row);
                    if !outcome.passes() {
                        break 'search Some((i, pair.blocker, outcome));
                    }
                }
            }
            None
        }
    }
}
