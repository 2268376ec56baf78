ghost use Rattle.std.specs.Prelude.{◌≡◌, ℕ, None};
ghost use Rattle.theory.specs.Columns.{fits_at, ColumnAnswer};
ghost use Rattle.theory.specs.Figures.{Sound};
ghost use Rattle.names.specs.Refusals.{refused};
ghost use Rattle.sheet.specs.Views.{figures, table_of};

use super::super::row::Row;
use super::Sheet;
use names::refusal::Refusal;
use names::{PRIORITIES, Priority};

impl Sheet {
    /// A fresh sheet, which has no rows.
    pub fn new() -> Sheet
        ensures { (p : ℕ) → table_of result p ≡ None }
    {
        let rows = [None; 32];
        Sheet { rows }
    }

    /// The row at a priority; none where there is none, and none outside 1 to 32.
    pub fn row(&self, p: Priority) -> Option<Row>
        ensures value { figures result ≡ table_of self.now p.0 }
        ensures sound { Sound (table_of self.now) }
    {
        let i = p.index().ok()?;
        self.rows[i]
    }

    // Whether the entry q fits at p. No row is 0, and no `None`: a column is the bytes of a scheduler's table.
    fn entry_fits(&self, p: Priority, q: u8) -> bool
        ensures { result ≡ fits_at (table_of self.now) p.0 q }
    {
        match self.row(p) {
            None => q == 0,
            Some(row) => row.cap.0 <= q && q <= p.0 && self.row(Priority(q)).is_some(),
        }
    }

    /// Whether a column of thresholds fits the sheet. Only its first 32 entries are read.
    pub fn check_column(&self, column: &[u8]) -> Result<(), Refusal>
        ensures { ColumnAnswer (table_of self.now) column.now (refused result) }
    {
        let Some(entries) = column.first_chunk::<32>() else {
            return Err(Refusal::ListTooShort);
        };
        for (i, q) in entries.iter().enumerate() {
            let p = Priority(i as u8 + 1);
            if !self.entry_fits(p, *q) {
                return Err(Refusal::ColumnMisfit(p.into()));
            }
        }
        Ok(())
    }
}
