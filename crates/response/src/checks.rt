ghost use Rattle.sheet.specs.Views.{table_of};
ghost use Rattle.response.specs.Testing.{RowAt};

use names::refusal::Refusal;
use names::{PRIORITIES, Priority};
use sheet::row::Row;
use sheet::table::Sheet;

/// The row at p, for a test in a column: refused for a column under 32 entries, no priority, and no row.
pub fn row_at(sheet: &Sheet, column: &[u8], p: Priority) -> Result<Row, Refusal>
    ensures { RowAt (table_of sheet.now) column.now p.0 result }
{
    if column.len() < PRIORITIES as usize {
        return Err(Refusal::ListTooShort);
    }
    p.index()?;
    sheet.row(p).ok_or(Refusal::NoRow(p.into()))
}
