ghost use Rattle.std.specs.Prelude.{◌≡◌, ℕ, true, None, slice_index_or};
ghost use Rattle.sheet.specs.Caps.{cap_fits};

use super::row::Row;

pub mod edits;
pub mod reads;

/// A sheet: at most one row at each priority from 1 to 32, each with a cap from 1 to its own priority.
// The row of priority p stands at p - 1.
#[derive(Drop)]
pub struct Sheet {
    rows: [Option<Row>; 32],
    ghost caps: { (k : ℕ) → cap_fits k (slice_index_or rows k None) ≡ true },
}
