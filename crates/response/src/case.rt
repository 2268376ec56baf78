ghost use Rattle.std.specs.Prelude.{◌≤◌, length};
ghost use Rattle.names.specs.Timings.{timing_of};
ghost use Rattle.theory.specs.Regular.{Regular};
ghost use Rattle.response.specs.Demands.{equations_in};

use super::source::Source;
use sheet::row::Row;

pub mod iterations;

/// One row with one blocker, ready for the equations: no charge is asked for any more.
#[derive(Drop)]
pub struct Case<'a> {
    /// The row that is judged.
    pub own: Row,
    /// The ticks that the blocker contributes.
    pub blocking: u32,
    /// The rows above that can pre-empt the row once it has started.
    pub preempting: &'a [Source],
    /// The other rows above.
    pub others: &'a [Source],
    ghost blocking_top: { blocking ≤ 16777215 },
    ghost few_preempting: { length preempting.now ≤ 32 },
    ghost few_others: { length others.now ≤ 32 },
    ghost regular: { Regular (equations_in own blocking preempting.now others.now) (timing_of own.timing) },
}
