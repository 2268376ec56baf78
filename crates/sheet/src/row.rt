ghost use Rattle.std.specs.Prelude.{◌≤◌};

use names::{Threshold, Timing};

/// A task that stands in a sheet: its timing, every figure in range, and its cap, the smallest threshold number
/// that it may get.
#[derive(Clone, Copy)]
pub struct Row {
    pub timing: Timing,
    pub cap: Threshold,
    ghost runs: { 1 ≤ timing.run_time },
    ghost runs_top: { timing.run_time ≤ 16777215 },
    ghost apart: { 1 ≤ timing.separation },
    ghost apart_top: { timing.separation ≤ 100000000 },
    ghost due: { 1 ≤ timing.deadline },
    ghost due_top: { timing.deadline ≤ 100000000 },
}
