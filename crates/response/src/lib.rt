// Whether a row meets its deadline with a blocker in a column of thresholds, and if not, why not.
#![tactic(auto)]

mod case;
mod checks;
pub mod laws;
pub mod outcome;
pub mod own;
mod setting;
mod solve;
mod source;
pub mod tests;
mod ticks;
pub mod trial;
