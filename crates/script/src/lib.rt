// Calls on a sheet written as lines of text, and their replay.
#![tactic(auto)]

pub mod answer;
pub mod line;
pub mod parse;
pub mod run;
