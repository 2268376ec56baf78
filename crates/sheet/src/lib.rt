// A sheet of tasks with fixed priorities, and the calls that edit it.
#![tactic(auto)]

pub mod row;
pub mod table;
