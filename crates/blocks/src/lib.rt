// The cache blocks of the rows, and what it costs to load one again.
#![tactic(auto)]

mod footprint;
pub mod map;
pub mod sets;
