// Delay models: what a pre-emption costs in cache reloads.
#![tactic(auto)]

pub mod map_model;
pub mod model;
pub mod question;
pub mod reckoning;
pub mod rows;
pub mod switch;
pub mod switch_cost;
