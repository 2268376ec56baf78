// Examples for block maps and delay models. They stand apart so that the crates they test are proved once.
#![tactic(auto)]

#[cfg(test)]
mod ask;
#[cfg(test)]
mod maps;
#[cfg(test)]
mod models;
#[cfg(test)]
mod questions;
