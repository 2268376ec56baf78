// Examples for the tests of a row and of a column. They stand apart so that the crates they test are proved once.
#![tactic(auto)]

#[cfg(test)]
mod columns;
#[cfg(test)]
mod rows;
#[cfg(test)]
mod sheets;
