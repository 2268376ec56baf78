// Examples for the sheet and for scripts of calls. They stand apart so that the crates they test are proved once.
#![tactic(auto)]

#[cfg(test)]
mod edits;
#[cfg(test)]
mod histories;
#[cfg(test)]
mod scripts;
