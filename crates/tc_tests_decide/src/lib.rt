//! The tests of the calls of `tc_decide` on texts in memory, by public calls alone.
#![tactic(auto)]

#[cfg(test)]
mod certificates;
#[cfg(test)]
mod checks;
#[cfg(test)]
mod runs;
#[cfg(test)]
mod schemas;
#[cfg(test)]
mod spots;
#[cfg(test)]
mod texts;
