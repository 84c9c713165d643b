//! The tests of whole commands on files in memory, by public calls alone.
#![tactic(auto)]

#[cfg(test)]
mod answers;
#[cfg(test)]
mod certificates;
#[cfg(test)]
mod checks;
#[cfg(test)]
mod commands;
#[cfg(test)]
mod dead;
#[cfg(test)]
mod demonstrations;
#[cfg(test)]
mod dtd;
#[cfg(test)]
mod faults;
#[cfg(test)]
mod inclusion;
#[cfg(test)]
mod pieces;
#[cfg(test)]
mod runs;
#[cfg(test)]
mod validations;
