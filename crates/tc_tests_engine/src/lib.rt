//! The tests of symbols, automata, matrices and sets, validity, path states, runs, rows and their closure, and certificates, by
//! public calls alone.
#![tactic(auto)]

#[cfg(test)]
mod automata;
#[cfg(test)]
mod certificate_answers;
#[cfg(test)]
mod certificate_texts;
#[cfg(test)]
mod dead_spots;
#[cfg(test)]
mod listed_rows;
#[cfg(test)]
mod matrices;
#[cfg(test)]
mod path_states;
#[cfg(test)]
mod random_rows;
#[cfg(test)]
mod random_triples;
#[cfg(test)]
mod rows;
#[cfg(test)]
mod runs;
#[cfg(test)]
mod sets;
#[cfg(test)]
mod settling;
#[cfg(test)]
mod symbols;
#[cfg(test)]
mod triples;
#[cfg(test)]
mod validity;
