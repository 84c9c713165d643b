//! The tests of documents that come in pieces, by public calls alone.
#![tactic(auto)]

#[cfg(test)]
mod answers;
#[cfg(test)]
mod cuts;
#[cfg(test)]
mod limits;
#[cfg(test)]
mod schemas;
#[cfg(test)]
mod texts;
