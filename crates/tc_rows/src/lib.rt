//! Rows of trees and lists of trees, and their laws.
#![tactic(auto)]

pub mod laws;
