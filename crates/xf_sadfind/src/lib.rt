//! The state list in words, as calls that store nothing see it: a state by its id or its place, what stands in the way of a new one, the numbers that
//! are free, and the states that a flow goes through.
#![tactic(auto)]

mod by_sid;
mod finder;
mod guessing;
mod laws;
mod nth;
mod replacing;
mod resolved;
mod resolving;
mod seqs;
mod spis;
mod used;

pub use finder::StateFinder;
pub use laws::finds;
pub use resolved::Resolved;
