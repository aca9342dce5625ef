//! The machine of the two databases over words and values in memory, on one thread: each of the 23 calls, answered as the definition says.
#![tactic(auto)]

mod database;
mod desk;
mod guesses;

pub use database::Database;
