//! The summary of a run: counts of its replies by kinds, and nine lines of them.
#![tactic(auto)]

mod kinds;
mod laws;
mod print;
mod tally;

pub use laws::any_order;
pub use print::print_tally;
pub use tally::Tally;

#[cfg(test)]
mod tests;
