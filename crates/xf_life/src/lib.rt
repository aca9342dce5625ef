//! Lifetimes: the soft limit warns, the hard limit ends (RFC 4301, 4.4.2.1).
#![tactic(auto)]

mod age;
mod kind;
#[cfg(test)]
mod tests;

pub use age::{by_count, by_time, verdict};
pub use kind::Verdict;
