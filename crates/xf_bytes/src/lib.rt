//! Runs of bytes: how many bytes from the first on are of a kind.
#![tactic(auto)]

mod kinds;
mod runs;

pub use runs::{feedless_count, mild_count, plain_count};

#[cfg(test)]
mod tests;
