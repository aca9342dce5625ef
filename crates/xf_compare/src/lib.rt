//! The machine over words beside the plain machine, call by call. Nothing stands on this crate.
#![tactic(auto)]

mod listed;
#[cfg(test)]
mod tests;

pub use listed::Listed;
