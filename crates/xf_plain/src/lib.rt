//! The plain machine: the databases as plain lists, and each call answered by scanning them.
#![tactic(auto)]

mod aging;
mod counting;
mod indices;
mod listing;
mod plain;
mod removing;
#[cfg(test)]
mod tests;

pub use plain::{Plain, PlainParts};
