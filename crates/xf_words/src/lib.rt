//! The command words, read with clap by an exact contract.
#![tactic(auto)]

mod application;
mod command;
mod decimal;
mod parser;
mod reader;

pub use command::Command;
pub use reader::read_command;

#[cfg(test)]
mod tests;
