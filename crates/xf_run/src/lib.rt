//! The program: from the command words and the bytes that come in to the bytes that go out.
#![tactic(auto)]

mod answer;
mod calls;
mod check;
mod generated;
mod output;
mod program;
mod report;
mod run;
mod tasks;
mod teller;

pub use check::run_check;
pub use generated::run_gen;
pub use program::top;
pub use run::run_one;

#[cfg(test)]
mod tests;
