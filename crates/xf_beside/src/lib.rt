//! Drives the policy database in words through the calls on policies, at one time.
#![tactic(auto)]

mod adding;
mod answering;
mod asking;
mod beside;
mod cursor;
mod leaving;
mod listing;
mod looping;
mod removing;
mod replying;
mod setting;
mod sparing;
mod telling;
#[cfg(test)]
mod tests;

pub use answering::answer;
pub use beside::Beside;
pub use leaving::Leaving;
