//! The pure protocol: its states, its steps one by one, and where a list of steps leads.
#![tactic(auto)]

mod draws;
mod legal;
mod openings;
mod pins;
mod reads;
mod receipts;
mod seat;
mod slots;
mod state;
mod statuses;
mod step;
mod steps;
#[cfg(test)]
mod tests;
mod turns;

pub use state::State;
pub use step::{Kind, Step, StepFault};
