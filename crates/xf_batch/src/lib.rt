//! Batches: an input read phase by phase, and a large input made from a number.
#![tactic(auto)]

mod ends;
mod fault;
mod gather;
mod generated;
mod generated_calls;
mod generated_lines;
mod generated_phases;
mod items;
mod line_scan;
mod next_line;
mod phase;
mod pieces;
mod read;
mod task;

pub use ends::{LineEnd, line_end};
pub use fault::PhaseFault;
pub use generated::generate;
pub use phase::Phase;
pub use read::read_phase;
pub use task::{Job, Task};

#[cfg(test)]
mod tests;
#[cfg(test)]
mod tests_generate;
