//! Lines of a batch to what they ask, by tables of heads and words.
#![tactic(auto)]

mod alloc_spi;
mod call;
mod fault;
mod flow;
mod identity;
mod limits;
mod line_reader;
mod mark;
mod packet;
mod policy;
mod reader;
mod selector;
mod state;
mod template;
mod thresholds;
mod tick;
mod worker;

pub use fault::ReadFault;
pub use line_reader::LineReader;
pub use reader::{Item, Reader, Unread};

#[cfg(test)]
mod tests;
#[cfg(test)]
mod tests_bad;
#[cfg(test)]
mod tests_bad_policies;
#[cfg(test)]
mod tests_bad_requests;
#[cfg(test)]
mod tests_bad_states;
#[cfg(test)]
mod tests_bad_templates;
#[cfg(test)]
mod tests_hostile;
#[cfg(test)]
mod tests_policies;
#[cfg(test)]
mod tests_requests;
#[cfg(test)]
mod tests_states;
#[cfg(test)]
mod tests_templates;
