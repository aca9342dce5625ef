//! The policy database over words: the list of policies in slots of memory, and each call on it.
#![tactic(auto)]

mod adding;
mod faults;
mod firsts;
mod getting;
mod inserting;
mod keys;
mod laws;
mod pool;
mod reads;
mod removing;
mod setting;
mod soft;
mod spd;
mod updating;

pub use faults::SpdFault;
pub use laws::{pool_laws, start_laws};
pub use spd::Spd;
