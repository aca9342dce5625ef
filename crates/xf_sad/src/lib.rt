//! The state database over words: the list of states in slots of memory, and each call on it.
#![tactic(auto)]

mod acquiring;
mod adding;
mod allocating;
mod changing;
mod faults;
mod laws;
mod lookups;
mod placing;
mod pool;
mod reads;
mod removing;
mod sad;
mod updating;
mod walks;

pub use faults::SadFault;
pub use laws::{pool_laws, reply_laws, start_laws};
pub use sad::Sad;
