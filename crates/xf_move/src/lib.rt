//! The calls for flows, packets and outputs, each as a whole run of a pass under the turn of a table that threads share.
#![tactic(auto)]

mod answering;
mod finding;
mod holding;
mod laws;
mod taking;
mod trying;

pub use answering::{answer_output, answer_packet};
pub use finding::{output_slot, packet_slot};
pub use holding::settle_on_slot;
pub use laws::handles;
pub use taking::take_slot;
pub use trying::try_flow;
