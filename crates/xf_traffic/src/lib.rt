//! Flows, packets and outputs over words and values: what each is answered, and what it makes of them.
#![tactic(auto)]

mod acquiring;
mod asked;
mod asking;
mod flows;
mod following;
mod hops;
mod lookups;
mod outputs;
mod packets;
mod wanting;

pub use acquiring::acquire;
pub use asked::{Asked, Wanted};
pub use asking::{ask, try_flow};
pub use flows::{Flowed, flow};
pub use lookups::{output_slot, packet_slot};
pub use outputs::{output, output_held};
pub use packets::{packet, packet_held};
