//! Addresses and prefixes as text: read as RFC 4291, 2.2 and 2.3 spell them, written as RFC 5952, 4 asks.
#![tactic(auto)]

mod address;
mod bits;
mod laws;
mod number;
mod prefix;

pub use address::{BadAddr, read_addr, write_addr};
pub use laws::{number_laws, spelling_laws, written_laws};
pub use number::{cut, read_number};
pub use prefix::{read_prefix, write_prefix};

#[cfg(test)]
mod tests;
