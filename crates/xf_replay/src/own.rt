//! What a state keeps for itself.
use crate::Window;

/// A state's own part: what it accepted, sent and carried, and when it was first used.
#[derive(Debug, Drop)]
pub struct Own {
    pub window: Window,
    /// The last sequence number that was sent (RFC 4303, 3.3.3).
    pub out: u64,
    pub packets: u64,
    pub bytes: u64,
    /// The time of the first use in seconds, where there was one.
    pub first: Option<u64>,
}
