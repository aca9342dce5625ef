//! The outside world as traits: bytes that come in, bytes that go out, seconds, and a gate round each line.
#![tactic(auto)]

mod clock;
mod collected;
mod gate;
mod mem_sink;
mod mem_source;
mod pending;
mod retry;
mod sink;
mod source;
mod std_clock;
mod std_sink;
mod std_source;
#[cfg(test)]
mod tests;

pub use clock::{Clock, ListClock};
pub use collected::Collected;
pub use gate::{Gate, OpenGate};
pub use mem_sink::MemSink;
pub use mem_source::MemSource;
pub use sink::Sink;
pub use source::{Failed, Source};
pub use std_clock::StdClock;
pub use std_sink::StdSink;
pub use std_source::StdSource;
