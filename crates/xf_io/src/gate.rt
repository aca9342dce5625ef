//! What stands round each line.

/// Called round each line by the worker that runs it. It changes nothing.
pub trait Gate: Sync {
    /// Called before the line with this number is run.
    fn before(&self, worker: u32, line: u64);

    /// Called after it, with the number of loads that the worker's pass has made so far.
    fn after(&self, worker: u32, line: u64, loads: u64);
}

/// Does nothing.
#[derive(Clone, Copy, Debug)]
pub struct OpenGate;

impl Gate for OpenGate {
    fn before(&self, _worker: u32, _line: u64) {}

    fn after(&self, _worker: u32, _line: u64, _loads: u64) {}
}
