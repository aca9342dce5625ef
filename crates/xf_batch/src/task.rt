//! Call lines.

use xf_types::{Call, Flow};

/// What a call line asks for: a call, or a flow and an output of `len` bytes for each state of its path.
#[derive(Debug, Drop)]
pub enum Job {
    One(Call),
    Send { flow: Flow, len: u32 },
}

/// A call line with the number of its first physical line, counted from 1.
#[derive(Debug, Drop)]
pub struct Task {
    pub line: u64,
    pub job: Job,
}
