//! Why a line isn't read.
use xf_types::Reason;

/// A bad line with its number and its reason, or a refusal of memory.
#[derive(Clone, Copy, PartialEq, Eq, Debug)]
pub enum ReadFault {
    Bad { line: u64, reason: Reason },
    NoMemory,
}
