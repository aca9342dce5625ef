//! The text of the first bad line.
ghost use Rattle.std.specs.Prelude.{◌≡◌, ◌≤◌, ◌∷◌, []};
ghost use Rattle.xf_io.specs.Causes.{Rose};
ghost use Rattle.xf_run.specs.Phases.{Reported};

use crate::output::write_line;
use xf_io::{Failed, Sink};
use xf_print::print_bad_line;
use xf_types::{Reason, Status};

/// Writes the text of the first bad line. The buffer is for it.
pub fn report<K: Sink>(line: u64, reason: Reason, buffer: &mut Vec<u8>, out: &mut K) -> Status
    ensures reported { Reported result line reason (K.text out.old) (K.text out.new) }
    ensures later { K.faults out.old ≤ K.faults out.new }
    ensures write_fault { result ≡ Status.WriteFault → Rose (K.faults out.old) (K.faults out.new) }
{
    buffer.clear();
    if print_bad_line(buffer, line, reason).is_err() {
        return Status::NoMemory;
    }
    match write_line(out, buffer) {
        Ok(()) => Status::BadLine { line, reason },
        Err(Failed) => Status::WriteFault,
    }
}
