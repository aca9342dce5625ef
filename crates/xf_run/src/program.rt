//! All that the program does.
ghost use Rattle.std.specs.Prelude.{◌≡◌, true, map, string_bytes, IfSome};
ghost use Rattle.std.specs.Io.KnownBytes.{IsAtEnd};
ghost use Rattle.xf_io.specs.Causes.{Rose};
ghost use Rattle.xf_words.specs.Commands.{command_of};
ghost use Rattle.xf_run.specs.Command.{Does, Refuses, reads_input};
ghost use Rattle.xf_run.specs.Outcome.{IsEnd};

use crate::check::run_check;
use crate::generated::run_gen;
use crate::output::write_line;
use crate::run::run_one;
use std::alloc::Global;
use std::sync::Wait;
use std::thread::Threads;
use xf_io::{Clock, Failed, Gate, Sink, Source};
use xf_types::{NoMemory, Status};
use xf_words::{Command, read_command};

/// Writes the usage line.
#[tactic(auto, unfolding(crate::specs::Usage::usage_text))]
fn refuse<K: Sink>(out: &mut K) -> Status
    ensures refuses { Refuses result (K.text out.old) (K.text out.new) }
    ensures write_fault { result ≡ Status.WriteFault → Rose (K.faults out.old) (K.faults out.new) }
{
    match write_line(
        out,
        b"usage: xfrm one | run --workers N [--tries N] [--again] | check | gen --seed N [--workers N]\n",
    ) {
        Ok(()) => Status::Usage,
        Err(Failed) => Status::WriteFault,
    }
}

/// Does what the words say, which don't include the program's name.
pub fn top<R: Threads + Wait, S: Source, K: Sink, C: Clock, G: Gate>(
    _rt: &R,
    alloc: Global,
    words: &[String],
    src: &mut S,
    out: &mut K,
    clock: &mut C,
    _gate: &G,
) -> Status
    // What the status says by the command that the words are: of words that are none, of a batch that is run, of one that is
    // read, of an input that is made and run.
    ensures does { Does (command_of (map string_bytes words.now)) result (C.coming clock.old) (C.coming clock.new) (S.left src.old)
        (S.left src.new) (K.text out.old) (K.text out.new) }
    // Statuses 0 and 1 of a batch come only where the input was read to its end.
    ensures end { IfSome (command_of (map string_bytes words.now)) (λ c. reads_input c ≡ true → IsEnd result → IsAtEnd (S.left src.new)) }
    // Faults come only where the count of the object that was handed in rose.
    ensures read_fault { result ≡ Status.ReadFault → Rose (S.faults src.old) (S.faults src.new) }
    ensures write_fault { result ≡ Status.WriteFault → Rose (K.faults out.old) (K.faults out.new) }
{
    match read_command(alloc, words) {
        Ok(Some(Command::One)) => run_one(alloc, src, out, clock),
        Ok(Some(Command::Check)) => run_check(alloc, src, out),
        Ok(Some(Command::Gen { seed })) => run_gen(alloc, seed, out),
        Ok(None) => refuse(out),
        Err(NoMemory) => Status::NoMemory,
    }
}
