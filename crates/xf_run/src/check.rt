//! A batch that is read, and not run.
ghost use Rattle.std.specs.Prelude.{◌≡◌, ◌≤◌, ◌<◌, ◌+◌, ◌⊎◌, ◌||◌, [], ◌++◌, length, get_or, nat_lt, if◌then◌else◌, IfOk, IsErrOf, OnOk, true};
ghost use Rattle.std.specs.Io.KnownBytes.{IsAtEnd};
ghost use Rattle.xf_io.specs.Causes.{Rose};
ghost use Rattle.xf_batch.specs.Shown.{threads_shown};
ghost use Rattle.xf_run.specs.Check.{CountsBatch, IsCheckOutcome, TellsCounts, counts_text};
ghost use Rattle.xf_run.specs.Outcome.{IsEnd};
ghost use Rattle.xf_read.specs.Unread.{IsFresh};

use crate::output::write_line;
use crate::report::report;
use std::alloc::Global;
use std::io::Write;
use xf_batch::{Phase, PhaseFault, read_phase};
use xf_io::{Failed, Sink, Source};
use xf_read::Reader;
use xf_types::{NoMemory, Status};

/// How many phases and call lines were read.
#[derive(Clone, Copy, Debug, PartialEq, Eq)]
pub struct Counts {
    pub phases: u64,
    pub lines: u64,
}

/// How many call lines a phase of one thread has.
fn count_lines(phase: &Phase) -> u64
    requires { length phase.now.threads.items ≡ 1 }
    ensures { result ≡ length (get_or (threads_shown phase.now.threads.items) 0 []) }
{
    phase.tasks(0).len() as u64
}

/// What a phase counts for: 1 where a `sync` ended it, or where it has a call line.
fn counted(synced: bool, lines: u64) -> u64
    ensures count { result ≡ (if synced || nat_lt 0 lines then 1 else 0) }
    ensures few { result ≡ 0 ⊎ synced ≡ true ⊎ 0 < lines }
    ensures most { result ≤ 1 }
{
    if synced || lines > 0 { 1 } else { 0 }
}

/// Reads all phases, and counts those that a `sync` ends, the last one where it has a call line, and the call lines.
fn count_batch<S: Source>(
    alloc: Global,
    mut reader: Reader,
    src: &mut S,
) -> Result<Counts, PhaseFault>
    requires fresh { IsFresh reader.unread }
    ensures counts { CountsBatch (S.left src.old) (S.left src.new) result }
    ensures end { OnOk result (IsAtEnd (S.left src.new)) }
    ensures later { S.faults src.old ≤ S.faults src.new }
    ensures cause { IsErrOf result PhaseFault.ReadFault → Rose (S.faults src.old) (S.faults src.new) }
{
    let mut phases = 0;
    let mut lines = 0;
    let mut more = true;
    'phases: while more {
        let (phase, rest) = read_phase(alloc, reader, src, 1, 0)?;
        let count = count_lines(&phase);
        more = phase.more();
        phases += counted(phase.synced, count);
        lines += count;
        reader = rest;
    }
    Ok(Counts { phases, lines })
}

/// Puts the line that a batch gives behind a buffer.
#[tactic(auto, unfolding(crate::specs::Check::counts_text))]
fn print_counts(buffer: &mut Vec<u8>, counts: Counts) -> Result<(), NoMemory>
    ensures { OnOk result (buffer.new.items ≡ buffer.old.items ++ counts_text counts.phases counts.lines) }
{
    let Counts { phases, lines } = counts;
    match writeln!(buffer, "phases {phases} lines {lines}") {
        Ok(()) => Ok(()),
        Err(_) => Err(NoMemory),
    }
}

/// Writes how many phases and call lines a batch has.
fn tell<K: Sink>(alloc: Global, counts: Counts, out: &mut K) -> Status
    ensures tells { TellsCounts result counts.phases counts.lines (K.text out.old) (K.text out.new) }
    ensures later { K.faults out.old ≤ K.faults out.new }
    ensures write_fault { result ≡ Status.WriteFault → Rose (K.faults out.old) (K.faults out.new) }
{
    let mut buffer = Vec::new(alloc);
    if print_counts(&mut buffer, counts).is_err() {
        return Status::NoMemory;
    }
    match write_line(out, &buffer) {
        Ok(()) => Status::Done,
        Err(Failed) => Status::WriteFault,
    }
}

/// Reads the batch of the source, runs nothing, and writes how many phases and call lines it has, or its first bad line.
pub fn run_check<S: Source, K: Sink>(alloc: Global, src: &mut S, out: &mut K) -> Status
    // What the status says of the batch and of the text, where the source tells its bytes.
    ensures outcome { IsCheckOutcome result (S.left src.old) (S.left src.new) (K.text out.old) (K.text out.new) }
    // Status 0 comes only where the input was read to its end.
    ensures end { IsEnd result → IsAtEnd (S.left src.new) }
    // Faults come only where the count of the object that was handed in rose.
    ensures read_fault { result ≡ Status.ReadFault → Rose (S.faults src.old) (S.faults src.new) }
    ensures write_fault { result ≡ Status.WriteFault → Rose (K.faults out.old) (K.faults out.new) }
{
    let reader = match Reader::new(alloc) {
        Ok(reader) => reader,
        Err(NoMemory) => return Status::NoMemory,
    };
    let mut buffer = Vec::new(alloc);
    match count_batch(alloc, reader, src) {
        Ok(counts) => tell(alloc, counts, out),
        Err(PhaseFault::Bad { line, reason }) => report(line, reason, &mut buffer, out),
        Err(PhaseFault::ReadFault) => Status::ReadFault,
        Err(PhaseFault::NoMemory) => Status::NoMemory,
    }
}
