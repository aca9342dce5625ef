//! A batch on one thread, phase by phase.
ghost use Rattle.std.specs.Prelude.{◌≡◌, ◌≤◌, ◌+◌, ◌*◌, ◌<◌, ◌^◌, IfOk, IfErr, OnOk, IsErrOf, true, false};
ghost use Rattle.std.specs.Io.KnownBytes.{IsAtEnd};
ghost use Rattle.xf_io.specs.Causes.{Rose};
ghost use Rattle.xf_batch.specs.Batch.{limit};
ghost use Rattle.xf_run.specs.Outcome.{IsOutcome, IsRunStatus, IsEnd};
ghost use Rattle.xf_run.specs.Phases.{TakesPhase, IsNext, IsBounded, KeepsUp};
ghost use Rattle.xf_read.specs.Unread.{IsFresh};
ghost use Rattle.xf_types.specs.Steps.{empty};
ghost use Rattle.xf_batch.specs.Reading.{HasPassed};
ghost use Rattle.xf_batch.specs.Shown.{phase_shown};

use crate::answer::AnswerFault;
use crate::report::report;
use crate::tasks::run_tasks;
use std::alloc::Global;
use xf_batch::{Phase, PhaseFault, read_phase};
use xf_calls::Database;
use xf_io::{Clock, Sink, Source};
use xf_read::Reader;
use xf_types::{NoMemory, Status};

/// What a phase leaves: the reader with what it read further, whether the input goes on, and whether a reply was a refusal.
#[derive(Debug, Drop)]
pub struct PhaseRun {
    pub reader: Reader,
    pub more: bool,
    pub refused: bool,
}

/// Reads a phase, or says how the run ends with it. The buffer is for the text of a bad line.
fn take_phase<S: Source, K: Sink>(
    alloc: Global,
    reader: Reader,
    now: u64,
    buffer: &mut Vec<u8>,
    src: &mut S,
    out: &mut K,
) -> Result<(Phase, Reader), Status>
    ensures phase { TakesPhase now reader.unread (S.left src.old) (S.left src.new) (K.text out.old) (K.text out.new) result }
    ensures same { OnOk result (K.text out.new ≡ K.text out.old) }
    ensures passed { IfOk result (λ p. HasPassed 1 reader.unread p.1.unread (phase_shown p.0)) }
    ensures end { (reader.unread.ended ≡ true → IsAtEnd (S.left src.old))
        → IfOk result (λ p. p.1.unread.ended ≡ true → IsAtEnd (S.left src.new)) }
    ensures later { (S.faults src.old ≤ S.faults src.new) × (K.faults out.old ≤ K.faults out.new) }
    ensures read_fault { IsErrOf result Status.ReadFault → Rose (S.faults src.old) (S.faults src.new) }
    ensures write_fault { IsErrOf result Status.WriteFault → Rose (K.faults out.old) (K.faults out.new) }
    ensures unfinished { IfErr result (λ s. IsEnd s → ⊥) }
    ensures may_end { IfErr result IsRunStatus }
{
    match read_phase(alloc, reader, src, 1, now) {
        Ok(read) => Ok(read),
        Err(PhaseFault::Bad { line, reason }) => Err(report(line, reason, buffer, out)),
        Err(PhaseFault::ReadFault) => Err(Status::ReadFault),
        Err(PhaseFault::NoMemory) => Err(Status::NoMemory),
    }
}

/// Asks the clock, reads a phase and answers its lines, or says how the run ends with it. The buffer is for text.
fn run_next<S: Source, K: Sink, C: Clock>(
    alloc: Global,
    machine: &mut Database,
    reader: Reader,
    buffer: &mut Vec<u8>,
    src: &mut S,
    out: &mut K,
    clock: &mut C,
) -> Result<PhaseRun, Status>
    requires { IsBounded machine.old reader.unread }
    ensures next { IsNext (C.coming clock.old) (C.coming clock.new) reader.unread (S.left src.old) (S.left src.new)
        machine.old machine.new (K.text out.old) (K.text out.new) result }
    ensures keeps { IfOk result (KeepsUp reader.unread machine.new) }
    ensures end { (reader.unread.ended ≡ true → IsAtEnd (S.left src.old))
        → IfOk result (λ p. p.reader.unread.ended ≡ true → IsAtEnd (S.left src.new)) }
    ensures later { (S.faults src.old ≤ S.faults src.new) × (K.faults out.old ≤ K.faults out.new) }
    ensures read_fault { IsErrOf result Status.ReadFault → Rose (S.faults src.old) (S.faults src.new) }
    ensures write_fault { IsErrOf result Status.WriteFault → Rose (K.faults out.old) (K.faults out.new) }
    ensures unfinished { IfErr result (λ s. IsEnd s → ⊥) }
    ensures may_end { IfErr result IsRunStatus }
{
    let now = clock.now();
    let (phase, reader) = take_phase(alloc, reader, now, buffer, src, out)?;
    match run_tasks(machine, phase.tasks(0), buffer, out) {
        Ok(refused) => Ok(PhaseRun {
            reader,
            more: phase.more(),
            refused,
        }),
        Err(AnswerFault::Memory) => Err(Status::NoMemory),
        Err(AnswerFault::Write) => Err(Status::WriteFault),
    }
}

/// Runs the phases that a reader has before it.
fn run_phases<S: Source, K: Sink, C: Clock>(
    alloc: Global,
    mut machine: Database,
    mut reader: Reader,
    src: &mut S,
    out: &mut K,
    clock: &mut C,
) -> Status
    requires start { machine ≡ empty 4096 8192 }
    requires fresh { IsFresh reader.unread }
    ensures outcome { IsOutcome result (C.coming clock.old) (C.coming clock.new) (S.left src.old) (S.left src.new)
        (K.text out.old) (K.text out.new) }
    ensures end { IsEnd result → IsAtEnd (S.left src.new) }
    ensures read_fault { result ≡ Status.ReadFault → Rose (S.faults src.old) (S.faults src.new) }
    ensures write_fault { result ≡ Status.WriteFault → Rose (K.faults out.old) (K.faults out.new) }
{
    let mut buffer = Vec::new(alloc);
    let mut refused = false;
    let mut more = true;
    'phases: while more {
        match run_next(alloc, &mut machine, reader, &mut buffer, src, out, clock) {
            Ok(run) => {
                refused = refused | run.refused;
                more = run.more;
                reader = run.reader;
            }
            Err(status) => return status,
        }
    }
    if refused {
        Status::Refusals
    } else {
        Status::Done
    }
}

/// Runs the batch of the source on one thread, phase by phase. The clock is asked once for each phase, before it is read.
pub fn run_one<S: Source, K: Sink, C: Clock>(
    alloc: Global,
    src: &mut S,
    out: &mut K,
    clock: &mut C,
) -> Status
    // What the status says of the batch and of the text by the clock's answers, where the source tells its bytes.
    ensures outcome { IsOutcome result (C.coming clock.old) (C.coming clock.new) (S.left src.old) (S.left src.new)
        (K.text out.old) (K.text out.new) }
    // Statuses 0 and 1 come only where the input was read to its end.
    ensures end { IsEnd result → IsAtEnd (S.left src.new) }
    // Faults come only where the count of the object that was handed in rose.
    ensures read_fault { result ≡ Status.ReadFault → Rose (S.faults src.old) (S.faults src.new) }
    ensures write_fault { result ≡ Status.WriteFault → Rose (K.faults out.old) (K.faults out.new) }
{
    let reader = match Reader::new(alloc) {
        Ok(reader) => reader,
        Err(NoMemory) => return Status::NoMemory,
    };
    match Database::new(alloc) {
        Ok(machine) => run_phases(alloc, machine, reader, src, out, clock),
        Err(NoMemory) => Status::NoMemory,
    }
}
