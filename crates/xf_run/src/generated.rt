//! A large input, made from a number and run on one thread.
ghost use Rattle.std.specs.Prelude.{◌≡◌, ◌≤◌, ◌<◌, ◌^◌, ◌+◌, ◌*◌, ◌∷◌, [], length, get_or, All, IfOk, OnOk};
ghost use Rattle.xf_io.specs.Causes.{Rose};
ghost use Rattle.xf_batch.specs.Generated.{line_number};
ghost use Rattle.xf_batch.specs.Shown.{lines_shown, threads_shown};
ghost use Rattle.xf_tally.specs.Text.{numbers_text};
ghost use Rattle.xf_run.specs.Generated.{CountsLines, CountsPhase, IsGenOutcome, Summarizes};
ghost use Rattle.xf_run.specs.Progress.{GrowsBy};

use crate::calls::make_line;
use crate::output::write_lines;
use std::alloc::Global;
use xf_batch::{Phase, Task, generate};
use xf_calls::Database;
use xf_io::{Failed, Sink};
use xf_tally::{Tally, print_tally};
use xf_types::{NoMemory, Status};

/// Answers call lines in their order, counts the replies, and says whether one is a refusal.
fn count_tasks(machine: &mut Database, tasks: &[Task], tally: &mut Tally) -> Result<bool, NoMemory>
    requires few { length tasks.now ≤ 2 ^ 33 }
    requires lines { All (λ l. line_number l ≤ 2 ^ 20) (lines_shown tasks.now) }
    requires room { tally.old.calls + 7 * length tasks.now ≤ 2 ^ 40 }
    requires numbers { machine.old.shown.next_number ≤ 2 ^ 61 }
    requires sids { machine.old.shown.next_sid ≤ 2 ^ 61 }
    ensures ok { IfOk result
        (λ refused. CountsLines machine.old machine.new (lines_shown tasks.now) refused tally.old tally.new) }
    ensures calls { OnOk result (tally.new.calls ≤ tally.old.calls + 7 * length tasks.now) }
    ensures grows { OnOk result (GrowsBy (7 * length tasks.now) machine.old.shown machine.new.shown) }
{
    let mut refused = false;
    'tasks: for task in tasks {
        let refusal = make_line(machine, task, tally)?;
        refused = refused | refusal;
    }
    Ok(refused)
}

/// Runs one phase, and counts its lines and replies.
fn count_phase(machine: &mut Database, phase: &Phase, tally: &mut Tally) -> Result<bool, NoMemory>
    requires one { length phase.now.threads.items ≡ 1 }
    requires few { length (get_or (threads_shown phase.now.threads.items) 0 []) ≤ 6004 }
    requires places { All (λ l. line_number l ≤ 2 ^ 20) (get_or (threads_shown phase.now.threads.items) 0 []) }
    requires lines { tally.old.lines ≤ 2 ^ 39 }
    requires calls { tally.old.calls ≤ 2 ^ 39 }
    requires numbers { machine.old.shown.next_number ≤ 2 ^ 61 }
    requires sids { machine.old.shown.next_sid ≤ 2 ^ 61 }
    ensures ok { IfOk result (λ refused. CountsPhase machine.old machine.new
        (get_or (threads_shown phase.now.threads.items) 0 []) refused tally.old tally.new) }
    ensures calls { OnOk result (tally.new.calls ≤ tally.old.calls + 7 * 6004) }
    ensures grows { OnOk result (GrowsBy (7 * 6004) machine.old.shown machine.new.shown) }
{
    let tasks = phase.tasks(0);
    tally.add_lines(tasks.len() as u64);
    let refused = count_tasks(machine, tasks, tally)?;
    Ok(refused)
}

/// Makes the input of a seed and runs its four phases: the numbers of their summary, and whether a reply is a refusal.
fn count_input(alloc: Global, seed: u64) -> Result<(Tally, bool), NoMemory>
    ensures { IfOk result (λ p. Summarizes seed p.1 p.0) }
{
    let mut machine = Database::new(alloc)?;
    let mut tally = Tally::new();
    let mut refused = false;
    'phases: for phase in 1..5 {
        let made = generate(alloc, seed, phase, 1)?;
        let refusal = count_phase(&mut machine, &made, &mut tally)?;
        refused = refused | refusal;
    }
    Ok((tally, refused))
}

/// Makes a large input from a number, runs it on one thread, and writes the summary of what was answered.
pub fn run_gen<K: Sink>(alloc: Global, seed: u64, out: &mut K) -> Status
    // What the status says of the input's histories, of their summary and of the text.
    ensures outcome { IsGenOutcome result seed (K.text out.old) (K.text out.new) }
    // Status 5 comes only where the sink's count rose.
    ensures write_fault { result ≡ Status.WriteFault → Rose (K.faults out.old) (K.faults out.new) }
{
    let (tally, refused) = match count_input(alloc, seed) {
        Ok(counted) => counted,
        Err(NoMemory) => return Status::NoMemory,
    };
    let mut buffer = Vec::new(alloc);
    if print_tally(&mut buffer, &tally).is_err() {
        return Status::NoMemory;
    }
    match write_lines(out, &buffer) {
        Ok(()) if refused => Status::Refusals,
        Ok(()) => Status::Done,
        Err(Failed) => Status::WriteFault,
    }
}
