//! The call lines of a phase, answered.
ghost use Rattle.std.specs.Prelude.{◌≡◌, ◌≤◌, ◌<◌, ◌^◌, ◌+◌, ◌*◌, length, IfOk, IsErrOf, OnOk};
ghost use Rattle.xf_io.specs.Causes.{Rose};
ghost use Rattle.xf_batch.specs.Shown.{lines_shown};
ghost use Rattle.xf_run.specs.Progress.{GrowsBy, RunsLines, StopsBehind, StopsWithin};

use crate::answer::{AnswerFault, answer};
use xf_batch::Task;
use xf_calls::Database;
use xf_io::Sink;

/// Answers call lines in their order, each by lines of its own, and says whether a reply is a refusal. The buffer is for their text.
pub fn run_tasks<K: Sink>(
    machine: &mut Database,
    tasks: &[Task],
    buffer: &mut Vec<u8>,
    out: &mut K,
) -> Result<bool, AnswerFault>
    requires few { length tasks.now ≤ 2 ^ 33 }
    requires numbers { machine.old.shown.next_number ≤ 2 ^ 61 }
    requires sids { machine.old.shown.next_sid ≤ 2 ^ 61 }
    ensures ok { IfOk result
        (λ refused. RunsLines machine.old machine.new (lines_shown tasks.now) refused (K.text out.old) (K.text out.new)) }
    ensures memory { IsErrOf result AnswerFault.Memory
        → StopsBehind machine.old (lines_shown tasks.now) (K.text out.old) (K.text out.new) }
    ensures write { IsErrOf result AnswerFault.Write
        → StopsWithin machine.old (lines_shown tasks.now) (K.text out.old) (K.text out.new) }
    ensures grows { OnOk result (GrowsBy (7 * length tasks.now) machine.old.shown machine.new.shown) }
    ensures later { K.faults out.old ≤ K.faults out.new }
    ensures cause { IsErrOf result AnswerFault.Write → Rose (K.faults out.old) (K.faults out.new) }
{
    let mut refused = false;
    'tasks: for task in tasks {
        match answer(machine, task, buffer, out) {
            Ok(refusal) => refused = refused | refusal,
            Err(fault) => return Err(fault),
        }
    }
    Ok(refused)
}
