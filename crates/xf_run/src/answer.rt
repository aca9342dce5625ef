//! One line, answered.
ghost use Rattle.std.specs.Prelude.{◌≡◌, ◌≤◌, ◌<◌, ◌^◌, [], IfOk, IsErrOf, OnOk};
ghost use Rattle.std.specs.Io.KnownBytes.{Appends};
ghost use Rattle.xf_io.specs.Causes.{Rose};
ghost use Rattle.xf_batch.specs.Shown.{line_of};
ghost use Rattle.xf_run.specs.Progress.{Answers, GrowsBy, Stops};
ghost use Rattle.xf_run.specs.declared.answer.AnswerFault.TheVariants.{Memory, Write};

use crate::calls::make_line;
use crate::output::write_lines;
use xf_batch::Task;
use xf_calls::Database;
use xf_io::{Failed, Sink};
use xf_types::NoMemory;

#[derive(Debug, Drop)]
pub enum AnswerFault {
    Memory,
    Write,
}

impl From<NoMemory> for AnswerFault {
    ghost from_gives = { λ _ e. e ≡ Memory };

    fn from(_e: NoMemory) -> AnswerFault {
        AnswerFault::Memory
    }
}

impl From<Failed> for AnswerFault {
    ghost from_gives = { λ _ e. e ≡ Write };

    fn from(_e: Failed) -> AnswerFault {
        AnswerFault::Write
    }
}

/// Answers a line, and says whether one of its replies is a refusal. All its calls are made before the first line of the
/// text is offered. The buffer is for the text.
pub fn answer<K: Sink>(
    machine: &mut Database,
    task: &Task,
    buffer: &mut Vec<u8>,
    out: &mut K,
) -> Result<bool, AnswerFault>
    requires numbers { machine.old.shown.next_number < 2 ^ 62 }
    requires sids { machine.old.shown.next_sid < 2 ^ 62 }
    ensures ok { IfOk result (λ refused. Answers machine.old machine.new (line_of task.now) refused (K.text out.old) (K.text out.new)) }
    ensures memory { IsErrOf result AnswerFault.Memory → Appends (K.text out.old) (K.text out.new) [] }
    ensures write { IsErrOf result AnswerFault.Write
        → Stops machine.old machine.new (line_of task.now) (K.text out.old) (K.text out.new) }
    ensures grows { OnOk result (GrowsBy 7 machine.old.shown machine.new.shown) }
    ensures later { K.faults out.old ≤ K.faults out.new }
    ensures cause { IsErrOf result AnswerFault.Write → Rose (K.faults out.old) (K.faults out.new) }
{
    buffer.clear();
    let refused = make_line(machine, task, buffer)?;
    write_lines(out, buffer)?;
    Ok(refused)
}
