//! The calls of one line, made one after another. Their replies are told.
ghost use Rattle.std.specs.Prelude.{◌≡◌, ◌≤◌, ◌<◌, ◌^◌, length, IfOk, OnOk};
ghost use Rattle.xf_types.specs.Batch.{Send, path_of};
ghost use Rattle.xf_run.specs.Heard.{HasRoom, HearsAtMost};
ghost use Rattle.xf_run.specs.Progress.{GrowsBy, IsMade, MakesLine, MakesOutputs};
ghost use Rattle.xf_batch.specs.Shown.{line_of};

use crate::teller::Teller;
use xf_batch::{Job, Task};
use xf_calls::Database;
use xf_types::{Call, Flow, Hop, NoMemory, Place, Reply};

/// Makes a call, and says whether its reply is a refusal. The reply, which is large, stays here.
fn make_call<T: Teller>(
    machine: &mut Database,
    at: Place,
    call: &Call,
    teller: &mut T,
) -> Result<bool, NoMemory>
    requires numbers { machine.old.shown.next_number < 2 ^ 63 }
    requires sids { machine.old.shown.next_sid < 2 ^ 63 }
    requires room { HasRoom (T.heard teller.old) at.line 1 }
    ensures ok { IfOk result
        (λ refused. IsMade machine.old machine.new at call.now refused (T.heard teller.old) (T.heard teller.new)) }
    ensures grows { OnOk result (GrowsBy 1 machine.old.shown machine.new.shown) }
    ensures few_heard { OnOk result (HearsAtMost 1 (T.heard teller.old) (T.heard teller.new)) }
{
    let reply = machine.step(call);
    teller.tell(at, &reply)?;
    Ok(reply.is_refusal())
}

/// The path that a reply gives, if it gives one.
fn path(reply: &Reply) -> &[Hop]
    ensures path { result.now ≡ path_of reply.now }
    ensures few { length result.now ≤ 6 }
{
    match reply {
        Reply::FlowAllow { index: _, path } => path.items.as_slice(),
        _ => &[],
    }
}

/// Makes an output for each hop, in order.
fn make_outputs<T: Teller>(
    machine: &mut Database,
    line: u64,
    hops: &[Hop],
    len: u32,
    teller: &mut T,
) -> Result<bool, NoMemory>
    requires few { length hops.now ≤ 6 }
    requires numbers { machine.old.shown.next_number ≤ 2 ^ 62 }
    requires sids { machine.old.shown.next_sid ≤ 2 ^ 62 }
    requires room { HasRoom (T.heard teller.old) line 6 }
    ensures ok { IfOk result
        (λ refused. MakesOutputs machine.old machine.new line len hops.now refused (T.heard teller.old) (T.heard teller.new)) }
    ensures grows { OnOk result (GrowsBy 6 machine.old.shown machine.new.shown) }
    ensures few_heard { OnOk result (HearsAtMost 6 (T.heard teller.old) (T.heard teller.new)) }
{
    let mut refused = false;
    let mut part = 1;
    'hops: for hop in hops {
        let at = Place { line, part };
        let call = Call::Output { sid: hop.sid, len };
        let refusal = make_call(machine, at, &call, teller)?;
        refused = refused | refusal;
        part += 1;
    }
    Ok(refused)
}

/// Makes a flow, and then an output for each hop of the path that it gives.
fn make_send<T: Teller>(
    machine: &mut Database,
    line: u64,
    flow: Flow,
    len: u32,
    teller: &mut T,
) -> Result<bool, NoMemory>
    requires numbers { machine.old.shown.next_number < 2 ^ 62 }
    requires sids { machine.old.shown.next_sid < 2 ^ 62 }
    requires room { HasRoom (T.heard teller.old) line 7 }
    ensures ok { IfOk result
        (λ refused. MakesLine machine.old machine.new (Send line flow len) refused (T.heard teller.old) (T.heard teller.new)) }
    ensures grows { OnOk result (GrowsBy 7 machine.old.shown machine.new.shown) }
    ensures few_heard { OnOk result (HearsAtMost 7 (T.heard teller.old) (T.heard teller.new)) }
{
    let at = Place { line, part: 0 };
    let reply = machine.step(&Call::Flow(flow));
    teller.tell(at, &reply)?;
    let refused = make_outputs(machine, line, path(&reply), len, teller)?;
    Ok(reply.is_refusal() | refused)
}

/// Makes the calls of a line, and says whether one of the replies is a refusal.
pub fn make_line<T: Teller>(
    machine: &mut Database,
    task: &Task,
    teller: &mut T,
) -> Result<bool, NoMemory>
    requires numbers { machine.old.shown.next_number < 2 ^ 62 }
    requires sids { machine.old.shown.next_sid < 2 ^ 62 }
    requires room { HasRoom (T.heard teller.old) task.now.line 7 }
    ensures ok { IfOk result
        (λ refused. MakesLine machine.old machine.new (line_of task.now) refused (T.heard teller.old) (T.heard teller.new)) }
    ensures grows { OnOk result (GrowsBy 7 machine.old.shown machine.new.shown) }
    ensures few_heard { OnOk result (HearsAtMost 7 (T.heard teller.old) (T.heard teller.new)) }
{
    match &task.job {
        Job::One(call) => {
            let at = Place {
                line: task.line,
                part: 0,
            };
            let refused = make_call(machine, at, call, teller)?;
            Ok(refused)
        }
        Job::Send { flow, len } => make_send(machine, task.line, *flow, *len, teller),
    }
}
