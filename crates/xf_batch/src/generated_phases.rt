//! What a worker asks for in each phase of a large input.
ghost use Rattle.std.specs.Prelude.{◌≡◌, ◌<◌, ◌^◌, OnOk};
ghost use Rattle.xf_batch.specs.Generated as rule;
ghost use Rattle.xf_batch.specs.Making.{Asks};

use crate::generated_calls::{
    add_policy, add_state, bring, delete_policy, delete_state, look_up, send_to,
};
use crate::generated_lines::Making;
use xf_types::NoMemory;

fn add_policies(made: &mut Making, worker: u32) -> Result<(), NoMemory>
    requires worker { worker < 4 }
    requires room { made.old.line < 2 ^ 16 }
    ensures { OnOk result (Asks made.old made.new (rule.policies worker made.old.x) 500) }
{
    for i in 0..500 {
        let value = made.value();
        made.ask(add_policy(worker, i, value))?;
    }
    Ok(())
}

fn add_states(made: &mut Making, worker: u32) -> Result<(), NoMemory>
    requires worker { worker < 4 }
    requires room { made.old.line < 2 ^ 20 }
    ensures { OnOk result (Asks made.old made.new (rule.states worker) 0) }
{
    for i in 0..500 {
        made.ask(add_state(worker, i))?;
    }
    Ok(())
}

fn add_all(made: &mut Making, worker: u32) -> Result<(), NoMemory>
    requires worker { worker < 4 }
    requires room { made.old.line < 2 ^ 16 }
    ensures { OnOk result (Asks made.old made.new (rule.adding worker made.old.x) 500) }
{
    add_policies(made, worker)?;
    add_states(made, worker)
}

fn send_all(made: &mut Making, worker: u32) -> Result<(), NoMemory>
    requires worker { worker < 4 }
    requires room { made.old.line < 2 ^ 16 }
    ensures { OnOk result (Asks made.old made.new (rule.sends worker made.old.x) 1000) }
{
    for _ in 0..1000u32 {
        let value = made.value();
        made.ask(send_to(worker, value))?;
    }
    Ok(())
}

/// The last packet again.
fn bring_again(made: &mut Making, worker: u32) -> Result<(), NoMemory>
    requires worker { worker < 4 }
    requires room { made.old.line < 2 ^ 24 }
    ensures { OnOk result (Asks made.old made.new (rule.last_packet worker made.old.x) 0) }
{
    let value = made.last_value();
    made.ask(bring(worker, value, 500))
}

fn bring_all(made: &mut Making, worker: u32) -> Result<(), NoMemory>
    requires worker { worker < 4 }
    requires room { made.old.line < 2 ^ 20 }
    ensures { OnOk result (Asks made.old made.new (rule.packets worker made.old.x) 500) }
{
    for i in 0..500 {
        let value = made.value();
        made.ask(bring(worker, value, i + 1))?;
    }
    bring_again(made, worker)
}

fn exchange(made: &mut Making, worker: u32) -> Result<(), NoMemory>
    requires worker { worker < 4 }
    requires room { made.old.line < 2 ^ 16 }
    ensures { OnOk result (Asks made.old made.new (rule.traffic worker made.old.x) 1500) }
{
    send_all(made, worker)?;
    bring_all(made, worker)
}

fn delete_half(made: &mut Making, worker: u32) -> Result<(), NoMemory>
    requires worker { worker < 4 }
    requires room { made.old.line < 2 ^ 16 }
    ensures { OnOk result (Asks made.old made.new (rule.deleting worker) 0) }
{
    for k in 0..250 {
        made.ask(delete_policy(worker, 2 * k))?;
        made.ask(delete_state(worker, 2 * k))?;
    }
    Ok(())
}

fn look_up_all(made: &mut Making, worker: u32) -> Result<(), NoMemory>
    requires worker { worker < 4 }
    requires room { made.old.line < 2 ^ 16 }
    ensures { OnOk result (Asks made.old made.new (rule.looking_up worker made.old.x) 1) }
{
    let first = made.value() % 500;
    for i in 0..1000 {
        made.ask(look_up(worker, (i + first) % 500))?;
    }
    Ok(())
}

/// Makes the lines of a worker in a phase.
pub(crate) fn make_part(made: &mut Making, phase: u32, worker: u32) -> Result<(), NoMemory>
    requires worker { worker < 4 }
    requires room { made.old.line < 2 ^ 16 }
    ensures { OnOk result
        (Asks made.old made.new (rule.jobs_of phase worker made.old.x) (rule.values_of phase)) }
{
    match phase {
        1 => add_all(made, worker),
        2 => exchange(made, worker),
        3 => delete_half(made, worker),
        _ => look_up_all(made, worker),
    }
}
