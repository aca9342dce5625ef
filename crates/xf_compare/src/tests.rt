//! Calls made from numbers, whose replies are compared one by one.
ghost use Rattle.std.specs.Prelude.{◌+◌, ◌<◌, ◌≤◌};

mod dice;
mod doubling;
mod policies;
mod states;

use dice::Dice;
use std::alloc::Global;
use std::process::Abort;
use std::test::Fail;
use xf_calls::Database;
use xf_plain::Plain;
use xf_types::{Call, Hop, Reply, same_reply};

/// Both machines, begun empty, after so many calls.
#[derive(Drop)]
struct Both {
    database: Database,
    plain: Plain,
    made: u64,
    ghost numbers: { database.shown.next_number ≤ made + 1 },
    ghost sids: { database.shown.next_sid ≤ made + 1 },
    ghost plain_numbers: { plain.shown.next_number ≤ made + 1 },
    ghost plain_sids: { plain.shown.next_sid ≤ made + 1 },
}

fn begun(alloc: Global, policies: u32, states: u32) -> Result<Both, Fail>
    requires some_policies { 1 ≤ policies }
    requires few_policies { policies ≤ 4096 }
    requires some_states { 1 ≤ states }
    requires few_states { states ≤ 8192 }
{
    let database = Database::sized(alloc, policies, states)?;
    let plain = Plain::sized(alloc, policies, states)?;
    Ok(Both {
        database,
        plain,
        made: 0,
    })
}

/// The path that a reply gives, if it gives one.
fn path(reply: &Reply) -> &[Hop] {
    match reply {
        Reply::FlowAllow { index: _, path } => path.items.as_slice(),
        _ => &[],
    }
}

impl Both {
    /// Makes a call on both, whose replies are the same.
    fn agree(&mut self, rt: &impl Abort, call: &Call) -> Reply {
        assert!(rt; self.made < 1 << 40);
        let reply = self.database.step(call);
        let wanted = self.plain.step(call);
        self.made += 1;
        assert!(rt;
            same_reply(&reply, &wanted),
            "call {}: {call:?}: {reply:?} for {wanted:?}",
            self.made
        );
        reply
    }

    /// A call, and an output for each state of the path that it is given.
    fn send(&mut self, rt: &impl Abort, dice: &mut Dice, call: &Call) {
        let reply = self.agree(rt, call);
        dice.learn(&reply);
        for hop in path(&reply) {
            let output = Call::Output {
                sid: hop.sid,
                len: 100,
            };
            let _sent = self.agree(rt, &output);
        }
    }
}

/// So many calls to machines of these capacities, begun at a seed.
fn compare(
    rt: &impl Abort,
    alloc: Global,
    seed: u64,
    policies: u32,
    states: u32,
    calls: u32,
) -> Result<(), Fail>
    requires some_policies { 1 ≤ policies }
    requires few_policies { policies ≤ 4096 }
    requires some_states { 1 ≤ states }
    requires few_states { states ≤ 8192 }
{
    let mut both = begun(alloc, policies, states)?;
    let mut dice = Dice::new(seed);
    for _call in 0..calls {
        let call = dice.call();
        both.send(rt, &mut dice, &call);
    }
    Ok(())
}

#[test]
fn small_machines_reply_alike(rt: HostRuntime) -> Result<(), Fail> {
    let alloc = rt.alloc();
    compare(&rt, alloc, 1, 16, 32, 25_000)?;
    compare(&rt, alloc, 2, 1, 1, 5_000)
}

#[test]
fn middle_machines_reply_alike(rt: HostRuntime) -> Result<(), Fail> {
    let alloc = rt.alloc();
    compare(&rt, alloc, 3, 40, 100, 30_000)
}

#[test]
fn usual_machines_reply_alike(rt: HostRuntime) -> Result<(), Fail> {
    let alloc = rt.alloc();
    compare(&rt, alloc, 4, 4096, 8192, 20_000)
}

#[test]
fn other_usual_machines_reply_alike(rt: HostRuntime) -> Result<(), Fail> {
    let alloc = rt.alloc();
    compare(&rt, alloc, 5, 4096, 8192, 20_000)
}
