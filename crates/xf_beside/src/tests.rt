//! The policies in words beside the plain machine, reply by reply, and worked rows as text.
ghost use Rattle.std.specs.Prelude.{◌<◌, ◌≤◌};

mod dice;
mod nests;
mod rows;

use super::*;
use dice::Dice;
use nests::{flow_at, key_at, spec_at, thresholds_at};
use std::alloc::Global;
use std::process::Abort;
use std::test::Fail;
use xf_batch::{Job, generate};
use xf_plain::Plain;
use xf_types::{Call, same_reply};

/// Both databases, begun empty.
#[derive(Drop)]
struct Both {
    beside: Beside,
    plain: Plain,
    /// How many calls the words answered.
    answered: u32,
}

fn begun(alloc: Global, policies: u32) -> Result<Both, Fail>
    requires some { 1 ≤ policies }
    requires most { policies ≤ 4096 }
{
    Ok(Both {
        beside: Beside::new(alloc, policies)?,
        plain: Plain::sized(alloc, policies, 0)?,
        answered: 0,
    })
}

impl Both {
    /// The two replies to a call are the same. A call that the words don't answer is left out.
    fn agree(&mut self, rt: &impl Abort, alloc: Global, batch: u64, place: u64, call: &Call) {
        if let Some(reply) = self.beside.answer(alloc, call) {
            assert!(rt; self.plain.young());
            let wanted = self.plain.step(call);
            assert!(rt;
                same_reply(&reply, &wanted),
                "batch {batch}, {place}: {call:?}: {reply:?} for {wanted:?}"
            );
            self.answered = self.answered.saturating_add(1);
        }
    }
}

#[test]
fn large_input_has_the_same_replies(rt: HostRuntime) -> Result<(), Fail> {
    let alloc = rt.alloc();
    let mut both = begun(alloc, 4096)?;
    for number in 1..5 {
        let phase = generate(alloc, 7, number, 1)?;
        for task in &phase.threads[0] {
            if let Job::One(call) = &task.job {
                both.agree(&rt, alloc, 7, task.line, call);
            }
        }
    }
    assert!(rt;
        both.answered > 4000,
        "only {} calls were answered",
        both.answered
    );
    Ok(())
}

#[test]
fn small_batches_have_the_same_replies(rt: HostRuntime) -> Result<(), Fail> {
    let alloc = rt.alloc();
    for (batch, policies) in [(1, 8), (2, 40), (3, 200)] {
        let mut both = begun(alloc, policies)?;
        let mut dice = Dice { x: batch };
        for place in 0..400 {
            let call = dice.call();
            both.agree(&rt, alloc, batch, place, &call);
        }
        assert_eq!(rt; both.answered, 400, "batch {batch}");
    }
    Ok(())
}

impl Both {
    /// A call on a policy of each kind, the thresholds in between, and flows to all of them.
    fn round(&mut self, rt: &impl Abort, alloc: Global, batch: u64, k: u8, calls: &[Call])
        requires { k < 20 }
    {
        for call in calls {
            self.agree(rt, alloc, batch, u64::from(k), call);
        }
        if k % 3 == 2 {
            let call = Call::PolicySet(thresholds_at(k / 3));
            self.agree(rt, alloc, batch, u64::from(k), &call);
        }
        for kind in 0..5 {
            let call = Call::Flow(flow_at(kind, k));
            self.agree(rt, alloc, batch, u64::from(k), &call);
        }
    }

    /// 100 policies are listed, and deleted in the same order or in the reverse.
    fn nest(&mut self, rt: &impl Abort, alloc: Global, batch: u64, reverse: bool) {
        for k in 0..20_u8 {
            let calls = [
                Call::PolicyAdd(spec_at(0, k)),
                Call::PolicyAdd(spec_at(1, k)),
                Call::PolicyAdd(spec_at(2, k)),
                Call::PolicyAdd(spec_at(3, k)),
                Call::PolicyAdd(spec_at(4, k)),
            ];
            self.round(rt, alloc, batch, k, &calls);
        }
        for turn in 0..20_u8 {
            let k = if reverse { 19 - turn } else { turn };
            let calls = [
                Call::PolicyDelete(key_at(0, k)),
                Call::PolicyDelete(key_at(1, k)),
                Call::PolicyDelete(key_at(2, k)),
                Call::PolicyDelete(key_at(3, k)),
                Call::PolicyDelete(key_at(4, k)),
            ];
            self.round(rt, alloc, batch, k, &calls);
        }
    }
}

#[test]
fn nested_prefixes_have_the_same_replies(rt: HostRuntime) -> Result<(), Fail> {
    let alloc = rt.alloc();
    let mut both = begun(alloc, 100)?;
    assert_eq!(rt; both.beside.spare(), 600);
    for (batch, reverse) in [(1, false), (2, true)] {
        both.nest(&rt, alloc, batch, reverse);
        assert_eq!(rt; both.beside.spare(), 600, "batch {batch}");
    }
    Ok(())
}
