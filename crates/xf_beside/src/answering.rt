//! One call on policies.
ghost use Rattle.std.specs.Prelude.{◌≡◌, ℕ, IsTrue, true, IfSome};
ghost use Rattle.xf_types.specs.Machine.{Machine};
ghost use Rattle.xf_types.specs.Steps.{step};
ghost use Rattle.xf_inexact.specs.Whole.{WholeFits};
ghost use Rattle.xf_beside.specs.Standing.{StandsFor, Stood, IsYoung, Answers};

use crate::adding::{add, update};
use crate::asking::ask;
use crate::leaving::Leaving;
use crate::listing::list;
use crate::looping::remove_all;
use crate::removing::delete;
use crate::replying::policy_reply;
use crate::setting::set;
use crate::telling::count;
use std::alloc::Global;
use xf_cells::{Cells, Pool};
use xf_spd::Spd;
use xf_types::{Call, Reply};

/// Whether far fewer policies were listed than there are numbers.
fn is_young<C: Cells>(spd: &Spd, c: &mut C) -> bool
    requires { WholeFits spd.now.area (C.size c.old) }
    ensures size { C.size c.new ≡ C.size c.old }
    ensures words { C.words c.new ≡ C.words c.old }
    ensures young { IsTrue result → IsYoung spd.now.area (C.words c.old) }
{
    xf_cells::read(c, spd.area.next_number_place()) < 1 << 62
}

/// What a call that changes nothing tells. None for any other call, and where a flow's policy has templates for it.
fn tell<C: Cells>(alloc: Global, spd: &Spd, c: &mut C, call: &Call) -> Option<Reply>
    requires { WholeFits spd.now.area (C.size c.old) }
    ensures size { C.size c.new ≡ C.size c.old }
    ensures words { C.words c.new ≡ C.words c.old }
{
    match call {
        Call::PolicyGet(key) => {
            let answer = spd.get(c, key);
            Some(policy_reply(answer))
        }
        Call::PolicyList(filter) => Some(list(alloc, spd, c, filter)),
        Call::PolicyCount => Some(count(spd, c)),
        Call::Flow(flow) | Call::TryFlow(flow) => ask(spd, c, flow),
        _ => None,
    }
}

/// Answers a call on policies, or a flow that asks for no state. None where the call is none of these, or where so many policies
/// were listed that their numbers may end.
pub fn answer<C: Cells, P: Pool>(
    alloc: Global,
    spd: &Spd,
    c: &mut C,
    pool: &mut P,
    call: &Call,
    now: u64,
) -> Option<Reply>
    requires fits { WholeFits spd.now.area (C.size c.old) }
    requires lasts { P.lasts pool.old ≡ true }
    requires stood { Stood spd.now.area (C.words c.old) now (P.capacity pool.old) (P.taken pool.old) (P.gives pool.old) (P.takes pool.old) }
    ensures size { C.size c.new ≡ C.size c.old }
    ensures lasts { P.lasts pool.new ≡ P.lasts pool.old }
    ensures stood { Stood spd.now.area (C.words c.new) now (P.capacity pool.new) (P.taken pool.new) (P.gives pool.new) (P.takes pool.new) }
{
    if !is_young(spd, c) {
        return None;
    }
    match call {
        Call::PolicyAdd(spec) => Some(add(spd, c, pool, spec, now)),
        Call::PolicyUpdate(spec) => Some(update(spd, c, pool, spec, now)),
        Call::PolicyDelete(key) => Some(delete(spd, c, pool, key)),
        Call::PolicyDeleteAll(filter) => {
            Some(remove_all(spd, c, pool, &Leaving::Admitted(*filter)))
        }
        Call::PolicyFlush(ptype) => Some(remove_all(spd, c, pool, &Leaving::OfPtype(*ptype))),
        Call::PolicySet(thresholds) => Some(set(spd, c, thresholds)),
        _ => tell(alloc, spd, c, call),
    }
}
