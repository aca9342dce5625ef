//! The calls that change policies alone.
ghost use Rattle.std.specs.Prelude.{◌≡◌, ◌+◌, ◌<◌, ◌≤◌, ◌^◌, ℕ, true, false, length, slice_set, Option, Some, if◌then◌else◌};
ghost use Rattle.xf_types.specs.declared.call.Call.TheVariants as call;
ghost use Rattle.xf_types.specs.History.{is_contended};
ghost use Rattle.xf_types.specs.Moves.{is_moving};
ghost use Rattle.xf_meaning.specs.Places.{size_of};
ghost use Rattle.xf_live.specs.Passes.{IsHere};
ghost use Rattle.xf_desk.specs.Lending.{AreSlots, IsLent, MayLend};
ghost use Rattle.xf_desk.specs.Values.{beside_of};
ghost use Rattle.xf_serve.specs.Changing.{IsCalmOf, IsPlaced, PolicyAnswer};
ghost use Rattle.xf_serve.specs.Served.{AreTold, HasSpare, IsTableOf, Rests, Served};

use crate::settling::{settle_moving, settle_still};
use std::marker::Brand;
use std::sync::Wait;
use xf_cells::{Cells, read};
use xf_desk::{From, LISTED, free_slot, lend};
use xf_live::{Live, Pass};
use xf_meaning::layout_of;
use xf_spd::Spd;
use xf_types::{Call, Place, PolicySpec, Reply, Thresholds};
use xf_values::StateValue;
use xf_views::Entry;

/// The thresholds are set, and the id of the policies counts it. NoMemory where that can count no further.
pub fn set<C: Cells>(policies: u32, states: u32, words: &mut C, thresholds: &Thresholds) -> Reply
    requires some { (1 ≤ policies) × (1 ≤ states) }
    requires most { (policies ≤ 4096) × (states ≤ 8192) }
    requires size { C.size words.old ≡ size_of policies states }
    ensures size { C.size words.new ≡ C.size words.old }
    ensures begun { C.begun words.new ≡ (if is_moving result then true else C.begun words.old) }
    ensures rest { C.rest words.new ≡ C.rest words.old }
    ensures answer { PolicyAnswer policies states (C.words words.old) (C.words words.new) (call.PolicySet thresholds.now) result }
{
    let layout = layout_of(policies, states);
    let place = layout.clock + 1;
    let id = read(words, place);
    if id == u64::MAX {
        return Reply::NoMemory;
    }
    let spd = Spd {
        area: layout.policies,
    };
    let reply = xf_policies::policy_set(&spd, words, thresholds);
    words.store(place, id + 1);
    reply
}

/// The number of a policy that is listed, told one less, is below this.
const LAST_NUMBER: u64 = 0x7fff_ffff_ffff_ffff;

/// Once a policy was listed, its slot's status says so, and the id counts it. A reply that slots wait is one of want of memory: a pool of one slot has none.
fn count_added<C: Cells>(
    words: &mut C,
    slot: Option<u32>,
    place: u32,
    id: u64,
    reply: Reply,
) -> Reply
    requires begun { is_moving reply ≡ true → C.begun words.old ≡ true }
    requires slot { is_moving reply ≡ true → IsPlaced (C.size words.old) slot }
    requires place { place < C.size words.old }
    requires small { id + 1 < 2 ^ 64 }
    ensures size { C.size words.new ≡ C.size words.old }
    ensures begun { C.begun words.new ≡ C.begun words.old }
    ensures rest { C.rest words.new ≡ C.rest words.old }
    ensures added { is_moving reply ≡ true → (result ≡ reply) × ((one : ℕ) → slot ≡ Some one → C.words words.new ≡ slice_set (slice_set (C.words words.old) one 1) place (id + 1)) }
    ensures refused { is_moving reply ≡ false → (C.words words.new ≡ C.words words.old) × IsCalmOf reply result }
{
    if reply.is_moving() {
        let Some(slot) = slot else { unreachable!() };
        words.store(slot, LISTED);
        words.store(place, id + 1);
        return reply;
    }
    calm(reply)
}

/// Whether the reply comes of other threads.
fn is_contended(reply: &Reply) -> bool
    ensures { result ≡ is_contended reply.now }
{
    match reply {
        Reply::Again(_) => true,
        Reply::Full { live: _, waiting } => *waiting > 0,
        _ => false,
    }
}

/// The same reply, or want of memory where it comes of other threads.
fn calm(reply: Reply) -> Reply
    requires { is_moving reply ≡ false }
    ensures { IsCalmOf reply result }
{
    if is_contended(&reply) {
        return Reply::NoMemory;
    }
    reply
}

/// A policy is listed, and the id of the policies counts it. NoMemory where that, or the number of the policy, can count no further.
pub fn add<C: Cells>(policies: u32, states: u32, words: &mut C, spec: &PolicySpec) -> Reply
    requires some { (1 ≤ policies) × (1 ≤ states) }
    requires most { (policies ≤ 4096) × (states ≤ 8192) }
    requires size { C.size words.old ≡ size_of policies states }
    requires told { AreTold policies states (C.words words.old) }
    ensures size { C.size words.new ≡ C.size words.old }
    ensures begun { C.begun words.new ≡ (if is_moving result then true else C.begun words.old) }
    ensures rest { C.rest words.new ≡ C.rest words.old }
    ensures answer { PolicyAnswer policies states (C.words words.old) (C.words words.new) (call.PolicyAdd spec.now) result }
{
    let layout = layout_of(policies, states);
    let place = layout.clock + 1;
    let id = read(words, place);
    let number = read(words, policies + states + 1);
    if id == u64::MAX || number >= LAST_NUMBER {
        return Reply::NoMemory;
    }
    let now = read(words, layout.clock);
    let mut pool = free_slot(words, 0, policies);
    let slot = pool.slot;
    let spd = Spd {
        area: layout.policies,
    };
    let reply = xf_policies::policy_add(&spd, words, &mut pool, spec, now);
    count_added(words, slot, place, id, reply)
}

/// The same by the words of a lent pass.
fn set_lent<B: From>(
    live: &Live<StateValue>,
    pass: Pass<StateValue>,
    policies: u32,
    states: u32,
    thresholds: &Thresholds,
) -> (Pass<StateValue>, Reply)
    requires said { (B.live ≡ live.now) × (B.pass ≡ pass) }
    requires slots { AreSlots live.now policies states }
    requires base { IsTableOf policies states live.now }
    requires lent { MayLend live.now pass }
    ensures here { IsHere live.now result.0 }
    ensures lent { IsLent live.now.start.policies pass result.0 (is_moving result.1) }
    ensures values { beside_of live.now.start result.0.values ≡ beside_of live.now.start pass.values }
    ensures answer { PolicyAnswer policies states pass.view.image.words result.0.view.image.words (call.PolicySet thresholds.now) result.1 }
{
    let mut desk = lend::<(), B>(live, &(), pass, policies, states);
    let reply = set(policies, states, &mut desk, thresholds);
    (desk.end(), reply)
}

/// The thresholds are set.
pub fn policy_set<R: Wait>(
    live: &Live<StateValue>,
    rt: &R,
    pass: Pass<StateValue>,
    policies: u32,
    states: u32,
    at: Place,
    thresholds: Thresholds,
) -> Pass<StateValue>
    requires base { IsTableOf policies states live.now }
    requires rests { IsHere live.now pass × Rests pass }
    requires spare { HasSpare pass }
    ensures here { IsHere live.now result }
    ensures served { Served at (call.PolicySet thresholds) pass result }
{
    let mut pass = pass;
    live.enter_turn(rt, &mut pass);
    let (pass, reply) = set_lent::<Brand>(live, pass, policies, states, &thresholds);
    let moves = reply.is_moving();
    let entry = Entry {
        at,
        call: Call::PolicySet(thresholds),
        reply,
    };
    if moves {
        settle_moving(live, pass, entry)
    } else {
        settle_still(live, pass, entry)
    }
}

/// A policy is added by the words of a lent pass.
fn add_lent<B: From>(
    live: &Live<StateValue>,
    pass: Pass<StateValue>,
    policies: u32,
    states: u32,
    spec: &PolicySpec,
) -> (Pass<StateValue>, Reply)
    requires said { (B.live ≡ live.now) × (B.pass ≡ pass) }
    requires slots { AreSlots live.now policies states }
    requires base { IsTableOf policies states live.now }
    requires lent { MayLend live.now pass }
    requires told { AreTold policies states pass.view.image.words }
    ensures here { IsHere live.now result.0 }
    ensures lent { IsLent live.now.start.policies pass result.0 (is_moving result.1) }
    ensures values { beside_of live.now.start result.0.values ≡ beside_of live.now.start pass.values }
    ensures answer { PolicyAnswer policies states pass.view.image.words result.0.view.image.words (call.PolicyAdd spec.now) result.1 }
{
    let mut desk = lend::<(), B>(live, &(), pass, policies, states);
    let reply = add(policies, states, &mut desk, spec);
    (desk.end(), reply)
}

/// A policy is added.
pub fn policy_add<R: Wait>(
    live: &Live<StateValue>,
    rt: &R,
    pass: Pass<StateValue>,
    policies: u32,
    states: u32,
    at: Place,
    spec: PolicySpec,
) -> Pass<StateValue>
    requires base { IsTableOf policies states live.now }
    requires rests { IsHere live.now pass × Rests pass }
    requires spare { HasSpare pass }
    ensures here { IsHere live.now result }
    ensures served { Served at (call.PolicyAdd spec) pass result }
{
    let mut pass = pass;
    live.enter_turn(rt, &mut pass);
    let (pass, reply) = add_lent::<Brand>(live, pass, policies, states, &spec);
    let moves = reply.is_moving();
    let entry = Entry {
        at,
        call: Call::PolicyAdd(spec),
        reply,
    };
    if moves {
        settle_moving(live, pass, entry)
    } else {
        settle_still(live, pass, entry)
    }
}
