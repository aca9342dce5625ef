//! The calls that only read.
ghost use Rattle.std.specs.Prelude.{◌≡◌, ◌≢◌, ◌⊎◌, ◌+◌, ◌<◌, ◌^◌, ℕ, List, false, length};
ghost use Rattle.xf_types.specs.declared.call.Call.TheVariants as call;
ghost use Rattle.xf_types.specs.declared.call.Reply.TheVariants as reply;
ghost use Rattle.xf_types.specs.declared.policy.Policy.{Policy};
ghost use Rattle.xf_types.specs.declared.state.Sa.{Sa};
ghost use Rattle.xf_types.specs.Machine.{Machine};
ghost use Rattle.xf_types.specs.Steps.{step};
ghost use Rattle.xf_cells.specs.Words.{Narrows};
ghost use Rattle.xf_inexact.specs.Whole.{SpdStands};
ghost use Rattle.xf_sadimage.specs.States.{StatesStand};
ghost use Rattle.xf_rows.specs.Layouts.{Fits};
ghost use Rattle.xf_meaning.specs.Places.{size_of};
ghost use Rattle.xf_live.specs.Passes.{IsHere};
ghost use Rattle.xf_desk.specs.Lending.{AreSlots, IsLent, MayLend};
ghost use Rattle.xf_desk.specs.Values.{beside_of};
ghost use Rattle.xf_serve.specs.Served.{HasSpare, IsTableOf, RepliesBy, Rests, Served};
ghost use Rattle.xf_serve.specs.Reading.{OnlyReads};

use std::alloc::Global;
use std::marker::Brand;
use std::sync::Wait;
use xf_cells::Load;
use xf_desk::{From, lend};
use xf_live::{Live, Pass};
use xf_meaning::layout_of;
use xf_rows::Layout;
use xf_spd::Spd;
use xf_types::{Call, Place, PolicyFilter, PolicyKey, Reply, SaFilter, SaId};
use xf_values::StateValue;
use xf_views::Entry;

/// The reply to such a call, by words.
fn reply<L: Load>(alloc: Global, layout: &Layout, words: &mut L, call: &Call) -> Reply
    requires reads { OnlyReads call.now }
    requires fits { Fits layout.now (L.size words.old) }
    ensures size { L.size words.new ≡ L.size words.old }
    ensures begun { L.begun words.new ≡ L.begun words.old }
    ensures rest { L.rest words.new ≡ L.rest words.old }
    ensures among { Narrows (L.agrees words.old) (L.agrees words.new) }
    ensures reply { (image : List ℕ) (m : Machine) (es : List (ℕ × Policy)) (xs : List (ℕ × Sa)) → L.agrees words.new image → SpdStands layout.now.policies image m.shown es → StatesStand layout.now.states image m.shown xs
        → result ≢ reply.NoMemory → result ≡ (step m call.now).reply }
{
    let spd = Spd {
        area: layout.policies,
    };
    match call {
        Call::PolicyGet(key) => xf_policies::policy_get(&spd, words, key),
        Call::PolicyList(filter) => xf_policies::policy_list(&spd, words, alloc, filter),
        Call::PolicyCount => xf_policies::policy_count(&spd, words),
        Call::StateGet(id) => xf_statecalls::state_get(layout, words, id),
        Call::StateList(filter) => xf_statecalls::state_list(alloc, layout, words, filter),
        Call::StateCount => xf_statecalls::state_count(layout, words),
        _ => unreachable!(),
    }
}

/// The reply to such a call, by the words of a lent pass. Nothing is stored.
fn ask<B: From>(
    alloc: Global,
    live: &Live<StateValue>,
    pass: Pass<StateValue>,
    policies: u32,
    states: u32,
    call: &Call,
) -> (Pass<StateValue>, Reply)
    requires said { (B.live ≡ live.now) × (B.pass ≡ pass) }
    requires slots { AreSlots live.now policies states }
    requires base { IsTableOf policies states live.now }
    requires lent { MayLend live.now pass }
    requires reads { OnlyReads call.now }
    ensures here { IsHere live.now result.0 }
    ensures lent { IsLent live.now.start.policies pass result.0 false }
    ensures values { beside_of live.now.start result.0.values ≡ beside_of live.now.start pass.values }
    ensures reply { RepliesBy policies states pass.view.image.words call.now result.1 }
{
    let layout = layout_of(policies, states);
    let mut desk = lend::<(), B>(live, &(), pass, policies, states);
    let reply = reply(alloc, &layout, &mut desk, call);
    (desk.end(), reply)
}

/// A call that only reads.
pub fn read<R: Wait>(
    alloc: Global,
    live: &Live<StateValue>,
    rt: &R,
    pass: Pass<StateValue>,
    policies: u32,
    states: u32,
    at: Place,
    call: Call,
) -> Pass<StateValue>
    requires base { IsTableOf policies states live.now }
    requires rests { IsHere live.now pass × Rests pass }
    requires spare { HasSpare pass }
    requires reads { OnlyReads call }
    ensures here { IsHere live.now result }
    ensures served { Served at call pass result }
{
    let mut pass = pass;
    live.enter_turn(rt, &mut pass);
    let (mut pass, reply) = ask::<Brand>(alloc, live, pass, policies, states, &call);
    live.draw_still(&mut pass, Entry { at, call, reply });
    live.leave_turn(&mut pass);
    pass
}

/// The policy that a key names.
pub fn policy_get<R: Wait>(
    alloc: Global,
    live: &Live<StateValue>,
    rt: &R,
    pass: Pass<StateValue>,
    policies: u32,
    states: u32,
    at: Place,
    key: PolicyKey,
) -> Pass<StateValue>
    requires base { IsTableOf policies states live.now }
    requires rests { IsHere live.now pass × Rests pass }
    requires spare { HasSpare pass }
    ensures here { IsHere live.now result }
    ensures served { Served at (call.PolicyGet key) pass result }
{
    read(
        alloc,
        live,
        rt,
        pass,
        policies,
        states,
        at,
        Call::PolicyGet(key),
    )
}

/// The policies that a filter admits.
pub fn policy_list<R: Wait>(
    alloc: Global,
    live: &Live<StateValue>,
    rt: &R,
    pass: Pass<StateValue>,
    policies: u32,
    states: u32,
    at: Place,
    filter: PolicyFilter,
) -> Pass<StateValue>
    requires base { IsTableOf policies states live.now }
    requires rests { IsHere live.now pass × Rests pass }
    requires spare { HasSpare pass }
    ensures here { IsHere live.now result }
    ensures served { Served at (call.PolicyList filter) pass result }
{
    read(
        alloc,
        live,
        rt,
        pass,
        policies,
        states,
        at,
        Call::PolicyList(filter),
    )
}

/// How many policies there are of each direction.
pub fn policy_count<R: Wait>(
    alloc: Global,
    live: &Live<StateValue>,
    rt: &R,
    pass: Pass<StateValue>,
    policies: u32,
    states: u32,
    at: Place,
) -> Pass<StateValue>
    requires base { IsTableOf policies states live.now }
    requires rests { IsHere live.now pass × Rests pass }
    requires spare { HasSpare pass }
    ensures here { IsHere live.now result }
    ensures served { Served at call.PolicyCount pass result }
{
    read(
        alloc,
        live,
        rt,
        pass,
        policies,
        states,
        at,
        Call::PolicyCount,
    )
}

/// The state that an id names.
pub fn state_get<R: Wait>(
    alloc: Global,
    live: &Live<StateValue>,
    rt: &R,
    pass: Pass<StateValue>,
    policies: u32,
    states: u32,
    at: Place,
    id: SaId,
) -> Pass<StateValue>
    requires base { IsTableOf policies states live.now }
    requires rests { IsHere live.now pass × Rests pass }
    requires spare { HasSpare pass }
    ensures here { IsHere live.now result }
    ensures served { Served at (call.StateGet id) pass result }
{
    read(
        alloc,
        live,
        rt,
        pass,
        policies,
        states,
        at,
        Call::StateGet(id),
    )
}

/// The states that a filter admits.
pub fn state_list<R: Wait>(
    alloc: Global,
    live: &Live<StateValue>,
    rt: &R,
    pass: Pass<StateValue>,
    policies: u32,
    states: u32,
    at: Place,
    filter: SaFilter,
) -> Pass<StateValue>
    requires base { IsTableOf policies states live.now }
    requires rests { IsHere live.now pass × Rests pass }
    requires spare { HasSpare pass }
    ensures here { IsHere live.now result }
    ensures served { Served at (call.StateList filter) pass result }
{
    read(
        alloc,
        live,
        rt,
        pass,
        policies,
        states,
        at,
        Call::StateList(filter),
    )
}

/// How many states there are.
pub fn state_count<R: Wait>(
    alloc: Global,
    live: &Live<StateValue>,
    rt: &R,
    pass: Pass<StateValue>,
    policies: u32,
    states: u32,
    at: Place,
) -> Pass<StateValue>
    requires base { IsTableOf policies states live.now }
    requires rests { IsHere live.now pass × Rests pass }
    requires spare { HasSpare pass }
    ensures here { IsHere live.now result }
    ensures served { Served at call.StateCount pass result }
{
    read(
        alloc,
        live,
        rt,
        pass,
        policies,
        states,
        at,
        Call::StateCount,
    )
}
