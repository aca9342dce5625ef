//! What a flow comes to where nothing is to change.
ghost use Rattle.std.specs.Prelude.{◌≡◌, false};
ghost use Rattle.xf_types.specs.declared.call.Call.TheVariants as call;
ghost use Rattle.xf_types.specs.History.{is_contended};
ghost use Rattle.xf_live.specs.Passes.{IsHere};
ghost use Rattle.xf_desk.specs.Lending.{AreSlots, IsLent, MayLend};
ghost use Rattle.xf_desk.specs.Values.{beside_of};
ghost use Rattle.xf_serve.specs.Served.{HasSpare, IsTableOf, RepliesBy, Rests, Served};

use std::marker::Brand;
use std::sync::Wait;
use xf_cells::Load;
use xf_desk::{From, lend};
use xf_live::{Live, Pass};
use xf_meaning::layout_of;
use xf_serve::settle_still;
use xf_types::{Call, Flow, Place, Reply};
use xf_values::StateValue;
use xf_views::Entry;

/// What a flow comes to, by the words of a lent pass. Nothing is stored.
fn ask<B: From>(
    live: &Live<StateValue>,
    pass: Pass<StateValue>,
    policies: u32,
    states: u32,
    flow: &Flow,
) -> (Pass<StateValue>, Reply)
    requires said { (B.live ≡ live.now) × (B.pass ≡ pass) }
    requires slots { AreSlots live.now policies states }
    requires base { IsTableOf policies states live.now }
    requires lent { MayLend live.now pass }
    ensures here { IsHere live.now result.0 }
    ensures lent { IsLent live.now.start.policies pass result.0 false }
    ensures values { beside_of live.now.start result.0.values ≡ beside_of live.now.start pass.values }
    ensures reply { RepliesBy policies states pass.view.image.words (call.TryFlow flow.now) result.1 }
    ensures settled { is_contended result.1 ≡ false }
{
    let layout = layout_of(policies, states);
    let mut desk = lend::<(), B>(live, &(), pass, policies, states);
    let reply = xf_traffic::try_flow(&layout, &mut desk, flow);
    (desk.end(), reply)
}

/// What a flow comes to, where a template that wants a state is named and none is acquired.
pub fn try_flow<R: Wait>(
    live: &Live<StateValue>,
    rt: &R,
    pass: Pass<StateValue>,
    policies: u32,
    states: u32,
    at: Place,
    flow: Flow,
) -> Pass<StateValue>
    requires base { IsTableOf policies states live.now }
    requires rests { IsHere live.now pass × Rests pass }
    requires spare { HasSpare pass }
    ensures here { IsHere live.now result }
    ensures served { Served at (call.TryFlow flow) pass result }
{
    let mut pass = pass;
    live.enter_turn(rt, &mut pass);
    let (pass, reply) = ask::<Brand>(live, pass, policies, states, &flow);
    settle_still(
        live,
        pass,
        Entry {
            at,
            call: Call::TryFlow(flow),
            reply,
        },
    )
}
