//! The slots of the states that packets and outputs are for, by the words of a pass.
ghost use Rattle.std.specs.Prelude.{◌≡◌, false, None};
ghost use Rattle.xf_types.specs.StateList.{has_id, has_sid};
ghost use Rattle.xf_types.specs.TrafficRules.{id_of_packet};
ghost use Rattle.xf_chain.specs.Chains.{Below};
ghost use Rattle.xf_traffic.specs.Found.{IsFirst, IsLatest};
ghost use Rattle.xf_meaning.specs.Places.{states_of};
ghost use Rattle.xf_live.specs.Passes.{IsHere};
ghost use Rattle.xf_desk.specs.Lending.{AreSlots, IsLent, MayLend};
ghost use Rattle.xf_desk.specs.Values.{beside_of};
ghost use Rattle.xf_serve.specs.Served.{IsTableOf};

use std::marker::Brand;
use xf_cells::Load;
use xf_desk::{From, lend};
use xf_live::{Live, Pass};
use xf_meaning::layout_of;
use xf_types::Packet;
use xf_values::StateValue;

/// The slot of the state that a packet is for, by the words of a lent pass.
fn packet_slot_lent<B: From>(
    live: &Live<StateValue>,
    pass: Pass<StateValue>,
    policies: u32,
    states: u32,
    packet: &Packet,
) -> (Pass<StateValue>, Option<u32>)
    requires said { (B.live ≡ live.now) × (B.pass ≡ pass) }
    requires slots { AreSlots live.now policies states }
    requires base { IsTableOf policies states live.now }
    requires lent { MayLend live.now pass }
    ensures here { IsHere live.now result.0 }
    ensures lent { IsLent live.now.start.policies pass result.0 false }
    ensures values { beside_of live.now.start result.0.values ≡ beside_of live.now.start pass.values }
    ensures slot { Below states result.1 }
    ensures found { IsLatest (states_of policies states) pass.view.image.words (has_id (id_of_packet packet.now)) result.1 }
{
    let layout = layout_of(policies, states);
    let mut desk = lend::<(), B>(live, &(), pass, policies, states);
    let slot = xf_traffic::packet_slot(&layout, &mut desk, packet);
    (desk.end(), slot)
}

/// The slot of the state that a packet is for: the last one that its id names. The pass has the turn.
pub fn packet_slot(
    live: &Live<StateValue>,
    pass: Pass<StateValue>,
    policies: u32,
    states: u32,
    packet: &Packet,
) -> (Pass<StateValue>, Option<u32>)
    requires slots { AreSlots live.now policies states }
    requires base { IsTableOf policies states live.now }
    requires lent { MayLend live.now pass }
    ensures here { IsHere live.now result.0 }
    ensures lent { IsLent live.now.start.policies pass result.0 false }
    ensures values { beside_of live.now.start result.0.values ≡ beside_of live.now.start pass.values }
    ensures slot { Below states result.1 }
    ensures found { IsLatest (states_of policies states) pass.view.image.words (has_id (id_of_packet packet.now)) result.1 }
{
    packet_slot_lent::<Brand>(live, pass, policies, states, packet)
}

/// The slot of the state with a state id, by the words of a lent pass.
fn output_slot_lent<B: From>(
    live: &Live<StateValue>,
    pass: Pass<StateValue>,
    policies: u32,
    states: u32,
    sid: u64,
) -> (Pass<StateValue>, Option<u32>)
    requires said { (B.live ≡ live.now) × (B.pass ≡ pass) }
    requires slots { AreSlots live.now policies states }
    requires base { IsTableOf policies states live.now }
    requires lent { MayLend live.now pass }
    ensures here { IsHere live.now result.0 }
    ensures lent { IsLent live.now.start.policies pass result.0 false }
    ensures values { beside_of live.now.start result.0.values ≡ beside_of live.now.start pass.values }
    ensures slot { Below states result.1 }
    ensures found { IsFirst (states_of policies states) pass.view.image.words (has_sid sid) result.1 }
{
    let layout = layout_of(policies, states);
    let mut desk = lend::<(), B>(live, &(), pass, policies, states);
    let slot = xf_traffic::output_slot(&layout, &mut desk, sid, None);
    (desk.end(), slot)
}

/// The slot of the state with a state id, which an output is for. The pass has the turn.
pub fn output_slot(
    live: &Live<StateValue>,
    pass: Pass<StateValue>,
    policies: u32,
    states: u32,
    sid: u64,
) -> (Pass<StateValue>, Option<u32>)
    requires slots { AreSlots live.now policies states }
    requires base { IsTableOf policies states live.now }
    requires lent { MayLend live.now pass }
    ensures here { IsHere live.now result.0 }
    ensures lent { IsLent live.now.start.policies pass result.0 false }
    ensures values { beside_of live.now.start result.0.values ≡ beside_of live.now.start pass.values }
    ensures slot { Below states result.1 }
    ensures found { IsFirst (states_of policies states) pass.view.image.words (has_sid sid) result.1 }
{
    output_slot_lent::<Brand>(live, pass, policies, states, sid)
}
