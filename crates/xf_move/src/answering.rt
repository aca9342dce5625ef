//! What the state in a slot, whose turn is held, answers a packet or an output.
ghost use Rattle.std.specs.Prelude.{◌≡◌, ◌+◌, ◌<◌, true, false, Some};
ghost use Rattle.xf_types.specs.declared.call.Call.TheVariants as call;
ghost use Rattle.xf_types.specs.declared.call.Place.{Place};
ghost use Rattle.xf_types.specs.History.{is_contended};
ghost use Rattle.xf_types.specs.Moves.{is_moving};
ghost use Rattle.xf_types.specs.StateList.{has_id, has_sid};
ghost use Rattle.xf_types.specs.TrafficRules.{id_of_packet};
ghost use Rattle.xf_rows.specs.Values.{Beside};
ghost use Rattle.xf_traffic.specs.Found.{IsFirst, IsLatest};
ghost use Rattle.xf_meaning.specs.Calls.{AnswersAll};
ghost use Rattle.xf_meaning.specs.Places.{states_of};
ghost use Rattle.xf_live.specs.Passes.{IsHere};
ghost use Rattle.xf_live.specs.Values.{holds};
ghost use Rattle.xf_desk.specs.Lending.{AreSlots, IsLent, MayLend};
ghost use Rattle.xf_desk.specs.Values.{beside_of};
ghost use Rattle.xf_serve.specs.Served.{IsTableOf};
ghost use Rattle.xf_move.specs.OnSlot.{IsAnsweredOn, KnowsAll};

use std::marker::Brand;
use std::sync::Wait;
use xf_cells::{Cells, Load};
use xf_desk::{From, full_pool, lend};
use xf_live::{Live, Pass};
use xf_meaning::layout_of;
use xf_parts::Parts;
use xf_types::{Packet, Reply};
use xf_values::StateValue;

/// A packet to the state in a slot, by the words and values of a lent pass.
fn packet_lent<R: Wait, B: From>(
    live: &Live<StateValue>,
    rt: &R,
    pass: Pass<StateValue>,
    policies: u32,
    states: u32,
    slot: u32,
    packet: &Packet,
) -> (Pass<StateValue>, Reply)
    requires said { (B.live ≡ live.now) × (B.pass ≡ pass) }
    requires slots { AreSlots live.now policies states }
    requires base { IsTableOf policies states live.now }
    requires lent { MayLend live.now pass }
    requires knows { KnowsAll policies states live.now.start pass }
    requires slot { slot < states }
    requires held { holds pass.values (policies + slot) ≡ true }
    requires found { IsLatest (states_of policies states) pass.view.image.words (has_id (id_of_packet packet.now)) (Some slot) }
    ensures here { IsHere live.now result.0 }
    ensures lent { is_moving result.1 ≡ false → IsLent live.now.start.policies pass result.0 false }
    ensures turns { Beside.held (beside_of live.now.start result.0.values) ≡ Beside.held (beside_of live.now.start pass.values) }
    ensures settled { is_contended result.1 ≡ false }
    ensures answers { AnswersAll policies states pass.view.image.words (beside_of live.now.start pass.values) result.0.view.image.words (beside_of live.now.start result.0.values) (call.Packet packet.now) result.1 }
{
    let layout = layout_of(policies, states);
    let mut desk = lend::<R, B>(live, rt, pass, policies, states);
    let mut pool = full_pool(&mut desk, policies, states);
    let reply = xf_traffic::packet_held(&layout, &mut desk, &mut pool, slot, packet);
    (desk.end(), reply)
}

/// An output of so many bytes from the state in a slot, by the words and values of a lent pass.
fn output_lent<R: Wait, B: From>(
    live: &Live<StateValue>,
    rt: &R,
    pass: Pass<StateValue>,
    policies: u32,
    states: u32,
    slot: u32,
    sid: u64,
    len: u32,
) -> (Pass<StateValue>, Reply)
    requires said { (B.live ≡ live.now) × (B.pass ≡ pass) }
    requires slots { AreSlots live.now policies states }
    requires base { IsTableOf policies states live.now }
    requires lent { MayLend live.now pass }
    requires knows { KnowsAll policies states live.now.start pass }
    requires slot { slot < states }
    requires held { holds pass.values (policies + slot) ≡ true }
    requires found { IsFirst (states_of policies states) pass.view.image.words (has_sid sid) (Some slot) }
    ensures here { IsHere live.now result.0 }
    ensures lent { is_moving result.1 ≡ false → IsLent live.now.start.policies pass result.0 false }
    ensures turns { Beside.held (beside_of live.now.start result.0.values) ≡ Beside.held (beside_of live.now.start pass.values) }
    ensures settled { is_contended result.1 ≡ false }
    ensures answers { AnswersAll policies states pass.view.image.words (beside_of live.now.start pass.values) result.0.view.image.words (beside_of live.now.start result.0.values) (call.Output sid len) result.1 }
{
    let layout = layout_of(policies, states);
    let mut desk = lend::<R, B>(live, rt, pass, policies, states);
    let mut pool = full_pool(&mut desk, policies, states);
    let reply = xf_traffic::output_held(&layout, &mut desk, &mut pool, slot, sid, len);
    (desk.end(), reply)
}

/// What a packet to the state in a slot is answered. The pass has the turn of the database and that of the slot. Where the reply moves nothing it may be drawn at once.
pub fn answer_packet<R: Wait>(
    live: &Live<StateValue>,
    rt: &R,
    pass: Pass<StateValue>,
    policies: u32,
    states: u32,
    slot: u32,
    packet: &Packet,
) -> (Pass<StateValue>, Reply)
    requires slots { AreSlots live.now policies states }
    requires base { IsTableOf policies states live.now }
    requires lent { MayLend live.now pass }
    requires knows { KnowsAll policies states live.now.start pass }
    requires slot { slot < states }
    requires held { holds pass.values (policies + slot) ≡ true }
    requires found { IsLatest (states_of policies states) pass.view.image.words (has_id (id_of_packet packet.now)) (Some slot) }
    ensures here { IsHere live.now result.0 }
    ensures lent { is_moving result.1 ≡ false → IsLent live.now.start.policies pass result.0 false }
    ensures answered { (at : Place) → is_moving result.1 ≡ false → IsAnsweredOn live.now.start slot result.0 (record { at = at; call = call.Packet packet.now; reply = result.1 }) }
{
    packet_lent::<R, Brand>(live, rt, pass, policies, states, slot, packet)
}

/// What an output of so many bytes from the state in a slot is answered. The pass has the turn of the database and that of the slot. Where the reply moves nothing it may be drawn at once.
pub fn answer_output<R: Wait>(
    live: &Live<StateValue>,
    rt: &R,
    pass: Pass<StateValue>,
    policies: u32,
    states: u32,
    slot: u32,
    sid: u64,
    len: u32,
) -> (Pass<StateValue>, Reply)
    requires slots { AreSlots live.now policies states }
    requires base { IsTableOf policies states live.now }
    requires lent { MayLend live.now pass }
    requires knows { KnowsAll policies states live.now.start pass }
    requires slot { slot < states }
    requires held { holds pass.values (policies + slot) ≡ true }
    requires found { IsFirst (states_of policies states) pass.view.image.words (has_sid sid) (Some slot) }
    ensures here { IsHere live.now result.0 }
    ensures lent { is_moving result.1 ≡ false → IsLent live.now.start.policies pass result.0 false }
    ensures answered { (at : Place) → is_moving result.1 ≡ false → IsAnsweredOn live.now.start slot result.0 (record { at = at; call = call.Output sid len; reply = result.1 }) }
{
    output_lent::<R, Brand>(live, rt, pass, policies, states, slot, sid, len)
}
