//! Packets that come in.
ghost use Rattle.std.specs.Prelude.{◌≡◌, ℕ, ◌<◌, ◌≤◌, Bool, true, false, Some, length, if◌then◌else◌};
ghost use Rattle.xf_types.specs.declared.call.Call.TheVariants as call;
ghost use Rattle.xf_types.specs.History.{is_contended};
ghost use Rattle.xf_types.specs.Machine.{Machine};
ghost use Rattle.xf_types.specs.Moves.{says_soft};
ghost use Rattle.xf_types.specs.StateList.{has_id};
ghost use Rattle.xf_types.specs.TrafficRules.{id_of_packet};
ghost use Rattle.xf_sad.specs.Places.{KeepsPlaces, slots_but};
ghost use Rattle.xf_sad.specs.Slots.{PoolFits, listed_in};
ghost use Rattle.xf_rows.specs.Fates.{says_ended};
ghost use Rattle.xf_rows.specs.Layouts.{Fits};
ghost use Rattle.xf_rows.specs.Replies.{Answers};
ghost use Rattle.xf_rows.specs.Stands.{Stands};
ghost use Rattle.xf_traffic.specs.Following.{IsIdle};
ghost use Rattle.xf_traffic.specs.Found.{IsLatest};
ghost use Rattle.xf_statecalls.specs.Ready.{Stood, LeavesOthers};

use crate::following::follow;
use crate::lookups::packet_slot_here;
use xf_cells::{Cells, Load, Pool};
use xf_local::Inbound;
use xf_parts::Parts;
use xf_rows::Layout;
use xf_types::{Packet, Reply};

/// A packet to the state in a slot, which is the one that its id names and whose turn is held. The pool takes the slot back where the state ends.
pub fn packet_held<D: Parts, P: Pool>(
    layout: &Layout,
    parts: &mut D,
    pool: &mut P,
    slot: u32,
    packet: &Packet,
) -> Reply
    requires fits { Fits layout.now (D.size parts.old) }
    requires behind { D.hidden parts.old ≤ layout.now.policies.base }
    requires stands { Stood layout.now (D.words parts.old) (D.beside parts.old) }
    requires pool { PoolFits (P.capacity pool.old) (P.taken pool.old) (P.gives pool.old) (P.takes pool.old) layout.now.states.slots (listed_in layout.now.states (D.words parts.old)) }
    requires slot { slot < layout.now.states.slots }
    requires held { (D.beside parts.old).held slot ≡ true }
    requires found { IsLatest layout.now.states (D.words parts.old) (has_id (id_of_packet packet.now)) (Some slot) }
    ensures size { D.size parts.new ≡ D.size parts.old }
    ensures hidden { D.hidden parts.new ≡ D.hidden parts.old }
    ensures capacity { P.capacity pool.new ≡ P.capacity pool.old }
    ensures lasts { P.lasts pool.new ≡ P.lasts pool.old }
    ensures waiting { P.held pool.new ≡ P.held pool.old }
    ensures returned { says_ended result ≡ true → P.returned pool.new slot }
    ensures out { P.taken pool.new ≡ length (listed_in layout.now.states (D.words parts.new)) }
    ensures list { listed_in layout.now.states (D.words parts.new) ≡ (if says_ended result then slots_but (Some slot) (listed_in layout.now.states (D.words parts.old)) else listed_in layout.now.states (D.words parts.old)) }
    ensures places { KeepsPlaces layout.now.states (D.beside parts.old).held (D.words parts.old) (D.words parts.new) }
    ensures others { LeavesOthers layout.now (D.hidden parts.old) (D.words parts.old) (D.words parts.new) (D.beside parts.old) (D.beside parts.new) }
    ensures settled { is_contended result ≡ false }
    ensures idle { says_ended result ≡ false → says_soft result ≡ false → IsIdle (D.words parts.old) (D.words parts.new) (D.begun parts.old) (D.begun parts.new) }
    ensures answer { (m : Machine) → Stands layout.now (D.words parts.old) (D.beside parts.old) m → Answers layout.now (D.words parts.new) (D.beside parts.new) m (call.Packet packet.now) result }
    ensures pool { P.lasts pool.old ≡ true → PoolFits (P.capacity pool.new) (P.taken pool.new) (P.gives pool.new) (P.takes pool.new) layout.now.states.slots (listed_in layout.now.states (D.words parts.new)) }
{
    match parts.receive(slot, packet) {
        Inbound::Answer(reply) => {
            follow(layout, parts, pool, slot, &reply);
            reply
        }
        Inbound::Dead | Inbound::NeedsTurn => Reply::NoState,
    }
}

/// A packet that came in. NoState where its id names no state. All turns are held.
pub fn packet<D: Parts, P: Pool>(
    layout: &Layout,
    parts: &mut D,
    pool: &mut P,
    packet: &Packet,
) -> Reply
    requires fits { Fits layout.now (D.size parts.old) }
    requires behind { D.hidden parts.old ≤ layout.now.policies.base }
    requires stands { Stood layout.now (D.words parts.old) (D.beside parts.old) }
    requires pool { PoolFits (P.capacity pool.old) (P.taken pool.old) (P.gives pool.old) (P.takes pool.old) layout.now.states.slots (listed_in layout.now.states (D.words parts.old)) }
    requires held { (slot : ℕ) → (D.beside parts.old).held slot ≡ true }
    ensures size { D.size parts.new ≡ D.size parts.old }
    ensures hidden { D.hidden parts.new ≡ D.hidden parts.old }
    ensures capacity { P.capacity pool.new ≡ P.capacity pool.old }
    ensures lasts { P.lasts pool.new ≡ P.lasts pool.old }
    ensures waiting { P.held pool.new ≡ P.held pool.old }
    ensures out { P.taken pool.new ≡ length (listed_in layout.now.states (D.words parts.new)) }
    ensures places { KeepsPlaces layout.now.states (D.beside parts.old).held (D.words parts.old) (D.words parts.new) }
    ensures others { LeavesOthers layout.now (D.hidden parts.old) (D.words parts.old) (D.words parts.new) (D.beside parts.old) (D.beside parts.new) }
    ensures settled { is_contended result ≡ false }
    ensures idle { says_ended result ≡ false → says_soft result ≡ false → IsIdle (D.words parts.old) (D.words parts.new) (D.begun parts.old) (D.begun parts.new) }
    ensures answer { (m : Machine) → Stands layout.now (D.words parts.old) (D.beside parts.old) m → Answers layout.now (D.words parts.new) (D.beside parts.new) m (call.Packet packet.now) result }
    ensures pool { P.lasts pool.old ≡ true → PoolFits (P.capacity pool.new) (P.taken pool.new) (P.gives pool.new) (P.takes pool.new) layout.now.states.slots (listed_in layout.now.states (D.words parts.new)) }
{
    match packet_slot_here(layout, parts, packet) {
        None => Reply::NoState,
        Some(slot) => packet_held(layout, parts, pool, slot, packet),
    }
}
