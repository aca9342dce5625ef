//! The state that an id names leaves.
ghost use Rattle.std.specs.Prelude.{◌≡◌, ◌≢◌, ℕ, ◌<◌, ◌^◌, Bool, true, false, List, Some, IsTrue, length};
ghost use Rattle.xf_types.specs.declared.call.Call.TheVariants.{StateDelete};
ghost use Rattle.xf_types.specs.declared.state.Sa.{Sa};
ghost use Rattle.xf_types.specs.Codes.{is_refusal_of};
ghost use Rattle.xf_types.specs.History.{is_contended};
ghost use Rattle.xf_types.specs.Machine.{Machine, Shown};
ghost use Rattle.xf_types.specs.StateList.{has_id};
ghost use Rattle.xf_asked.specs.Fields as field;
ghost use Rattle.xf_index.specs.Finds.{slot_found};
ghost use Rattle.xf_sadidx.specs.Founds.{latest_in};
ghost use Rattle.xf_sadidx.specs.Layout.{record_place};
ghost use Rattle.xf_sadimage.specs.States.{StatesStand};
ghost use Rattle.xf_sad.specs.Places.{KeepsPlaces, slots_but};
ghost use Rattle.xf_sad.specs.Slots.{PoolFits, listed_in};
ghost use Rattle.xf_rows.specs.Layouts.{Fits};
ghost use Rattle.xf_rows.specs.Replies.{Answers};
ghost use Rattle.xf_rows.specs.Stands.{Stands};
ghost use Rattle.xf_statecalls.specs.Ready.{IsReady, Stood, LeavesOthers, IsSame};

use crate::here::found_here;
use crate::removing::leave;
use xf_asked::sid_at;
use xf_cells::{Cells, Load, Pool};
use xf_parts::Parts;
use xf_rows::Layout;
use xf_types::{Reply, SaId};

/// The state id in a slot.
fn sid_in_here<D: Parts>(layout: &Layout, parts: &mut D, slot: u32) -> u64
    requires fits { Fits layout.now (D.size parts.old) }
    requires slot { slot < layout.now.states.slots }
    ensures size { D.size parts.new ≡ D.size parts.old }
    ensures begun { D.begun parts.new ≡ D.begun parts.old }
    ensures words { D.words parts.new ≡ D.words parts.old }
    ensures hidden { D.hidden parts.new ≡ D.hidden parts.old }
    ensures beside { D.beside parts.new ≡ D.beside parts.old }
    ensures answer { result ≡ field.sid_at (D.words parts.old) (record_place layout.now.states slot) }
{
    sid_at(parts, layout.states.record_place(slot))
}

/// Removes the state in a slot, which is the one that an id names and whose turn is held. The pool takes back its slot.
pub fn state_delete_ready<D: Parts, P: Pool>(
    layout: &Layout,
    parts: &mut D,
    pool: &mut P,
    id: &SaId,
    slot: u32,
) -> Reply
    requires ready { IsReady layout.now (D.size parts.old) (D.hidden parts.old) (D.beside parts.old) (P.spent pool.old) (P.gives pool.old) }
    requires stands { Stood layout.now (D.words parts.old) (D.beside parts.old) }
    requires pool { PoolFits (P.capacity pool.old) (P.taken pool.old) (P.gives pool.old) (P.takes pool.old) layout.now.states.slots (listed_in layout.now.states (D.words parts.old)) }
    requires slot { slot < layout.now.states.slots }
    requires held { (D.beside parts.old).held slot ≡ true }
    requires found { (s : Shown) (es : List (ℕ × Sa)) → StatesStand layout.now.states (D.words parts.old) s es → Some slot ≡ slot_found (latest_in (has_id id.now) es) }
    ensures size { D.size parts.new ≡ D.size parts.old }
    ensures begun { D.begun parts.new ≡ true }
    ensures hidden { D.hidden parts.new ≡ D.hidden parts.old }
    ensures capacity { P.capacity pool.new ≡ P.capacity pool.old }
    ensures lasts { P.lasts pool.new ≡ P.lasts pool.old }
    ensures returned { P.returned pool.new slot }
    ensures out { P.taken pool.new ≡ length (listed_in layout.now.states (D.words parts.new)) }
    ensures list { listed_in layout.now.states (D.words parts.new) ≡ slots_but (Some slot) (listed_in layout.now.states (D.words parts.old)) }
    ensures places { KeepsPlaces layout.now.states (D.beside parts.old).held (D.words parts.old) (D.words parts.new) }
    ensures others { LeavesOthers layout.now (D.hidden parts.old) (D.words parts.old) (D.words parts.new) (D.beside parts.old) (D.beside parts.new) }
    ensures settled { is_contended result ≡ false }
    ensures done { is_refusal_of result ≡ false }
    ensures answer { (m : Machine) → Stands layout.now (D.words parts.old) (D.beside parts.old) m → Answers layout.now (D.words parts.new) (D.beside parts.new) m (StateDelete id.now) result }
    ensures pool { P.lasts pool.old ≡ true → PoolFits (P.capacity pool.new) (P.taken pool.new) (P.gives pool.new) (P.takes pool.new) layout.now.states.slots (listed_in layout.now.states (D.words parts.new)) }
{
    let sid = sid_in_here(layout, parts, slot);
    leave(layout, parts, pool, slot);
    Reply::DoneSid(sid)
}

/// Removes the state that an id names. NoState where there is none. All turns are held.
pub fn state_delete<D: Parts, P: Pool>(
    layout: &Layout,
    parts: &mut D,
    pool: &mut P,
    id: &SaId,
) -> Reply
    requires ready { IsReady layout.now (D.size parts.old) (D.hidden parts.old) (D.beside parts.old) (P.spent pool.old) (P.gives pool.old) }
    requires stands { Stood layout.now (D.words parts.old) (D.beside parts.old) }
    requires pool { PoolFits (P.capacity pool.old) (P.taken pool.old) (P.gives pool.old) (P.takes pool.old) layout.now.states.slots (listed_in layout.now.states (D.words parts.old)) }
    requires held { (slot : ℕ) → (D.beside parts.old).held slot ≡ true }
    ensures size { D.size parts.new ≡ D.size parts.old }
    ensures hidden { D.hidden parts.new ≡ D.hidden parts.old }
    ensures capacity { P.capacity pool.new ≡ P.capacity pool.old }
    ensures lasts { P.lasts pool.new ≡ P.lasts pool.old }
    ensures out { P.taken pool.new ≡ length (listed_in layout.now.states (D.words parts.new)) }
    ensures places { KeepsPlaces layout.now.states (D.beside parts.old).held (D.words parts.old) (D.words parts.new) }
    ensures others { LeavesOthers layout.now (D.hidden parts.old) (D.words parts.old) (D.words parts.new) (D.beside parts.old) (D.beside parts.new) }
    ensures settled { is_contended result ≡ false }
    ensures refused { IsTrue (is_refusal_of result) → IsSame (D.words parts.old) (D.words parts.new) (D.beside parts.old) (D.beside parts.new) (D.begun parts.old) (D.begun parts.new) }
    ensures answer { (m : Machine) → Stands layout.now (D.words parts.old) (D.beside parts.old) m → Answers layout.now (D.words parts.new) (D.beside parts.new) m (StateDelete id.now) result }
    ensures pool { P.lasts pool.old ≡ true → PoolFits (P.capacity pool.new) (P.taken pool.new) (P.gives pool.new) (P.takes pool.new) layout.now.states.slots (listed_in layout.now.states (D.words parts.new)) }
{
    match found_here(layout, parts, id) {
        None => Reply::NoState,
        Some(slot) => state_delete_ready(layout, parts, pool, id, slot),
    }
}
