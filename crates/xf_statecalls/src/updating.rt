//! The state that an id names is updated: a larval one leaves for a new one, one in use is refreshed.
ghost use Rattle.std.specs.Prelude.{◌≡◌, ◌≢◌, ℕ, ◌<◌, ◌^◌, Bool, true, false, List, Some, IsErr, IfOk, is_ok, IsTrue, if◌then◌else◌, ◌⊎◌};
ghost use Rattle.xf_types.specs.declared.call.Call.TheVariants.{StateUpdate};
ghost use Rattle.xf_types.specs.declared.state.Sa.{Sa};
ghost use Rattle.xf_types.specs.Codes.{is_refusal_of};
ghost use Rattle.xf_types.specs.History.{is_contended};
ghost use Rattle.xf_types.specs.Machine.{Machine, Shown};
ghost use Rattle.xf_types.specs.StateList.{has_id, id_of};
ghost use Rattle.xf_types.specs.StateRules as rule;
ghost use Rattle.xf_asked.specs.Fields as field;
ghost use Rattle.xf_image.specs.Frames.{Frame};
ghost use Rattle.xf_index.specs.Finds.{slot_found};
ghost use Rattle.xf_sadidx.specs.Founds.{latest_in};
ghost use Rattle.xf_sadidx.specs.Layout.{end_of, record_at, record_place};
ghost use Rattle.xf_sadimage.specs.States.{StatesStand};
ghost use Rattle.xf_sadlist.specs.Listed.{next_sid_in};
ghost use Rattle.xf_sad.specs.Changes.{IsAt, Comes};
ghost use Rattle.xf_sad.specs.Lookups.{named_in};
ghost use Rattle.xf_sad.specs.Replies.{ReplyIs, sid_told};
ghost use Rattle.xf_sad.specs.Places.{KeepsPlaces, SlotCame};
ghost use Rattle.xf_sad.specs.Slots.{PoolFits, Where, listed_in};
ghost use Rattle.xf_rows.specs.Layouts.{Fits};
ghost use Rattle.xf_rows.specs.Replies.{Answers};
ghost use Rattle.xf_rows.specs.Stands.{Stands};
ghost use Rattle.xf_statecalls.specs.Ready.{IsReady, Stood, LeavesOthers, IsSame};
ghost use Rattle.xf_statecalls.specs.Windows.{IsWindowOf};

use crate::here::{found_here, new_here};
use crate::refreshing::state_refresh_ready;
use crate::replying::fault_reply;
use crate::values::turn_values;
use crate::windows::window_for;
use std::alloc::Global;
use xf_asked::larval_at;
use xf_cells::{Cells, Load, Pool};
use xf_held::id_of;
use xf_parts::Parts;
use xf_replay::Window;
use xf_rows::Layout;
use xf_sad::{Sad, SadFault};
use xf_types::{Reply, SaSpec};

/// Whether the state in a slot is larval.
fn larval_here<D: Parts>(layout: &Layout, parts: &mut D, slot: u32) -> bool
    requires fits { Fits layout.now (D.size parts.old) }
    requires slot { slot < layout.now.states.slots }
    ensures size { D.size parts.new ≡ D.size parts.old }
    ensures begun { D.begun parts.new ≡ D.begun parts.old }
    ensures words { D.words parts.new ≡ D.words parts.old }
    ensures hidden { D.hidden parts.new ≡ D.hidden parts.old }
    ensures beside { D.beside parts.new ≡ D.beside parts.old }
    ensures answer { result ≡ field.larval_at (D.words parts.old) (record_place layout.now.states slot) }
{
    larval_at(parts, layout.states.record_place(slot))
}

/// Updates the words of the state that an id names. No value is touched.
fn update_here<D: Parts, P: Pool>(
    layout: &Layout,
    parts: &mut D,
    pool: &mut P,
    spec: &SaSpec,
    now: u64,
) -> Result<u32, SadFault>
    requires fits { Fits layout.now (D.size parts.old) }
    requires spent { P.spent pool.old ≡ false }
    requires below { (slot : ℕ) → P.gives pool.old slot → slot < layout.now.states.slots }
    requires back { Where (P.takes pool.old) (named_in layout.now.states (D.words parts.old) (id_of spec.now)) }
    ensures size { D.size parts.new ≡ D.size parts.old }
    ensures begun { D.begun parts.new ≡ (if is_ok result then true else D.begun parts.old) }
    ensures hidden { D.hidden parts.new ≡ D.hidden parts.old }
    ensures beside { D.beside parts.new ≡ D.beside parts.old }
    ensures capacity { P.capacity pool.new ≡ P.capacity pool.old }
    ensures lasts { P.lasts pool.new ≡ P.lasts pool.old }
    ensures frame { Frame layout.now.states.base (end_of layout.now.states) (D.words parts.old) (D.words parts.new) }
    ensures refused { IsErr result → D.words parts.new ≡ D.words parts.old }
    ensures reply { (s : Shown) (es : List (ℕ × Sa)) → IsAt s now → StatesStand layout.now.states (D.words parts.old) s es → PoolFits (P.capacity pool.old) (P.taken pool.old) (P.gives pool.old) (P.takes pool.old) layout.now.states.slots (listed_in layout.now.states (D.words parts.old)) → ReplyIs (P.held pool.new) s (λ t. (rule.state_update t spec.now).reply) (sid_told layout.now.states (D.words parts.new)) result }
    ensures comes { (s : Shown) (es : List (ℕ × Sa)) (slot : ℕ) (old : Sa) → latest_in (has_id (id_of spec.now)) es ≡ Some (slot, old) → old.larval ≡ true → IsAt s now → StatesStand layout.now.states (D.words parts.old) s es → PoolFits (P.capacity pool.old) (P.taken pool.old) (P.gives pool.old) (P.takes pool.old) layout.now.states.slots (listed_in layout.now.states (D.words parts.old)) → IfOk result (λ new. Comes layout.now.states (D.words parts.new) s es (P.gives pool.old) (Some slot) new (rule.state_update s spec.now)) }
    ensures pool { (s : Shown) (es : List (ℕ × Sa)) → P.lasts pool.old ≡ true → IsAt s now → StatesStand layout.now.states (D.words parts.old) s es → PoolFits (P.capacity pool.old) (P.taken pool.old) (P.gives pool.old) (P.takes pool.old) layout.now.states.slots (listed_in layout.now.states (D.words parts.old)) → PoolFits (P.capacity pool.new) (P.taken pool.new) (P.gives pool.new) (P.takes pool.new) layout.now.states.slots (listed_in layout.now.states (D.words parts.new)) }
{
    (Sad {
        area: layout.states,
    })
    .update(parts, pool, spec, now)
}

/// Lists a new state, whose window is made, in the place of the larval one in a slot, which is the one that the request's id names and whose turn is
/// held. Full where it is refused.
pub fn state_update_ready<D: Parts, P: Pool>(
    layout: &Layout,
    parts: &mut D,
    pool: &mut P,
    spec: &SaSpec,
    window: Window,
    slot: u32,
) -> Reply
    requires ready { IsReady layout.now (D.size parts.old) (D.hidden parts.old) (D.beside parts.old) (P.spent pool.old) (P.gives pool.old) }
    requires stands { Stood layout.now (D.words parts.old) (D.beside parts.old) }
    requires pool { PoolFits (P.capacity pool.old) (P.taken pool.old) (P.gives pool.old) (P.takes pool.old) layout.now.states.slots (listed_in layout.now.states (D.words parts.old)) }
    requires young { next_sid_in layout.now.states (D.words parts.old) < 2 ^ 63 }
    requires window { IsWindowOf window spec.now }
    requires slot { slot < layout.now.states.slots }
    requires held { (D.beside parts.old).held slot ≡ true }
    requires found { (s : Shown) (es : List (ℕ × Sa)) → StatesStand layout.now.states (D.words parts.old) s es → Some slot ≡ slot_found (latest_in (has_id (id_of spec.now)) es) }
    requires larval { (r : Sa) → record_at layout.now.states (D.words parts.old) slot ≡ Some r → r.larval ≡ true }
    ensures size { D.size parts.new ≡ D.size parts.old }
    ensures hidden { D.hidden parts.new ≡ D.hidden parts.old }
    ensures capacity { P.capacity pool.new ≡ P.capacity pool.old }
    ensures lasts { P.lasts pool.new ≡ P.lasts pool.old }
    ensures given { is_refusal_of result ≡ false → SlotCame (P.gives pool.old) (Some slot) (listed_in layout.now.states (D.words parts.old)) (listed_in layout.now.states (D.words parts.new)) }
    ensures places { KeepsPlaces layout.now.states (D.beside parts.old).held (D.words parts.old) (D.words parts.new) }
    ensures others { LeavesOthers layout.now (D.hidden parts.old) (D.words parts.old) (D.words parts.new) (D.beside parts.old) (D.beside parts.new) }
    ensures memory { result ≢ Reply.NoMemory }
    ensures settled { P.held pool.new ≡ 0 → is_contended result ≡ false }
    ensures refused { IsTrue (is_refusal_of result) → IsSame (D.words parts.old) (D.words parts.new) (D.beside parts.old) (D.beside parts.new) (D.begun parts.old) (D.begun parts.new) }
    ensures answer { (m : Machine) → Stands layout.now (D.words parts.old) (D.beside parts.old) m → Answers layout.now (D.words parts.new) (D.beside parts.new) m (StateUpdate spec.now) result }
    ensures pool { P.lasts pool.old ≡ true → PoolFits (P.capacity pool.new) (P.taken pool.new) (P.gives pool.new) (P.takes pool.new) layout.now.states.slots (listed_in layout.now.states (D.words parts.new)) }
{
    let state = new_here(layout, parts, spec, false);
    match update_here(layout, parts, pool, spec, state.added) {
        Err(fault) => fault_reply(fault),
        Ok(new) => {
            turn_values(parts, Some(slot), new, &state, window);
            Reply::DoneSid(state.sid)
        }
    }
}

/// Updates the larval state in a slot: the window is made first.
fn update_larval<D: Parts, P: Pool>(
    alloc: Global,
    layout: &Layout,
    parts: &mut D,
    pool: &mut P,
    spec: &SaSpec,
    slot: u32,
) -> Reply
    requires ready { IsReady layout.now (D.size parts.old) (D.hidden parts.old) (D.beside parts.old) (P.spent pool.old) (P.gives pool.old) }
    requires stands { Stood layout.now (D.words parts.old) (D.beside parts.old) }
    requires pool { PoolFits (P.capacity pool.old) (P.taken pool.old) (P.gives pool.old) (P.takes pool.old) layout.now.states.slots (listed_in layout.now.states (D.words parts.old)) }
    requires young { next_sid_in layout.now.states (D.words parts.old) < 2 ^ 63 }
    requires slot { slot < layout.now.states.slots }
    requires held { (D.beside parts.old).held slot ≡ true }
    requires found { (s : Shown) (es : List (ℕ × Sa)) → StatesStand layout.now.states (D.words parts.old) s es → Some slot ≡ slot_found (latest_in (has_id (id_of spec.now)) es) }
    requires larval { (r : Sa) → record_at layout.now.states (D.words parts.old) slot ≡ Some r → r.larval ≡ true }
    ensures size { D.size parts.new ≡ D.size parts.old }
    ensures hidden { D.hidden parts.new ≡ D.hidden parts.old }
    ensures capacity { P.capacity pool.new ≡ P.capacity pool.old }
    ensures lasts { P.lasts pool.new ≡ P.lasts pool.old }
    ensures given { is_refusal_of result ≡ false → SlotCame (P.gives pool.old) (Some slot) (listed_in layout.now.states (D.words parts.old)) (listed_in layout.now.states (D.words parts.new)) }
    ensures places { KeepsPlaces layout.now.states (D.beside parts.old).held (D.words parts.old) (D.words parts.new) }
    ensures others { LeavesOthers layout.now (D.hidden parts.old) (D.words parts.old) (D.words parts.new) (D.beside parts.old) (D.beside parts.new) }
    ensures settled { P.held pool.new ≡ 0 → is_contended result ≡ false }
    ensures refused { IsTrue (is_refusal_of result) → IsSame (D.words parts.old) (D.words parts.new) (D.beside parts.old) (D.beside parts.new) (D.begun parts.old) (D.begun parts.new) }
    ensures answer { (m : Machine) → Stands layout.now (D.words parts.old) (D.beside parts.old) m → Answers layout.now (D.words parts.new) (D.beside parts.new) m (StateUpdate spec.now) result }
    ensures pool { P.lasts pool.old ≡ true → PoolFits (P.capacity pool.new) (P.taken pool.new) (P.gives pool.new) (P.takes pool.new) layout.now.states.slots (listed_in layout.now.states (D.words parts.new)) }
{
    match window_for(alloc, spec) {
        Err(_) => Reply::NoMemory,
        Ok(window) => state_update_ready(layout, parts, pool, spec, window, slot),
    }
}

/// Updates the state in a slot, which is the one that the request's id names and whose turn is held. Full or NoMemory where it is refused.
pub fn state_update_at<D: Parts, P: Pool>(
    alloc: Global,
    layout: &Layout,
    parts: &mut D,
    pool: &mut P,
    spec: &SaSpec,
    slot: u32,
) -> Reply
    requires ready { IsReady layout.now (D.size parts.old) (D.hidden parts.old) (D.beside parts.old) (P.spent pool.old) (P.gives pool.old) }
    requires stands { Stood layout.now (D.words parts.old) (D.beside parts.old) }
    requires pool { PoolFits (P.capacity pool.old) (P.taken pool.old) (P.gives pool.old) (P.takes pool.old) layout.now.states.slots (listed_in layout.now.states (D.words parts.old)) }
    requires young { next_sid_in layout.now.states (D.words parts.old) < 2 ^ 63 }
    requires slot { slot < layout.now.states.slots }
    requires held { (D.beside parts.old).held slot ≡ true }
    requires found { (s : Shown) (es : List (ℕ × Sa)) → StatesStand layout.now.states (D.words parts.old) s es → Some slot ≡ slot_found (latest_in (has_id (id_of spec.now)) es) }
    ensures size { D.size parts.new ≡ D.size parts.old }
    ensures hidden { D.hidden parts.new ≡ D.hidden parts.old }
    ensures capacity { P.capacity pool.new ≡ P.capacity pool.old }
    ensures lasts { P.lasts pool.new ≡ P.lasts pool.old }
    ensures given { is_refusal_of result ≡ false → SlotCame (P.gives pool.old) (Some slot) (listed_in layout.now.states (D.words parts.old)) (listed_in layout.now.states (D.words parts.new)) ⊎ (listed_in layout.now.states (D.words parts.new) ≡ listed_in layout.now.states (D.words parts.old)) }
    ensures places { KeepsPlaces layout.now.states (D.beside parts.old).held (D.words parts.old) (D.words parts.new) }
    ensures others { LeavesOthers layout.now (D.hidden parts.old) (D.words parts.old) (D.words parts.new) (D.beside parts.old) (D.beside parts.new) }
    ensures settled { P.held pool.new ≡ 0 → is_contended result ≡ false }
    ensures refused { IsTrue (is_refusal_of result) → IsSame (D.words parts.old) (D.words parts.new) (D.beside parts.old) (D.beside parts.new) (D.begun parts.old) (D.begun parts.new) }
    ensures answer { (m : Machine) → Stands layout.now (D.words parts.old) (D.beside parts.old) m → Answers layout.now (D.words parts.new) (D.beside parts.new) m (StateUpdate spec.now) result }
    ensures pool { P.lasts pool.old ≡ true → PoolFits (P.capacity pool.new) (P.taken pool.new) (P.gives pool.new) (P.takes pool.new) layout.now.states.slots (listed_in layout.now.states (D.words parts.new)) }
{
    let larval = larval_here(layout, parts, slot);
    if larval {
        return update_larval(alloc, layout, parts, pool, spec, slot);
    }
    state_refresh_ready(layout, parts, spec, slot)
}

/// Updates the state that an id names: a larval one leaves for a new one in use, one in use is refreshed. NoState, Full or NoMemory where it is
/// refused. All turns are held.
pub fn state_update<D: Parts, P: Pool>(
    alloc: Global,
    layout: &Layout,
    parts: &mut D,
    pool: &mut P,
    spec: &SaSpec,
) -> Reply
    requires ready { IsReady layout.now (D.size parts.old) (D.hidden parts.old) (D.beside parts.old) (P.spent pool.old) (P.gives pool.old) }
    requires turns { (slot : ℕ) → (D.beside parts.old).held slot ≡ true }
    requires stands { Stood layout.now (D.words parts.old) (D.beside parts.old) }
    requires pool { PoolFits (P.capacity pool.old) (P.taken pool.old) (P.gives pool.old) (P.takes pool.old) layout.now.states.slots (listed_in layout.now.states (D.words parts.old)) }
    requires young { next_sid_in layout.now.states (D.words parts.old) < 2 ^ 63 }
    ensures size { D.size parts.new ≡ D.size parts.old }
    ensures hidden { D.hidden parts.new ≡ D.hidden parts.old }
    ensures capacity { P.capacity pool.new ≡ P.capacity pool.old }
    ensures lasts { P.lasts pool.new ≡ P.lasts pool.old }
    ensures given { is_refusal_of result ≡ false → SlotCame (P.gives pool.old) (named_in layout.now.states (D.words parts.old) (id_of spec.now)) (listed_in layout.now.states (D.words parts.old)) (listed_in layout.now.states (D.words parts.new)) ⊎ (listed_in layout.now.states (D.words parts.new) ≡ listed_in layout.now.states (D.words parts.old)) }
    ensures places { KeepsPlaces layout.now.states (D.beside parts.old).held (D.words parts.old) (D.words parts.new) }
    ensures others { LeavesOthers layout.now (D.hidden parts.old) (D.words parts.old) (D.words parts.new) (D.beside parts.old) (D.beside parts.new) }
    ensures settled { P.held pool.new ≡ 0 → is_contended result ≡ false }
    ensures refused { IsTrue (is_refusal_of result) → IsSame (D.words parts.old) (D.words parts.new) (D.beside parts.old) (D.beside parts.new) (D.begun parts.old) (D.begun parts.new) }
    ensures answer { (m : Machine) → Stands layout.now (D.words parts.old) (D.beside parts.old) m → Answers layout.now (D.words parts.new) (D.beside parts.new) m (StateUpdate spec.now) result }
    ensures pool { P.lasts pool.old ≡ true → PoolFits (P.capacity pool.new) (P.taken pool.new) (P.gives pool.new) (P.takes pool.new) layout.now.states.slots (listed_in layout.now.states (D.words parts.new)) }
{
    let id = id_of(spec);
    match found_here(layout, parts, &id) {
        None => Reply::NoState,
        Some(slot) => state_update_at(alloc, layout, parts, pool, spec, slot),
    }
}
