//! A new state in use is listed, in the place of a larval one where there is one.
ghost use Rattle.std.specs.Prelude.{◌≡◌, ◌≢◌, ℕ, ◌<◌, ◌^◌, Bool, true, false, List, IsErr, IfOk, is_ok, IsTrue, if◌then◌else◌};
ghost use Rattle.xf_types.specs.declared.call.Call.TheVariants.{StateAdd};
ghost use Rattle.xf_types.specs.declared.state.Sa.{Sa};
ghost use Rattle.xf_types.specs.Codes.{is_refusal_of};
ghost use Rattle.xf_types.specs.History.{is_contended};
ghost use Rattle.xf_types.specs.Machine.{Machine, Shown};
ghost use Rattle.xf_types.specs.StateRules as rule;
ghost use Rattle.xf_chain.specs.Chains.{Below};
ghost use Rattle.xf_image.specs.Frames.{Frame};
ghost use Rattle.xf_index.specs.Finds.{slot_found};
ghost use Rattle.xf_sadidx.specs.Layout.{end_of};
ghost use Rattle.xf_sadimage.specs.States.{StatesStand};
ghost use Rattle.xf_sadfind.specs.Replaced.{larval_in};
ghost use Rattle.xf_sadlist.specs.Listed.{next_sid_in};
ghost use Rattle.xf_sad.specs.Changes.{IsAt, Comes};
ghost use Rattle.xf_sad.specs.Lookups.{replaced_in};
ghost use Rattle.xf_sad.specs.Replies.{ReplyIs, sid_told};
ghost use Rattle.xf_sad.specs.Places.{KeepsPlaces, SlotCame};
ghost use Rattle.xf_sad.specs.Slots.{PoolFits, Where, listed_in};
ghost use Rattle.xf_rows.specs.Layouts.{Fits};
ghost use Rattle.xf_rows.specs.Replies.{Answers};
ghost use Rattle.xf_rows.specs.Stands.{Stands};
ghost use Rattle.xf_statecalls.specs.Ready.{IsReady, Stood, LeavesOthers, IsSame};
ghost use Rattle.xf_statecalls.specs.Windows.{IsWindowOf};

use crate::here::{new_here, replaced_here, way_here};
use crate::replying::fault_reply;
use crate::values::turn_values;
use crate::windows::window_for;
use std::alloc::Global;
use xf_cells::{Cells, Load, Pool};
use xf_parts::Parts;
use xf_replay::Window;
use xf_rows::Layout;
use xf_sad::{Sad, SadFault};
use xf_types::{Reply, SaSpec};

/// Lists the words of a new state. No value is touched.
fn add_here<D: Parts, P: Pool>(
    layout: &Layout,
    parts: &mut D,
    pool: &mut P,
    spec: &SaSpec,
    now: u64,
) -> Result<u32, SadFault>
    requires fits { Fits layout.now (D.size parts.old) }
    requires spent { P.spent pool.old ≡ false }
    requires below { (slot : ℕ) → P.gives pool.old slot → slot < layout.now.states.slots }
    requires back { Where (P.takes pool.old) (replaced_in layout.now.states (D.words parts.old) spec.now) }
    ensures size { D.size parts.new ≡ D.size parts.old }
    ensures begun { D.begun parts.new ≡ (if is_ok result then true else D.begun parts.old) }
    ensures hidden { D.hidden parts.new ≡ D.hidden parts.old }
    ensures beside { D.beside parts.new ≡ D.beside parts.old }
    ensures capacity { P.capacity pool.new ≡ P.capacity pool.old }
    ensures lasts { P.lasts pool.new ≡ P.lasts pool.old }
    ensures frame { Frame layout.now.states.base (end_of layout.now.states) (D.words parts.old) (D.words parts.new) }
    ensures refused { IsErr result → D.words parts.new ≡ D.words parts.old }
    ensures reply { (s : Shown) (es : List (ℕ × Sa)) → IsAt s now → StatesStand layout.now.states (D.words parts.old) s es → PoolFits (P.capacity pool.old) (P.taken pool.old) (P.gives pool.old) (P.takes pool.old) layout.now.states.slots (listed_in layout.now.states (D.words parts.old)) → ReplyIs (P.held pool.new) s (λ t. (rule.state_add t spec.now).reply) (sid_told layout.now.states (D.words parts.new)) result }
    ensures comes { (s : Shown) (es : List (ℕ × Sa)) → IsAt s now → StatesStand layout.now.states (D.words parts.old) s es → PoolFits (P.capacity pool.old) (P.taken pool.old) (P.gives pool.old) (P.takes pool.old) layout.now.states.slots (listed_in layout.now.states (D.words parts.old)) → IfOk result (λ slot. Comes layout.now.states (D.words parts.new) s es (P.gives pool.old) (slot_found (larval_in spec.now es)) slot (rule.state_add s spec.now)) }
    ensures pool { (s : Shown) (es : List (ℕ × Sa)) → P.lasts pool.old ≡ true → IsAt s now → StatesStand layout.now.states (D.words parts.old) s es → PoolFits (P.capacity pool.old) (P.taken pool.old) (P.gives pool.old) (P.takes pool.old) layout.now.states.slots (listed_in layout.now.states (D.words parts.old)) → PoolFits (P.capacity pool.new) (P.taken pool.new) (P.gives pool.new) (P.takes pool.new) layout.now.states.slots (listed_in layout.now.states (D.words parts.new)) }
{
    (Sad {
        area: layout.states,
    })
    .add(parts, pool, spec, now)
}

/// Lists a new state, whose window is made, in the place of the larval one in the slot `gone`, where one is named. The turn of this slot is held.
/// StateExists or Full where it is refused.
pub fn state_add_ready<D: Parts, P: Pool>(
    layout: &Layout,
    parts: &mut D,
    pool: &mut P,
    spec: &SaSpec,
    window: Window,
    gone: Option<u32>,
) -> Reply
    requires ready { IsReady layout.now (D.size parts.old) (D.hidden parts.old) (D.beside parts.old) (P.spent pool.old) (P.gives pool.old) }
    requires stands { Stood layout.now (D.words parts.old) (D.beside parts.old) }
    requires pool { PoolFits (P.capacity pool.old) (P.taken pool.old) (P.gives pool.old) (P.takes pool.old) layout.now.states.slots (listed_in layout.now.states (D.words parts.old)) }
    requires young { next_sid_in layout.now.states (D.words parts.old) < 2 ^ 63 }
    requires window { IsWindowOf window spec.now }
    requires gone { Below layout.now.states.slots gone }
    requires held { Where (λ slot. (D.beside parts.old).held slot ≡ true) gone }
    requires found { (s : Shown) (es : List (ℕ × Sa)) → StatesStand layout.now.states (D.words parts.old) s es → gone ≡ slot_found (larval_in spec.now es) }
    ensures size { D.size parts.new ≡ D.size parts.old }
    ensures hidden { D.hidden parts.new ≡ D.hidden parts.old }
    ensures capacity { P.capacity pool.new ≡ P.capacity pool.old }
    ensures lasts { P.lasts pool.new ≡ P.lasts pool.old }
    ensures given { is_refusal_of result ≡ false → SlotCame (P.gives pool.old) gone (listed_in layout.now.states (D.words parts.old)) (listed_in layout.now.states (D.words parts.new)) }
    ensures places { KeepsPlaces layout.now.states (D.beside parts.old).held (D.words parts.old) (D.words parts.new) }
    ensures others { LeavesOthers layout.now (D.hidden parts.old) (D.words parts.old) (D.words parts.new) (D.beside parts.old) (D.beside parts.new) }
    ensures memory { result ≢ Reply.NoMemory }
    ensures settled { P.held pool.new ≡ 0 → is_contended result ≡ false }
    ensures refused { IsTrue (is_refusal_of result) → IsSame (D.words parts.old) (D.words parts.new) (D.beside parts.old) (D.beside parts.new) (D.begun parts.old) (D.begun parts.new) }
    ensures answer { (m : Machine) → Stands layout.now (D.words parts.old) (D.beside parts.old) m → Answers layout.now (D.words parts.new) (D.beside parts.new) m (StateAdd spec.now) result }
    ensures pool { P.lasts pool.old ≡ true → PoolFits (P.capacity pool.new) (P.taken pool.new) (P.gives pool.new) (P.takes pool.new) layout.now.states.slots (listed_in layout.now.states (D.words parts.new)) }
{
    let state = new_here(layout, parts, spec, false);
    match add_here(layout, parts, pool, spec, state.added) {
        Err(fault) => fault_reply(fault),
        Ok(slot) => {
            turn_values(parts, gone, slot, &state, window);
            Reply::DoneSid(state.sid)
        }
    }
}

/// What is told where no memory is found for the window of a new state: that another state is in its way, and else that.
fn without_window<D: Parts>(
    layout: &Layout,
    parts: &mut D,
    spec: &SaSpec,
    gone: Option<u32>,
) -> Reply
    requires fits { Fits layout.now (D.size parts.old) }
    requires gone { Below layout.now.states.slots gone }
    requires found { (s : Shown) (es : List (ℕ × Sa)) → StatesStand layout.now.states (D.words parts.old) s es → gone ≡ slot_found (larval_in spec.now es) }
    ensures size { D.size parts.new ≡ D.size parts.old }
    ensures hidden { D.hidden parts.new ≡ D.hidden parts.old }
    ensures same { IsSame (D.words parts.old) (D.words parts.new) (D.beside parts.old) (D.beside parts.new) (D.begun parts.old) (D.begun parts.new) }
    ensures refusal { is_refusal_of result ≡ true }
    ensures settled { is_contended result ≡ false }
    ensures answer { (m : Machine) → Stands layout.now (D.words parts.old) (D.beside parts.old) m → Answers layout.now (D.words parts.new) (D.beside parts.new) m (StateAdd spec.now) result }
{
    match way_here(layout, parts, spec, gone) {
        None => Reply::NoMemory,
        Some(sid) => Reply::StateExists(sid),
    }
}

/// Lists a new state in use, in the place of the larval one in the slot `gone`, where one is named, whose turn is held. StateExists, Full or NoMemory
/// where it is refused.
pub fn state_add_at<D: Parts, P: Pool>(
    alloc: Global,
    layout: &Layout,
    parts: &mut D,
    pool: &mut P,
    spec: &SaSpec,
    gone: Option<u32>,
) -> Reply
    requires ready { IsReady layout.now (D.size parts.old) (D.hidden parts.old) (D.beside parts.old) (P.spent pool.old) (P.gives pool.old) }
    requires stands { Stood layout.now (D.words parts.old) (D.beside parts.old) }
    requires pool { PoolFits (P.capacity pool.old) (P.taken pool.old) (P.gives pool.old) (P.takes pool.old) layout.now.states.slots (listed_in layout.now.states (D.words parts.old)) }
    requires young { next_sid_in layout.now.states (D.words parts.old) < 2 ^ 63 }
    requires gone { Below layout.now.states.slots gone }
    requires held { Where (λ slot. (D.beside parts.old).held slot ≡ true) gone }
    requires found { (s : Shown) (es : List (ℕ × Sa)) → StatesStand layout.now.states (D.words parts.old) s es → gone ≡ slot_found (larval_in spec.now es) }
    ensures size { D.size parts.new ≡ D.size parts.old }
    ensures hidden { D.hidden parts.new ≡ D.hidden parts.old }
    ensures capacity { P.capacity pool.new ≡ P.capacity pool.old }
    ensures lasts { P.lasts pool.new ≡ P.lasts pool.old }
    ensures given { is_refusal_of result ≡ false → SlotCame (P.gives pool.old) gone (listed_in layout.now.states (D.words parts.old)) (listed_in layout.now.states (D.words parts.new)) }
    ensures places { KeepsPlaces layout.now.states (D.beside parts.old).held (D.words parts.old) (D.words parts.new) }
    ensures others { LeavesOthers layout.now (D.hidden parts.old) (D.words parts.old) (D.words parts.new) (D.beside parts.old) (D.beside parts.new) }
    ensures settled { P.held pool.new ≡ 0 → is_contended result ≡ false }
    ensures refused { IsTrue (is_refusal_of result) → IsSame (D.words parts.old) (D.words parts.new) (D.beside parts.old) (D.beside parts.new) (D.begun parts.old) (D.begun parts.new) }
    ensures answer { (m : Machine) → Stands layout.now (D.words parts.old) (D.beside parts.old) m → Answers layout.now (D.words parts.new) (D.beside parts.new) m (StateAdd spec.now) result }
    ensures pool { P.lasts pool.old ≡ true → PoolFits (P.capacity pool.new) (P.taken pool.new) (P.gives pool.new) (P.takes pool.new) layout.now.states.slots (listed_in layout.now.states (D.words parts.new)) }
{
    match window_for(alloc, spec) {
        Err(_) => without_window(layout, parts, spec, gone),
        Ok(window) => state_add_ready(layout, parts, pool, spec, window, gone),
    }
}

/// Lists a new state in use; the larval one of its sequence number, protocol and destination leaves, where there is one. StateExists, Full or
/// NoMemory where it is refused. All turns are held.
pub fn state_add<D: Parts, P: Pool>(
    alloc: Global,
    layout: &Layout,
    parts: &mut D,
    pool: &mut P,
    spec: &SaSpec,
) -> Reply
    requires ready { IsReady layout.now (D.size parts.old) (D.hidden parts.old) (D.beside parts.old) (P.spent pool.old) (P.gives pool.old) }
    requires turns { (slot : ℕ) → (D.beside parts.old).held slot ≡ true }
    requires stands { Stood layout.now (D.words parts.old) (D.beside parts.old) }
    requires pool { PoolFits (P.capacity pool.old) (P.taken pool.old) (P.gives pool.old) (P.takes pool.old) layout.now.states.slots (listed_in layout.now.states (D.words parts.old)) }
    requires young { next_sid_in layout.now.states (D.words parts.old) < 2 ^ 63 }
    ensures size { D.size parts.new ≡ D.size parts.old }
    ensures hidden { D.hidden parts.new ≡ D.hidden parts.old }
    ensures capacity { P.capacity pool.new ≡ P.capacity pool.old }
    ensures lasts { P.lasts pool.new ≡ P.lasts pool.old }
    ensures given { is_refusal_of result ≡ false → SlotCame (P.gives pool.old) (replaced_in layout.now.states (D.words parts.old) spec.now) (listed_in layout.now.states (D.words parts.old)) (listed_in layout.now.states (D.words parts.new)) }
    ensures places { KeepsPlaces layout.now.states (D.beside parts.old).held (D.words parts.old) (D.words parts.new) }
    ensures others { LeavesOthers layout.now (D.hidden parts.old) (D.words parts.old) (D.words parts.new) (D.beside parts.old) (D.beside parts.new) }
    ensures settled { P.held pool.new ≡ 0 → is_contended result ≡ false }
    ensures refused { IsTrue (is_refusal_of result) → IsSame (D.words parts.old) (D.words parts.new) (D.beside parts.old) (D.beside parts.new) (D.begun parts.old) (D.begun parts.new) }
    ensures answer { (m : Machine) → Stands layout.now (D.words parts.old) (D.beside parts.old) m → Answers layout.now (D.words parts.new) (D.beside parts.new) m (StateAdd spec.now) result }
    ensures pool { P.lasts pool.old ≡ true → PoolFits (P.capacity pool.new) (P.taken pool.new) (P.gives pool.new) (P.takes pool.new) layout.now.states.slots (listed_in layout.now.states (D.words parts.new)) }
{
    let gone = replaced_here(layout, parts, spec);
    state_add_at(alloc, layout, parts, pool, spec, gone)
}
