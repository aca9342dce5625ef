//! A larval state is acquired for a template that wants a state.
ghost use Rattle.std.specs.Prelude.{◌≡◌, ℕ, ◌<◌, ◌^◌, Bool, true, false, List, Some, None, IsErr, IfErr, IfOk, is_ok, if◌then◌else◌, length};
ghost use Rattle.xf_types.specs.declared.call.Call.TheVariants as call;
ghost use Rattle.xf_types.specs.declared.network.Flow.{Flow};
ghost use Rattle.xf_types.specs.declared.state.Sa.{Sa};
ghost use Rattle.xf_types.specs.FlowRules as rule;
ghost use Rattle.xf_types.specs.History.{is_contended};
ghost use Rattle.xf_types.specs.Machine.{Machine};
ghost use Rattle.xf_types.specs.Moves.{is_moving};
ghost use Rattle.xf_image.specs.Frames.{Frame};
ghost use Rattle.xf_sadidx.specs.Layout.{end_of, record_at};
ghost use Rattle.xf_sadlist.specs.Listed.{next_sid_in};
ghost use Rattle.xf_sad.specs.Changes.{Comes};
ghost use Rattle.xf_sad.specs.Replies.{FaultIs, IsRoomFault, fault_reply};
ghost use Rattle.xf_sad.specs.Places.{KeepsPlaces, SlotCame};
ghost use Rattle.xf_sad.specs.Slots.{PoolFits, listed_in};
ghost use Rattle.xf_rows.specs.Layouts.{Fits};
ghost use Rattle.xf_rows.specs.Replies.{Answers};
ghost use Rattle.xf_rows.specs.Rows.{entries_in};
ghost use Rattle.xf_rows.specs.Stands.{Stands};
ghost use Rattle.xf_rows.specs.Values.{value_put};
ghost use Rattle.xf_statecalls.specs.Ready.{IsReady, Stood, LeavesOthers, IsSame};
ghost use Rattle.xf_statecalls.specs.Windows.{IsWindowOf, value_of_new};
ghost use Rattle.xf_traffic.specs.Asked.{IsWanted};
ghost use Rattle.xf_traffic.specs.Larval.{HasLarval};

use crate::asked::Wanted;
use std::alloc::Global;
use xf_cells::{Cells, Load, Pool, read};
use xf_local::Local;
use xf_parts::Parts;
use xf_replay::Window;
use xf_rows::Layout;
use xf_sad::{Sad, SadFault};
use xf_types::{Reply, Sa, SaSpec};

/// Why no state was added, as a reply.
fn fault_reply(fault: SadFault) -> Reply
    ensures { result ≡ fault_reply fault }
{
    match fault {
        SadFault::Invalid => Reply::Invalid,
        SadFault::Exists { sid } => Reply::StateExists(sid),
        SadFault::NoState => Reply::NoState,
        SadFault::NoSpi => Reply::NoSpi,
        SadFault::Full { live, waiting } => Reply::Full { live, waiting },
    }
}

/// The window of a larval state. It takes no memory.
fn larval_window(alloc: Global, spec: &SaSpec) -> Window
    requires window { spec.now.window ≡ 0 }
    requires start { spec.now.in_seq ≡ 0 }
    ensures { IsWindowOf result spec.now }
{
    match Window::new(alloc, spec.window, spec.in_seq) {
        Ok(window) => window,
        Err(_) => unreachable!(),
    }
}

/// The state in a slot, in words that stand still.
fn state_here<D: Parts>(layout: &Layout, parts: &mut D, slot: u32) -> Option<Sa>
    requires fits { Fits layout.now (D.size parts.old) }
    requires slot { slot < layout.now.states.slots }
    ensures size { D.size parts.new ≡ D.size parts.old }
    ensures begun { D.begun parts.new ≡ D.begun parts.old }
    ensures words { D.words parts.new ≡ D.words parts.old }
    ensures hidden { D.hidden parts.new ≡ D.hidden parts.old }
    ensures beside { D.beside parts.new ≡ D.beside parts.old }
    ensures answer { result ≡ record_at layout.now.states (D.words parts.old) slot }
{
    (Sad {
        area: layout.states,
    })
    .state(parts, slot)
}

/// The value of the larval state that was listed in a slot begins, and its sequence number is told.
fn begin_larval<D: Parts>(alloc: Global, layout: &Layout, parts: &mut D, slot: u32) -> Reply
    requires fits { Fits layout.now (D.size parts.old) }
    requires slot { slot < layout.now.states.slots }
    requires count { slot < length (D.beside parts.old).values }
    requires held { (D.beside parts.old).held slot ≡ true }
    requires larval { HasLarval layout.now.states (D.words parts.old) slot }
    ensures size { D.size parts.new ≡ D.size parts.old }
    ensures begun { D.begun parts.new ≡ D.begun parts.old }
    ensures words { D.words parts.new ≡ D.words parts.old }
    ensures hidden { D.hidden parts.new ≡ D.hidden parts.old }
    ensures beside { (state : Sa) → record_at layout.now.states (D.words parts.old) slot ≡ Some state → D.beside parts.new ≡ value_put (D.beside parts.old) slot (value_of_new state) }
    ensures reply { (state : Sa) → record_at layout.now.states (D.words parts.old) slot ≡ Some state → result ≡ Reply.Acquire state.spec.seq }
{
    match state_here(layout, parts, slot) {
        None => unreachable!(),
        Some(state) => {
            let window = larval_window(alloc, &state.spec);
            parts.put(slot, Local::new(&state, window, state.added));
            Reply::Acquire(state.spec.seq)
        }
    }
}

/// Lists the larval state that a template wants in a slot of the pool. Its value is to come.
fn acquire_words<D: Parts, P: Pool>(
    layout: &Layout,
    parts: &mut D,
    pool: &mut P,
    wanted: &Wanted,
) -> Result<u32, SadFault>
    requires ready { IsReady layout.now (D.size parts.old) (D.hidden parts.old) (D.beside parts.old) (P.spent pool.old) (P.gives pool.old) }
    requires stands { Stood layout.now (D.words parts.old) (D.beside parts.old) }
    requires young { next_sid_in layout.now.states (D.words parts.old) < 2 ^ 63 }
    requires pool { PoolFits (P.capacity pool.old) (P.taken pool.old) (P.gives pool.old) (P.takes pool.old) layout.now.states.slots (listed_in layout.now.states (D.words parts.old)) }
    ensures size { D.size parts.new ≡ D.size parts.old }
    ensures begun { D.begun parts.new ≡ (if is_ok result then true else D.begun parts.old) }
    ensures hidden { D.hidden parts.new ≡ D.hidden parts.old }
    ensures beside { D.beside parts.new ≡ D.beside parts.old }
    ensures capacity { P.capacity pool.new ≡ P.capacity pool.old }
    ensures lasts { P.lasts pool.new ≡ P.lasts pool.old }
    ensures refused { IsErr result → D.words parts.new ≡ D.words parts.old }
    ensures frame { Frame layout.now.states.base (end_of layout.now.states) (D.words parts.old) (D.words parts.new) }
    ensures fault { IfErr result IsRoomFault }
    ensures full { (m : Machine) → Stands layout.now (D.words parts.old) (D.beside parts.old) m → IfErr result (λ fault. FaultIs (P.held pool.new) m.shown (λ t. (rule.acquired t wanted.now.policy wanted.now.template wanted.now.src wanted.now.dst).reply) fault) }
    ensures comes { (m : Machine) (r : Stands layout.now (D.words parts.old) (D.beside parts.old) m) → IfOk result (λ slot. Comes layout.now.states (D.words parts.new) m.shown (entries_in r.rows) (P.gives pool.old) None slot (rule.acquired m.shown wanted.now.policy wanted.now.template wanted.now.src wanted.now.dst)) }
    ensures pool { P.lasts pool.old ≡ true → PoolFits (P.capacity pool.new) (P.taken pool.new) (P.gives pool.new) (P.takes pool.new) layout.now.states.slots (listed_in layout.now.states (D.words parts.new)) }
{
    let now = read(parts, layout.clock);
    let sad = Sad {
        area: layout.states,
    };
    sad.acquire(
        parts,
        pool,
        &wanted.template,
        &wanted.policy,
        &wanted.src,
        &wanted.dst,
        now,
    )
}

/// Acquires a larval state for a template that wants a state: it asks for the state, and has a fresh sequence number, which is told. Full where it
/// is refused. The turn of each slot that the pool can give is held; no other slot is touched.
pub fn acquire<D: Parts, P: Pool>(
    alloc: Global,
    layout: &Layout,
    parts: &mut D,
    pool: &mut P,
    wanted: &Wanted,
) -> Reply
    requires ready { IsReady layout.now (D.size parts.old) (D.hidden parts.old) (D.beside parts.old) (P.spent pool.old) (P.gives pool.old) }
    requires stands { Stood layout.now (D.words parts.old) (D.beside parts.old) }
    requires young { next_sid_in layout.now.states (D.words parts.old) < 2 ^ 63 }
    requires pool { PoolFits (P.capacity pool.old) (P.taken pool.old) (P.gives pool.old) (P.takes pool.old) layout.now.states.slots (listed_in layout.now.states (D.words parts.old)) }
    ensures size { D.size parts.new ≡ D.size parts.old }
    ensures hidden { D.hidden parts.new ≡ D.hidden parts.old }
    ensures capacity { P.capacity pool.new ≡ P.capacity pool.old }
    ensures lasts { P.lasts pool.new ≡ P.lasts pool.old }
    ensures given { is_moving result ≡ true → SlotCame (P.gives pool.old) None (listed_in layout.now.states (D.words parts.old)) (listed_in layout.now.states (D.words parts.new)) }
    ensures places { KeepsPlaces layout.now.states (D.beside parts.old).held (D.words parts.old) (D.words parts.new) }
    ensures others { LeavesOthers layout.now (D.hidden parts.old) (D.words parts.old) (D.words parts.new) (D.beside parts.old) (D.beside parts.new) }
    ensures settled { P.held pool.new ≡ 0 → is_contended result ≡ false }
    ensures idle { is_moving result ≡ false → IsSame (D.words parts.old) (D.words parts.new) (D.beside parts.old) (D.beside parts.new) (D.begun parts.old) (D.begun parts.new) }
    ensures answer { (m : Machine) (flow : Flow) → Stands layout.now (D.words parts.old) (D.beside parts.old) m → IsWanted m.shown flow wanted.now → Answers layout.now (D.words parts.new) (D.beside parts.new) m (call.Flow flow) result }
    ensures pool { P.lasts pool.old ≡ true → PoolFits (P.capacity pool.new) (P.taken pool.new) (P.gives pool.new) (P.takes pool.new) layout.now.states.slots (listed_in layout.now.states (D.words parts.new)) }
{
    match acquire_words(layout, parts, pool, wanted) {
        Err(fault) => fault_reply(fault),
        Ok(slot) => begin_larval(alloc, layout, parts, slot),
    }
}
