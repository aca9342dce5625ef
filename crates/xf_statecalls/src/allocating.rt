//! A larval state is listed that keeps a fresh SPI.
ghost use Rattle.std.specs.Prelude.{◌≡◌, ◌≢◌, ℕ, ◌<◌, ◌^◌, Bool, true, false, List, None, Some, IsErr, IfOk, is_ok, IsTrue, length, if◌then◌else◌};
ghost use Rattle.xf_types.specs.declared.call.Call.TheVariants.{AllocSpi};
ghost use Rattle.xf_types.specs.declared.state.Sa.{Sa};
ghost use Rattle.xf_types.specs.Codes.{is_refusal_of};
ghost use Rattle.xf_types.specs.History.{is_contended};
ghost use Rattle.xf_types.specs.Machine.{Machine, Shown};
ghost use Rattle.xf_types.specs.StateRules as rule;
ghost use Rattle.xf_image.specs.Frames.{Frame};
ghost use Rattle.xf_sadidx.specs.Layout.{end_of, record_at};
ghost use Rattle.xf_sadimage.specs.States.{StatesStand};
ghost use Rattle.xf_sadlist.specs.Listed.{next_sid_in};
ghost use Rattle.xf_sad.specs.Changes.{IsAt, Comes};
ghost use Rattle.xf_sad.specs.Replies.{ReplyIs, spi_told};
ghost use Rattle.xf_sad.specs.Places.{KeepsPlaces, SlotCame};
ghost use Rattle.xf_sad.specs.Slots.{PoolFits, listed_in};
ghost use Rattle.xf_rows.specs.Layouts.{Fits};
ghost use Rattle.xf_rows.specs.Replies.{Answers};
ghost use Rattle.xf_rows.specs.Stands.{Stands};
ghost use Rattle.xf_rows.specs.Values.{value_put};
ghost use Rattle.xf_statecalls.specs.Ready.{IsReady, Stood, LeavesOthers, IsSame};
ghost use Rattle.xf_statecalls.specs.Windows.{IsLarvalAt, value_of_new};

use crate::here::{state_here, time_here};
use crate::replying::fault_reply;
use crate::values::turn_values;
use crate::windows::larval_window;
use std::alloc::Global;
use xf_cells::{Cells, Load, Pool};
use xf_parts::Parts;
use xf_rows::Layout;
use xf_sad::{Sad, SadFault};
use xf_types::{AllocSpec, Reply};

/// Lists the words of a larval state with a fresh SPI. No value is touched.
fn alloc_here<D: Parts, P: Pool>(
    layout: &Layout,
    parts: &mut D,
    pool: &mut P,
    spec: &AllocSpec,
    now: u64,
) -> Result<u32, SadFault>
    requires fits { Fits layout.now (D.size parts.old) }
    requires spent { P.spent pool.old ≡ false }
    requires below { (slot : ℕ) → P.gives pool.old slot → slot < layout.now.states.slots }
    ensures size { D.size parts.new ≡ D.size parts.old }
    ensures begun { D.begun parts.new ≡ (if is_ok result then true else D.begun parts.old) }
    ensures hidden { D.hidden parts.new ≡ D.hidden parts.old }
    ensures beside { D.beside parts.new ≡ D.beside parts.old }
    ensures capacity { P.capacity pool.new ≡ P.capacity pool.old }
    ensures lasts { P.lasts pool.new ≡ P.lasts pool.old }
    ensures frame { Frame layout.now.states.base (end_of layout.now.states) (D.words parts.old) (D.words parts.new) }
    ensures refused { IsErr result → D.words parts.new ≡ D.words parts.old }
    ensures reply { (s : Shown) (es : List (ℕ × Sa)) → IsAt s now → StatesStand layout.now.states (D.words parts.old) s es → PoolFits (P.capacity pool.old) (P.taken pool.old) (P.gives pool.old) (P.takes pool.old) layout.now.states.slots (listed_in layout.now.states (D.words parts.old)) → ReplyIs (P.held pool.new) s (λ t. (rule.alloc_spi t spec.now).reply) (spi_told layout.now.states (D.words parts.new)) result }
    ensures comes { (s : Shown) (es : List (ℕ × Sa)) → IsAt s now → StatesStand layout.now.states (D.words parts.old) s es → PoolFits (P.capacity pool.old) (P.taken pool.old) (P.gives pool.old) (P.takes pool.old) layout.now.states.slots (listed_in layout.now.states (D.words parts.old)) → IfOk result (λ slot. Comes layout.now.states (D.words parts.new) s es (P.gives pool.old) None slot (rule.alloc_spi s spec.now)) }
    ensures pool { (s : Shown) (es : List (ℕ × Sa)) → P.lasts pool.old ≡ true → IsAt s now → StatesStand layout.now.states (D.words parts.old) s es → PoolFits (P.capacity pool.old) (P.taken pool.old) (P.gives pool.old) (P.takes pool.old) layout.now.states.slots (listed_in layout.now.states (D.words parts.old)) → PoolFits (P.capacity pool.new) (P.taken pool.new) (P.gives pool.new) (P.takes pool.new) layout.now.states.slots (listed_in layout.now.states (D.words parts.new)) }
{
    (Sad {
        area: layout.states,
    })
    .alloc_spi(parts, pool, spec, now)
}

/// The value of the larval state in a slot begins, and what it has is told. It takes no memory.
fn begin_larval<D: Parts>(alloc: Global, layout: &Layout, parts: &mut D, slot: u32) -> Reply
    requires fits { Fits layout.now (D.size parts.old) }
    requires slot { slot < layout.now.states.slots }
    requires value { slot < length (D.beside parts.old).values }
    requires held { (D.beside parts.old).held slot ≡ true }
    requires begun { D.begun parts.old ≡ true }
    requires larval { IsLarvalAt layout.now.states (D.words parts.old) slot }
    ensures size { D.size parts.new ≡ D.size parts.old }
    ensures begun { D.begun parts.new ≡ true }
    ensures hidden { D.hidden parts.new ≡ D.hidden parts.old }
    ensures frame { Frame 0 (D.hidden parts.old) (D.words parts.old) (D.words parts.new) }
    ensures done { is_refusal_of result ≡ false }
    ensures settled { is_contended result ≡ false }
    ensures memory { result ≢ Reply.NoMemory }
    ensures told { (r : Sa) → record_at layout.now.states (D.words parts.old) slot ≡ Some r → result ≡ Reply.DoneSpi r.spec.spi r.sid }
    ensures beside { (r : Sa) → record_at layout.now.states (D.words parts.old) slot ≡ Some r → D.beside parts.new ≡ value_put (D.beside parts.old) slot (value_of_new r) }
{
    match state_here(layout, parts, slot) {
        None => unreachable!(),
        Some(state) => {
            let window = larval_window(alloc, &state.spec);
            turn_values(parts, None, slot, &state, window);
            Reply::DoneSpi {
                spi: state.spec.spi,
                sid: state.sid,
            }
        }
    }
}

/// Lists a larval state with the least SPI of a range that no state has. Invalid, NoSpi or Full where it is refused. It takes no memory.
pub fn alloc_spi<D: Parts, P: Pool>(
    alloc: Global,
    layout: &Layout,
    parts: &mut D,
    pool: &mut P,
    spec: &AllocSpec,
) -> Reply
    requires ready { IsReady layout.now (D.size parts.old) (D.hidden parts.old) (D.beside parts.old) (P.spent pool.old) (P.gives pool.old) }
    requires stands { Stood layout.now (D.words parts.old) (D.beside parts.old) }
    requires pool { PoolFits (P.capacity pool.old) (P.taken pool.old) (P.gives pool.old) (P.takes pool.old) layout.now.states.slots (listed_in layout.now.states (D.words parts.old)) }
    requires young { next_sid_in layout.now.states (D.words parts.old) < 2 ^ 63 }
    ensures size { D.size parts.new ≡ D.size parts.old }
    ensures hidden { D.hidden parts.new ≡ D.hidden parts.old }
    ensures capacity { P.capacity pool.new ≡ P.capacity pool.old }
    ensures lasts { P.lasts pool.new ≡ P.lasts pool.old }
    ensures given { is_refusal_of result ≡ false → SlotCame (P.gives pool.old) None (listed_in layout.now.states (D.words parts.old)) (listed_in layout.now.states (D.words parts.new)) }
    ensures places { KeepsPlaces layout.now.states (D.beside parts.old).held (D.words parts.old) (D.words parts.new) }
    ensures others { LeavesOthers layout.now (D.hidden parts.old) (D.words parts.old) (D.words parts.new) (D.beside parts.old) (D.beside parts.new) }
    ensures memory { result ≢ Reply.NoMemory }
    ensures settled { P.held pool.new ≡ 0 → is_contended result ≡ false }
    ensures refused { IsTrue (is_refusal_of result) → IsSame (D.words parts.old) (D.words parts.new) (D.beside parts.old) (D.beside parts.new) (D.begun parts.old) (D.begun parts.new) }
    ensures answer { (m : Machine) → Stands layout.now (D.words parts.old) (D.beside parts.old) m → Answers layout.now (D.words parts.new) (D.beside parts.new) m (AllocSpi spec.now) result }
    ensures pool { P.lasts pool.old ≡ true → PoolFits (P.capacity pool.new) (P.taken pool.new) (P.gives pool.new) (P.takes pool.new) layout.now.states.slots (listed_in layout.now.states (D.words parts.new)) }
{
    let now = time_here(layout, parts);
    match alloc_here(layout, parts, pool, spec, now) {
        Err(fault) => fault_reply(fault),
        Ok(slot) => begin_larval(alloc, layout, parts, slot),
    }
}
