//! All states of a kind leave, in one walk over the list.
ghost use Rattle.std.specs.Prelude.{◌≡◌, ℕ, Bool, true, false, length};
ghost use Rattle.xf_types.specs.declared.call.Call.TheVariants.{StateDeleteAll, StateFlush};
ghost use Rattle.xf_types.specs.History.{is_contended};
ghost use Rattle.xf_types.specs.Machine.{Machine};
ghost use Rattle.xf_types.specs.Same.{meets_one, same_proto};
ghost use Rattle.xf_types.specs.StateList.{state_meets};
ghost use Rattle.xf_cells.specs.Backs.{TakesBack};
ghost use Rattle.xf_sad.specs.Places.{KeepsPlaces};
ghost use Rattle.xf_sad.specs.Slots.{PoolFits, listed_in};
ghost use Rattle.xf_rows.specs.Replies.{Answers};
ghost use Rattle.xf_rows.specs.Stands.{Stands};
ghost use Rattle.xf_statecalls.specs.Ready.{IsReady, Stood, LeavesOthers};
ghost use Rattle.xf_statecalls.specs.Sweeps.{HasTurns, Started};

use crate::choice::Choice;
use crate::sweeping::remove_all;
use xf_cells::{Cells, Load, Pool};
use xf_parts::Parts;
use xf_rows::Layout;
use xf_types::{Proto, Reply, SaFilter};

/// Removes the states that a filter admits. The turns of those that leave are held.
pub fn state_deleteall<D: Parts, P: Pool>(
    layout: &Layout,
    parts: &mut D,
    pool: &mut P,
    filter: &SaFilter,
) -> Reply
    requires ready { IsReady layout.now (D.size parts.old) (D.hidden parts.old) (D.beside parts.old) (P.spent pool.old) (P.gives pool.old) }
    requires turns { HasTurns layout.now.states (D.words parts.old) (D.beside parts.old) (state_meets filter.now) }
    requires back { TakesBack (P.lasts pool.old) P.taken P.takes }
    requires stands { Stood layout.now (D.words parts.old) (D.beside parts.old) }
    requires pool { PoolFits (P.capacity pool.old) (P.taken pool.old) (P.gives pool.old) (P.takes pool.old) layout.now.states.slots (listed_in layout.now.states (D.words parts.old)) }
    ensures size { D.size parts.new ≡ D.size parts.old }
    ensures hidden { D.hidden parts.new ≡ D.hidden parts.old }
    ensures capacity { P.capacity pool.new ≡ P.capacity pool.old }
    ensures lasts { P.lasts pool.new ≡ P.lasts pool.old }
    ensures others { LeavesOthers layout.now (D.hidden parts.old) (D.words parts.old) (D.words parts.new) (D.beside parts.old) (D.beside parts.new) }
    ensures out { P.taken pool.new ≡ length (listed_in layout.now.states (D.words parts.new)) }
    ensures places { KeepsPlaces layout.now.states (D.beside parts.old).held (D.words parts.old) (D.words parts.new) }
    ensures settled { is_contended result ≡ false }
    ensures started { (count : ℕ) → result ≡ Reply.Removed count → Started count (D.words parts.old) (D.words parts.new) (D.beside parts.old) (D.beside parts.new) (D.begun parts.old) (D.begun parts.new) }
    ensures answer { (m : Machine) → Stands layout.now (D.words parts.old) (D.beside parts.old) m → Answers layout.now (D.words parts.new) (D.beside parts.new) m (StateDeleteAll filter.now) result }
    ensures pool { P.lasts pool.old ≡ true → PoolFits (P.capacity pool.new) (P.taken pool.new) (P.gives pool.new) (P.takes pool.new) layout.now.states.slots (listed_in layout.now.states (D.words parts.new)) }
{
    let count = remove_all(layout, parts, pool, &Choice::Admitted(*filter));
    Reply::Removed(count)
}

/// Removes the states of a protocol, or all. The turns of those that leave are held.
pub fn state_flush<D: Parts, P: Pool>(
    layout: &Layout,
    parts: &mut D,
    pool: &mut P,
    proto: Option<Proto>,
) -> Reply
    requires ready { IsReady layout.now (D.size parts.old) (D.hidden parts.old) (D.beside parts.old) (P.spent pool.old) (P.gives pool.old) }
    requires turns { HasTurns layout.now.states (D.words parts.old) (D.beside parts.old) (λ s. meets_one same_proto proto s.spec.proto) }
    requires back { TakesBack (P.lasts pool.old) P.taken P.takes }
    requires stands { Stood layout.now (D.words parts.old) (D.beside parts.old) }
    requires pool { PoolFits (P.capacity pool.old) (P.taken pool.old) (P.gives pool.old) (P.takes pool.old) layout.now.states.slots (listed_in layout.now.states (D.words parts.old)) }
    ensures size { D.size parts.new ≡ D.size parts.old }
    ensures hidden { D.hidden parts.new ≡ D.hidden parts.old }
    ensures capacity { P.capacity pool.new ≡ P.capacity pool.old }
    ensures lasts { P.lasts pool.new ≡ P.lasts pool.old }
    ensures others { LeavesOthers layout.now (D.hidden parts.old) (D.words parts.old) (D.words parts.new) (D.beside parts.old) (D.beside parts.new) }
    ensures out { P.taken pool.new ≡ length (listed_in layout.now.states (D.words parts.new)) }
    ensures places { KeepsPlaces layout.now.states (D.beside parts.old).held (D.words parts.old) (D.words parts.new) }
    ensures settled { is_contended result ≡ false }
    ensures started { (count : ℕ) → result ≡ Reply.Removed count → Started count (D.words parts.old) (D.words parts.new) (D.beside parts.old) (D.beside parts.new) (D.begun parts.old) (D.begun parts.new) }
    ensures answer { (m : Machine) → Stands layout.now (D.words parts.old) (D.beside parts.old) m → Answers layout.now (D.words parts.new) (D.beside parts.new) m (StateFlush proto) result }
    ensures pool { P.lasts pool.old ≡ true → PoolFits (P.capacity pool.new) (P.taken pool.new) (P.gives pool.new) (P.takes pool.new) layout.now.states.slots (listed_in layout.now.states (D.words parts.new)) }
{
    let count = remove_all(layout, parts, pool, &Choice::OfProto(proto));
    Reply::Removed(count)
}
