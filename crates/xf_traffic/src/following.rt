//! The words follow what a state's value answered.
ghost use Rattle.std.specs.Prelude.{◌≡◌, ℕ, ◌<◌, ◌≤◌, Bool, true, false, List, ◌∷◌, ◌++◌, length};
ghost use Rattle.xf_types.specs.declared.state.Sa.{Sa};
ghost use Rattle.xf_types.specs.Machine.{Shown};
ghost use Rattle.xf_types.specs.Moves.{says_soft};
ghost use Rattle.xf_sadimage.specs.States.{StatesStand};
ghost use Rattle.xf_sad.specs.Slots.{PoolFits, listed_in};
ghost use Rattle.xf_rows.specs.Fates.{says_ended};
ghost use Rattle.xf_rows.specs.Layouts.{Fits};
ghost use Rattle.xf_traffic.specs.Following.{Follows, IsIdle};
ghost use Rattle.xf_traffic.specs.Found.{HasState};

use xf_cells::{Cells, Load, Pool};
use xf_parts::Parts;
use xf_rows::Layout;
use xf_sad::Sad;
use xf_types::Reply;

/// Whether a reply says that the state ended.
fn is_ended(reply: &Reply) -> bool
    ensures { result ≡ says_ended reply.now }
{
    matches!(reply, Reply::Expired)
}

/// Whether a reply says that the state is newly dying.
fn is_soft(reply: &Reply) -> bool
    ensures { result ≡ says_soft reply.now }
{
    match reply {
        Reply::Accepted { soft, .. }
        | Reply::BadIcv { soft }
        | Reply::Sent { soft, .. }
        | Reply::Overflow { soft } => *soft,
        _ => false,
    }
}

/// The state in a slot, whose value is dead, leaves the list.
fn leave<D: Parts, P: Pool>(layout: &Layout, parts: &mut D, pool: &mut P, slot: u32)
    requires fits { Fits layout.now (D.size parts.old) }
    requires behind { D.hidden parts.old ≤ layout.now.policies.base }
    requires slot { slot < layout.now.states.slots }
    requires count { slot < length (D.beside parts.old).values }
    requires listed { HasState layout.now.states (D.words parts.old) slot }
    requires back { P.takes pool.old slot }
    ensures size { D.size parts.new ≡ D.size parts.old }
    ensures begun { D.begun parts.new ≡ true }
    ensures hidden { D.hidden parts.new ≡ D.hidden parts.old }
    ensures beside { D.beside parts.new ≡ D.beside parts.old }
    ensures capacity { P.capacity pool.new ≡ P.capacity pool.old }
    ensures lasts { P.lasts pool.new ≡ P.lasts pool.old }
    ensures held { P.held pool.new ≡ P.held pool.old }
    ensures returned { P.returned pool.new slot }
    ensures out { P.taken pool.old ≡ length (listed_in layout.now.states (D.words parts.old)) → P.taken pool.new ≡ length (listed_in layout.now.states (D.words parts.new)) }
    ensures follows { (soft : Bool) → Follows layout.now.states (D.hidden parts.old) slot true soft (D.words parts.old) (D.words parts.new) }
    ensures pool { P.lasts pool.old ≡ true → PoolFits (P.capacity pool.old) (P.taken pool.old) (P.gives pool.old) (P.takes pool.old) layout.now.states.slots (listed_in layout.now.states (D.words parts.old)) → PoolFits (P.capacity pool.new) (P.taken pool.new) (P.gives pool.new) (P.takes pool.new) layout.now.states.slots (listed_in layout.now.states (D.words parts.new)) }
{
    (Sad {
        area: layout.states,
    })
    .delete(parts, pool, slot);
    parts.state_freed(slot);
}

/// The state in a slot is dying.
fn warn<D: Parts>(layout: &Layout, parts: &mut D, slot: u32)
    requires fits { Fits layout.now (D.size parts.old) }
    requires slot { slot < layout.now.states.slots }
    requires listed { HasState layout.now.states (D.words parts.old) slot }
    ensures size { D.size parts.new ≡ D.size parts.old }
    ensures begun { D.begun parts.new ≡ true }
    ensures hidden { D.hidden parts.new ≡ D.hidden parts.old }
    ensures beside { D.beside parts.new ≡ D.beside parts.old }
    ensures follows { (hidden : ℕ) → Follows layout.now.states hidden slot false true (D.words parts.old) (D.words parts.new) }
    ensures listed { listed_in layout.now.states (D.words parts.new) ≡ listed_in layout.now.states (D.words parts.old) }
{
    (Sad {
        area: layout.states,
    })
    .set_dying(parts, slot);
}

/// The words follow the reply that the value of a listed state gave, and so does the pool: the state leaves where it ended, and is dying where
/// it was warned of.
pub(crate) fn follow<D: Parts, P: Pool>(
    layout: &Layout,
    parts: &mut D,
    pool: &mut P,
    slot: u32,
    reply: &Reply,
)
    requires fits { Fits layout.now (D.size parts.old) }
    requires behind { D.hidden parts.old ≤ layout.now.policies.base }
    requires slot { slot < layout.now.states.slots }
    requires count { slot < length (D.beside parts.old).values }
    requires listed { HasState layout.now.states (D.words parts.old) slot }
    requires back { P.takes pool.old slot }
    ensures size { D.size parts.new ≡ D.size parts.old }
    ensures hidden { D.hidden parts.new ≡ D.hidden parts.old }
    ensures beside { D.beside parts.new ≡ D.beside parts.old }
    ensures capacity { P.capacity pool.new ≡ P.capacity pool.old }
    ensures lasts { P.lasts pool.new ≡ P.lasts pool.old }
    ensures held { P.held pool.new ≡ P.held pool.old }
    ensures returned { says_ended reply.now ≡ true → P.returned pool.new slot }
    ensures out { P.taken pool.old ≡ length (listed_in layout.now.states (D.words parts.old)) → P.taken pool.new ≡ length (listed_in layout.now.states (D.words parts.new)) }
    ensures follows { Follows layout.now.states (D.hidden parts.old) slot (says_ended reply.now) (says_soft reply.now) (D.words parts.old) (D.words parts.new) }
    ensures idle { says_ended reply.now ≡ false → says_soft reply.now ≡ false → IsIdle (D.words parts.old) (D.words parts.new) (D.begun parts.old) (D.begun parts.new) }
    ensures pool { P.lasts pool.old ≡ true → PoolFits (P.capacity pool.old) (P.taken pool.old) (P.gives pool.old) (P.takes pool.old) layout.now.states.slots (listed_in layout.now.states (D.words parts.old)) → PoolFits (P.capacity pool.new) (P.taken pool.new) (P.gives pool.new) (P.takes pool.new) layout.now.states.slots (listed_in layout.now.states (D.words parts.new)) }
{
    if is_ended(reply) {
        leave(layout, parts, pool, slot);
    } else if is_soft(reply) {
        warn(layout, parts, slot);
    }
}
