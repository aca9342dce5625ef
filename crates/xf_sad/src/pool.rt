//! The slot of a new state, and that of one that left.
ghost use Rattle.std.specs.Prelude.{◌≡◌, ℕ, ◌+◌, Bool, true, false, Err, IsErr, ◌↔◌, MatchResult, Option};
ghost use Rattle.xf_cells.specs.Pools.{Given, Kept};
ghost use Rattle.xf_sad.specs.declared.faults.SadFault.TheVariants.{Full};
ghost use Rattle.xf_sad.specs.Slots.{BackIf, Where};

use crate::faults::SadFault;
use xf_cells::Pool;

/// A slot of the pool.
pub(crate) fn taken<P: Pool>(pool: &mut P) -> Result<u32, SadFault>
    requires { P.spent pool.old ≡ false }
    ensures capacity { P.capacity pool.new ≡ P.capacity pool.old }
    ensures lasts { P.lasts pool.new ≡ P.lasts pool.old }
    ensures answer { MatchResult result (λ slot. Given slot (P.lasts pool.old) (P.taken pool.old) (P.taken pool.new) (P.gives pool.old) (P.gives pool.new) (P.takes pool.old) (P.takes pool.new)) (λ fault. (fault ≡ Full (P.taken pool.old) (P.held pool.new)) × Kept (P.taken pool.old) (P.taken pool.new) (P.spent pool.old) (P.spent pool.new) (P.gives pool.old) (P.gives pool.new) (P.takes pool.old) (P.takes pool.new)) }
    ensures full { IsErr result ↔ (P.taken pool.old + P.held pool.new ≡ P.capacity pool.old) }
{
    match pool.take() {
        Some(slot) => Ok(slot),
        None => Err(SadFault::Full {
            live: pool.live(),
            waiting: pool.waiting(),
        }),
    }
}

/// Gives the slot of a state that left back, where one did.
pub(crate) fn give_back<P: Pool>(pool: &mut P, slot: Option<u32>)
    requires { Where (P.takes pool.old) slot }
    ensures capacity { P.capacity pool.new ≡ P.capacity pool.old }
    ensures lasts { P.lasts pool.new ≡ P.lasts pool.old }
    ensures held { P.held pool.new ≡ P.held pool.old }
    ensures returned { Where (P.returned pool.new) slot }
    ensures back { BackIf slot (P.lasts pool.old) (P.taken pool.old) (P.taken pool.new) (P.spent pool.old) (P.spent pool.new) (P.gives pool.old) (P.gives pool.new) (P.takes pool.old) (P.takes pool.new) }
{
    match slot {
        None => {}
        Some(slot) => pool.give(slot),
    }
}
