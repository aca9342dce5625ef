//! The slot of a new policy.
ghost use Rattle.std.specs.Prelude.{◌≡◌, ℕ, ◌+◌, Bool, true, false, Err, IsErr, ◌↔◌, MatchResult};
ghost use Rattle.xf_cells.specs.Pools.{Given, Kept};
ghost use Rattle.xf_spd.specs.declared.faults.SpdFault.TheVariants.{Full};

use crate::faults::SpdFault;
use xf_cells::Pool;

/// A slot of the pool.
pub(crate) fn taken<P: Pool>(pool: &mut P) -> Result<u32, SpdFault>
    requires { P.spent pool.old ≡ false }
    ensures capacity { P.capacity pool.new ≡ P.capacity pool.old }
    ensures lasts { P.lasts pool.new ≡ P.lasts pool.old }
    ensures answer { MatchResult result (λ slot. Given slot (P.lasts pool.old) (P.taken pool.old) (P.taken pool.new) (P.gives pool.old) (P.gives pool.new) (P.takes pool.old) (P.takes pool.new)) (λ fault. (fault ≡ Full (P.taken pool.old) (P.held pool.new)) × Kept (P.taken pool.old) (P.taken pool.new) (P.spent pool.old) (P.spent pool.new) (P.gives pool.old) (P.gives pool.new) (P.takes pool.old) (P.takes pool.new)) }
    ensures full { IsErr result ↔ (P.taken pool.old + P.held pool.new ≡ P.capacity pool.old) }
{
    match pool.take() {
        Some(slot) => Ok(slot),
        None => Err(SpdFault::Full {
            live: pool.live(),
            waiting: pool.waiting(),
        }),
    }
}
