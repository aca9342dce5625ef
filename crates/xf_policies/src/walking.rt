//! One walk over the list, which shows each policy to a visitor. The words need not stand still.
ghost use Rattle.std.specs.Prelude.{◌≡◌, ℕ, ◌+◌, ◌*◌, ◌≤◌, Bool, false, List, Option, Some, OnOk, IsOk};
ghost use Rattle.xf_types.specs.declared.policy.Policy.{Policy};
ghost use Rattle.xf_types.specs.Machine.{Shown};
ghost use Rattle.xf_cells.specs.Words.{Narrows};
ghost use Rattle.xf_inexact.specs.Whole.{SpdStands, WholeFits};
ghost use Rattle.xf_policies.specs.Visits.{Visited};

use xf_cells::Load;
use xf_spd::Spd;
use xf_types::{NoMemory, Policy};

/// What is shown the policies of a list, one after the other.
pub(crate) trait Visitor {
    /// What it is after a policy, by what it was before.
    ghost goes: { Self → Policy → Self → Type 0 };

    /// It may run out of memory.
    ghost fails: { Bool };

    /// Takes notice of a policy.
    fn visit(&mut self, policy: Policy) -> Result<(), NoMemory>
        ensures sure { fails ≡ false → IsOk result }
        ensures goes { OnOk result (goes self.old policy self.new) };
}

/// Shows a policy, where there is one.
fn visit_some<V: Visitor>(visitor: &mut V, policy: Option<Policy>) -> Result<(), NoMemory>
    ensures sure { V.fails ≡ false → IsOk result }
    ensures goes { (p : Policy) → policy ≡ Some p → OnOk result (V.goes visitor.old p visitor.new) }
{
    match policy {
        Some(policy) => visitor.visit(policy),
        None => Ok(()),
    }
}

/// Shows each policy of the list in its order.
pub(crate) fn walk<L: Load, V: Visitor>(
    spd: &Spd,
    l: &mut L,
    visitor: &mut V,
) -> Result<(), NoMemory>
    requires { WholeFits spd.now.area (L.size l.old) }
    ensures size { L.size l.new ≡ L.size l.old }
    ensures begun { L.begun l.new ≡ L.begun l.old }
    ensures rest { L.rest l.new ≡ L.rest l.old }
    ensures among { Narrows (L.agrees l.old) (L.agrees l.new) }
    ensures loads { L.loads l.new ≤ L.loads l.old + 1 + 102 * spd.now.area.slots }
    ensures sure { V.fails ≡ false → IsOk result }
    ensures visited { (image : List ℕ) (s : Shown) (es : List (ℕ × Policy)) → L.agrees l.new image → SpdStands spd.now.area image s es → OnOk result (Visited V.goes visitor.old s.policies visitor.new) }
{
    let mut at = spd.first_slot(l);
    let mut left = spd.area.slots;
    'slots: while left > 0 {
        let Some(slot) = at else {
            return Ok(());
        };
        let policy = spd.policy(l, slot);
        at = spd.next_slot(l, slot);
        if visit_some(visitor, policy).is_err() {
            return Err(NoMemory);
        }
        left -= 1;
    }
    Ok(())
}
