//! The cursor over words that stand still.
ghost use Rattle.std.specs.Prelude.{◌≡◌, ◌<◌, ℕ, List, ◌∷◌, ◌++◌, Some};
ghost use Rattle.xf_types.specs.declared.policy.Policy.{Policy};
ghost use Rattle.xf_types.specs.Machine.{Shown};
ghost use Rattle.xf_chain.specs.Chains.{Below};
ghost use Rattle.xf_chain.specs.Lists.{first_of};
ghost use Rattle.xf_index.specs.Indexes.{slots_in};
ghost use Rattle.xf_inexact.specs.Whole.{SpdStands, WholeFits};

use xf_cells::Cells;
use xf_spd::Spd;
use xf_types::Policy;

/// The slot of the first policy.
pub(crate) fn first_slot<C: Cells>(spd: &Spd, c: &mut C) -> Option<u32>
    requires { WholeFits spd.now.area (C.size c.old) }
    ensures size { C.size c.new ≡ C.size c.old }
    ensures begun { C.begun c.new ≡ C.begun c.old }
    ensures rest { C.rest c.new ≡ C.rest c.old }
    ensures words { C.words c.new ≡ C.words c.old }
    ensures below { Below spd.now.area.slots result }
    ensures answer { (s : Shown) (es : List (ℕ × Policy)) → SpdStands spd.now.area (C.words c.old) s es → result ≡ first_of (slots_in es) }
{
    spd.first_slot(c)
}

/// The slot of the policy after a slot's.
pub(crate) fn next_slot<C: Cells>(spd: &Spd, c: &mut C, slot: u32) -> Option<u32>
    requires fits { WholeFits spd.now.area (C.size c.old) }
    requires slot { slot < spd.now.area.slots }
    ensures size { C.size c.new ≡ C.size c.old }
    ensures begun { C.begun c.new ≡ C.begun c.old }
    ensures rest { C.rest c.new ≡ C.rest c.old }
    ensures words { C.words c.new ≡ C.words c.old }
    ensures below { Below spd.now.area.slots result }
    ensures answer { (s : Shown) (front back : List (ℕ × Policy)) (p : Policy) → SpdStands spd.now.area (C.words c.old) s (front ++ ((slot, p) ∷ back)) → result ≡ first_of (slots_in back) }
{
    spd.next_slot(c, slot)
}

/// The policy in a slot.
pub(crate) fn policy_in<C: Cells>(spd: &Spd, c: &mut C, slot: u32) -> Option<Policy>
    requires fits { WholeFits spd.now.area (C.size c.old) }
    requires slot { slot < spd.now.area.slots }
    ensures size { C.size c.new ≡ C.size c.old }
    ensures begun { C.begun c.new ≡ C.begun c.old }
    ensures rest { C.rest c.new ≡ C.rest c.old }
    ensures words { C.words c.new ≡ C.words c.old }
    ensures answer { (s : Shown) (front back : List (ℕ × Policy)) (p : Policy) → SpdStands spd.now.area (C.words c.old) s (front ++ ((slot, p) ∷ back)) → result ≡ Some p }
{
    spd.policy(c, slot)
}
