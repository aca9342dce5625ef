//! How a policy comes into a chain, and how it goes.
ghost use Rattle.std.specs.Prelude.{◌≡◌, ℕ, ◌<◌, true, List, Option};
ghost use Rattle.xf_chain.specs.Families.{Lays, IsOf};
ghost use Rattle.xf_image.specs.Layout.{Fits};
ghost use Rattle.xf_exact.specs.Parts as parts;

use crate::placing::{before_in, place_in};
use xf_cells::Cells;
use xf_chain::Family;
use xf_image::PolicyArea;
use xf_types::Policy;

/// Puts a policy's slot into the chain with a number, where there is one.
pub(crate) fn put<C: Cells>(
    area: &PolicyArea,
    c: &mut C,
    family: &Family,
    number: Option<u32>,
    slot: u32,
    policy: &Policy,
)
    requires fits { Fits area.now (C.size c.old) }
    requires lays { Lays family.now (C.size c.old) }
    requires slots { family.now.slots ≡ area.now.slots }
    requires number { IsOf family.now number }
    requires begun { C.begun c.old ≡ true }
    requires slot { slot < area.now.slots }
    ensures size { C.size c.new ≡ C.size c.old }
    ensures begun { C.begun c.new ≡ true }
    ensures rest { C.rest c.new ≡ C.rest c.old }
    ensures words { C.words c.new ≡ parts.with_slot area.now (C.words c.old) family.now number slot policy.now }
{
    let after = place_in(area, c, policy, family, number);
    family.insert(c, number, after, slot);
}

/// Takes a slot out of the chain with a number, where there is one.
pub(crate) fn take<C: Cells>(c: &mut C, family: &Family, number: Option<u32>, slot: u32)
    requires lays { Lays family.now (C.size c.old) }
    requires number { IsOf family.now number }
    requires begun { C.begun c.old ≡ true }
    requires slot { slot < family.now.slots }
    ensures size { C.size c.new ≡ C.size c.old }
    ensures begun { C.begun c.new ≡ true }
    ensures rest { C.rest c.new ≡ C.rest c.old }
    ensures words { C.words c.new ≡ parts.without_slot (C.words c.old) family.now number slot }
{
    let after = before_in(c, slot, family, number);
    family.remove(c, number, after, slot);
}
