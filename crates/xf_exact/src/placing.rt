//! Where a policy goes in a chain, and where it stands in one. These walks read no record.
ghost use Rattle.std.specs.Prelude.{◌≡◌, ℕ, ◌+◌, ◌*◌, ◌<◌, ◌≤◌, List, Option, None, find};
ghost use Rattle.xf_cells.specs.Words.{Narrows};
ghost use Rattle.xf_chain.specs.Chains.{Lies, Below, slots_of};
ghost use Rattle.xf_chain.specs.Families.{Lays, IsOf, last_while};
ghost use Rattle.xf_image.specs.Layout.{Fits};
ghost use Rattle.xf_image.specs.Placing as placing;

use xf_cells::Load;
use xf_chain::{Chain, Family, Walk};
use xf_image::PolicyArea;
use xf_types::Policy;

/// Whether the policy in a slot isn't asked after one of this priority and number.
pub(crate) fn stays_before<L: Load>(
    area: &PolicyArea,
    l: &mut L,
    priority: u32,
    number: u64,
    slot: u32,
) -> bool
    requires fits { Fits area.now (L.size l.old) }
    requires slot { slot < area.now.slots }
    ensures size { L.size l.new ≡ L.size l.old }
    ensures begun { L.begun l.new ≡ L.begun l.old }
    ensures rest { L.rest l.new ≡ L.rest l.old }
    ensures among { Narrows (L.agrees l.old) (L.agrees l.new) }
    ensures loads { L.loads l.new ≤ L.loads l.old + 2 }
    ensures answer { (image : List ℕ) → L.agrees l.new image → result ≡ placing.stays_before area.now image priority number slot }
{
    let own_priority = l.load(area.priority_place(slot));
    let own_number = l.load(area.number_place(slot));
    let priority = u64::from(priority);
    !(priority < own_priority || (own_priority == priority && number < own_number))
}

/// The last slot of a chain before the first whose policy is asked after this one.
fn place<L: Load>(
    area: &PolicyArea,
    l: &mut L,
    chain: &Chain,
    priority: u32,
    number: u64,
) -> Option<u32>
    requires fits { Fits area.now (L.size l.old) }
    requires lies { Lies chain.now (L.size l.old) }
    requires slots { chain.now.slots ≡ area.now.slots }
    ensures size { L.size l.new ≡ L.size l.old }
    ensures begun { L.begun l.new ≡ L.begun l.old }
    ensures rest { L.rest l.new ≡ L.rest l.old }
    ensures among { Narrows (L.agrees l.old) (L.agrees l.new) }
    ensures most { L.loads l.new ≤ L.loads l.old + 2 + 3 * area.now.slots }
    ensures below { Below area.now.slots result }
    ensures answer { (image : List ℕ) → L.agrees l.new image → result ≡ last_while (placing.stays_before area.now image priority number) None (slots_of chain.now image) }
{
    let mut walk = Walk::start(chain, l);
    let mut last = None;
    'slots: while let Some(slot) = walk.step(chain, l) {
        if !stays_before(area, l, priority, number, slot) {
            return last;
        }
        last = Some(slot);
    }
    last
}

/// After which slot a policy goes in the chain with a number, where there is one.
pub fn place_in<L: Load>(
    area: &PolicyArea,
    l: &mut L,
    policy: &Policy,
    family: &Family,
    number: Option<u32>,
) -> Option<u32>
    requires fits { Fits area.now (L.size l.old) }
    requires lays { Lays family.now (L.size l.old) }
    requires slots { family.now.slots ≡ area.now.slots }
    requires number { IsOf family.now number }
    ensures size { L.size l.new ≡ L.size l.old }
    ensures begun { L.begun l.new ≡ L.begun l.old }
    ensures rest { L.rest l.new ≡ L.rest l.old }
    ensures among { Narrows (L.agrees l.old) (L.agrees l.new) }
    ensures most { L.loads l.new ≤ L.loads l.old + 2 + 3 * area.now.slots }
    ensures below { Below area.now.slots result }
    ensures answer { (image : List ℕ) → L.agrees l.new image → result ≡ placing.place_in area.now image policy.now family.now number }
{
    let size = l.size();
    let chain = family.chain(number?, size);
    place(area, l, &chain, policy.spec.priority, policy.number)
}

/// The slot before a slot in the chain with a number, where there is one.
pub fn before_in<L: Load>(l: &mut L, slot: u32, family: &Family, number: Option<u32>) -> Option<u32>
    requires lays { Lays family.now (L.size l.old) }
    requires number { IsOf family.now number }
    ensures size { L.size l.new ≡ L.size l.old }
    ensures begun { L.begun l.new ≡ L.begun l.old }
    ensures rest { L.rest l.new ≡ L.rest l.old }
    ensures among { Narrows (L.agrees l.old) (L.agrees l.new) }
    ensures most { L.loads l.new ≤ L.loads l.old + 2 + family.now.slots }
    ensures below { Below family.now.slots result }
    ensures answer { (image : List ℕ) → L.agrees l.new image → result ≡ placing.before_in image slot family.now number }
{
    let size = l.size();
    family.chain(number?, size).before(l, slot)
}
