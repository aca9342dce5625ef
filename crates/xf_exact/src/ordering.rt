//! Where a policy goes in the list.
ghost use Rattle.std.specs.Prelude.{◌≡◌, ℕ, ◌+◌, ◌*◌, ◌<◌, ◌≤◌, List, find};
ghost use Rattle.xf_cells.specs.Words.{Narrows};
ghost use Rattle.xf_chain.specs.Chains.{Lies, Below, slots_of};
ghost use Rattle.xf_image.specs.Layout.{Fits};
ghost use Rattle.xf_image.specs.Placing as placing;

use crate::placing::stays_before;
use xf_cells::Load;
use xf_chain::{Chain, Walk};
use xf_image::PolicyArea;
use xf_types::Policy;

/// The first slot of a chain whose policy isn't asked after this one.
fn first_before<L: Load>(
    area: &PolicyArea,
    l: &mut L,
    chain: &Chain,
    priority: u32,
    number: u64,
) -> Option<u32>
    requires fits { Fits area.now (L.size l.old) }
    requires lies { Lies chain.now (L.size l.old) }
    requires slots { chain.now.slots ≡ area.now.slots }
    ensures size { L.size l.new ≡ L.size l.old }
    ensures begun { L.begun l.new ≡ L.begun l.old }
    ensures rest { L.rest l.new ≡ L.rest l.old }
    ensures among { Narrows (L.agrees l.old) (L.agrees l.new) }
    ensures most { L.loads l.new ≤ L.loads l.old + 2 + 3 * area.now.slots }
    ensures below { Below area.now.slots result }
    ensures answer { (image : List ℕ) → L.agrees l.new image → result ≡ find (placing.stays_before area.now image priority number) (slots_of chain.now image) }
{
    let mut walk = Walk::start(chain, l);
    'slots: while let Some(slot) = walk.step(chain, l) {
        if stays_before(area, l, priority, number, slot) {
            return Some(slot);
        }
    }
    None
}

/// After which slot a policy goes in the list. The walk begins at the last policy, so it ends at once where none is asked after this
/// one.
pub fn place_in_order<L: Load>(area: &PolicyArea, l: &mut L, policy: &Policy) -> Option<u32>
    requires { Fits area.now (L.size l.old) }
    ensures size { L.size l.new ≡ L.size l.old }
    ensures begun { L.begun l.new ≡ L.begun l.old }
    ensures rest { L.rest l.new ≡ L.rest l.old }
    ensures among { Narrows (L.agrees l.old) (L.agrees l.new) }
    ensures most { L.loads l.new ≤ L.loads l.old + 2 + 3 * area.now.slots }
    ensures below { Below area.now.slots result }
    ensures answer { (image : List ℕ) → L.agrees l.new image → result ≡ placing.place_in_order area.now image policy.now }
{
    let size = l.size();
    let chain = area.back().chain(0, size);
    first_before(area, l, &chain, policy.spec.priority, policy.number)
}
