//! The one walk that asks for a policy.
ghost use Rattle.std.specs.Prelude.{◌≡◌, ℕ, ◌+◌, ◌*◌, ◌≤◌, List, length};
ghost use Rattle.xf_cells.specs.Words.{Narrows};
ghost use Rattle.xf_chain.specs.Chains.{Lies, Below, slots_of};
ghost use Rattle.xf_image.specs.Layout.{Fits};
ghost use Rattle.xf_exact.specs.Walks.{found_on};

use crate::query::{Query, meets_in};
use xf_cells::Load;
use xf_chain::{Chain, Walk};
use xf_image::PolicyArea;

/// The first slot of a chain whose policy is what is asked for.
pub fn found<L: Load>(area: &PolicyArea, l: &mut L, chain: &Chain, query: &Query) -> Option<u32>
    requires fits { Fits area.now (L.size l.old) }
    requires lies { Lies chain.now (L.size l.old) }
    requires slots { chain.now.slots ≡ area.now.slots }
    ensures size { L.size l.new ≡ L.size l.old }
    ensures begun { L.begun l.new ≡ L.begun l.old }
    ensures rest { L.rest l.new ≡ L.rest l.old }
    ensures among { Narrows (L.agrees l.old) (L.agrees l.new) }
    ensures most { L.loads l.new ≤ L.loads l.old + 2 + 16 * area.now.slots }
    ensures loads { (image : List ℕ) → L.agrees l.new image → L.loads l.new ≤ L.loads l.old + 2 + 16 * length (slots_of chain.now image) }
    ensures slot { Below area.now.slots result }
    ensures answer { (image : List ℕ) → L.agrees l.new image → result ≡ found_on area.now image query.now chain.now }
{
    let mut walk = Walk::start(chain, l);
    'slots: while let Some(slot) = walk.step(chain, l) {
        if meets_in(area, l, query, slot) {
            return Some(slot);
        }
    }
    None
}
