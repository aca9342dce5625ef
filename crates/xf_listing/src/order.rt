//! The neighbours of a slot in the list's order, each by one load.
ghost use Rattle.std.specs.Prelude.{◌≡◌, ◌≤◌, ◌*◌, ◌+◌, ℕ, ◌<◌, ◌==◌, List, Some, None};
ghost use Rattle.xf_cells.specs.Words.{Narrows};
ghost use Rattle.xf_chain.specs.Chains.{Below, Lies};
ghost use Rattle.xf_chain.specs.Families.{chain_at};
ghost use Rattle.xf_image.specs.Layout.{order_of, back_of};
ghost use Rattle.xf_inexact.specs.Whole.{WholeFits};
ghost use Rattle.xf_image.specs.Placing.{following};

use crate::listing::Listing;
use xf_cells::Load;
use xf_chain::Chain;

/// The slot after another one, or the first.
fn following<L: Load>(chain: &Chain, l: &mut L, slot: Option<u32>) -> Option<u32>
    requires lies { Lies chain.now (L.size l.old) }
    requires slot { Below chain.now.slots slot }
    ensures size { L.size l.new ≡ L.size l.old }
    ensures begun { L.begun l.new ≡ L.begun l.old }
    ensures rest { L.rest l.new ≡ L.rest l.old }
    ensures among { Narrows (L.agrees l.old) (L.agrees l.new) }
    ensures loads { L.loads l.new ≤ L.loads l.old + 1 }
    ensures below { Below chain.now.slots result }
    ensures answer { (image : List ℕ) → L.agrees l.new image → result ≡ following chain.now image slot }
{
    match slot {
        None => chain.first(l),
        Some(slot) => chain.next(l, slot),
    }
}

impl Listing {
    /// The slot of the policy after a slot's, or of the first one.
    pub fn after<L: Load>(&self, l: &mut L, slot: Option<u32>) -> Option<u32>
        requires fits { WholeFits self.now.area (L.size l.old) }
        requires slot { Below self.now.area.slots slot }
        ensures size { L.size l.new ≡ L.size l.old }
        ensures begun { L.begun l.new ≡ L.begun l.old }
        ensures rest { L.rest l.new ≡ L.rest l.old }
        ensures among { Narrows (L.agrees l.old) (L.agrees l.new) }
        ensures loads { L.loads l.new ≤ L.loads l.old + 1 }
        ensures below { Below self.now.area.slots result }
        ensures answer { (image : List ℕ) → L.agrees l.new image → result ≡ following (chain_at (order_of self.now.area) 0) image slot }
    {
        let size = l.size();
        following(&self.order(size).chain(0, size), l, slot)
    }

    /// The slot of the policy before a slot's, or of the last one.
    pub(crate) fn before<L: Load>(&self, l: &mut L, slot: Option<u32>) -> Option<u32>
        requires fits { WholeFits self.now.area (L.size l.old) }
        requires slot { Below self.now.area.slots slot }
        ensures size { L.size l.new ≡ L.size l.old }
        ensures begun { L.begun l.new ≡ L.begun l.old }
        ensures rest { L.rest l.new ≡ L.rest l.old }
        ensures among { Narrows (L.agrees l.old) (L.agrees l.new) }
        ensures loads { L.loads l.new ≤ L.loads l.old + 1 }
        ensures below { Below self.now.area.slots result }
        ensures answer { (image : List ℕ) → L.agrees l.new image → result ≡ following (chain_at (back_of self.now.area) 0) image slot }
    {
        let size = l.size();
        following(&self.back(size).chain(0, size), l, slot)
    }
}
