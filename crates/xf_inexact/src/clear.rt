//! The trees without policies.
ghost use Rattle.std.specs.Prelude.{◌≡◌, ℕ, ◌<◌, true, [], List};
ghost use Rattle.xf_chain.specs.Families.{Lays};
ghost use Rattle.xf_image.specs.Frames.{Frame};
ghost use Rattle.xf_inexact.specs.Clears as clears;
ghost use Rattle.xf_inexact.specs.Holds.{HoldPart};
ghost use Rattle.xf_inexact.specs.Places as places;

use crate::inexact::Inexact;
use xf_cells::Cells;
use xf_chain::Family;

impl Inexact {
    /// The words of all roots and of all heads of chains, which lie in a row.
    fn tops(&self) -> Family
        requires { places.IsInexact self.now }
        ensures { result ≡ clears.tops_of self.now }
    {
        Family {
            heads: self.base,
            count: 64 + 12 * self.area.slots,
            links: self.base + 64 + 12 * self.area.slots,
            slots: self.area.slots,
        }
    }

    /// No root has a tree, and no node a chain.
    #[tactic(auto, unfolding(crate::specs::Clears::tops_cleared), using(crate::proofs::Cleared::tops_lay))]
    fn clear_tops<C: Cells>(&self, c: &mut C)
        requires fits { places.Fits self.now (C.size c.old) }
        requires begun { C.begun c.old ≡ true }
        ensures size { C.size c.new ≡ C.size c.old }
        ensures begun { C.begun c.new ≡ true }
        ensures rest { C.rest c.new ≡ C.rest c.old }
        ensures words { C.words c.new ≡ clears.tops_cleared self.now (C.words c.old) }
    {
        self.tops().clear(c);
    }

    /// Each node is free, before the next one.
    #[tactic(auto, unfolding(crate::specs::Clears::all_freed), using(crate::proofs::Cleared::nexts_step))]
    fn free_all<C: Cells>(&self, c: &mut C)
        requires fits { places.Fits self.now (C.size c.old) }
        requires begun { C.begun c.old ≡ true }
        ensures size { C.size c.new ≡ C.size c.old }
        ensures begun { C.begun c.new ≡ true }
        ensures rest { C.rest c.new ≡ C.rest c.old }
        ensures words { C.words c.new ≡ clears.all_freed self.now (C.words c.old) }
    {
        let free = self.base + 64 + 13 * self.area.slots;
        c.store(free, 0);
        c.store(free + 1, 0);
        let mut place = free + 8;
        let mut left = 6 * self.area.slots;
        'nodes: while left > 0 {
            c.store(place, 0);
            place += 8;
            left -= 1;
        }
    }

    /// Empties the trees. The links of the chains stay as they were, and so do the prefixes of the nodes, of which none is in a tree.
    pub fn clear<C: Cells>(&self, c: &mut C)
        requires fits { places.Fits self.now (C.size c.old) }
        requires begun { C.begun c.old ≡ true }
        ensures size { C.size c.new ≡ C.size c.old }
        ensures begun { C.begun c.new ≡ true }
        ensures rest { C.rest c.new ≡ C.rest c.old }
        ensures frame { Frame self.now.base (places.end_of self.now) (C.words c.old) (C.words c.new) }
        ensures entries { (h4 h6 : ℕ × ℕ) → HoldPart self.now (C.words c.new) h4 h6 [] }
    {
        self.clear_tops(c);
        self.free_all(c);
    }
}
