//! The first policy that applies to a flow.
ghost use Rattle.std.specs.Prelude.{◌≡◌, ◌≤◌, ◌*◌, ◌+◌, ℕ, List};
ghost use Rattle.xf_types.specs.declared.policy.Policy.{Policy};
ghost use Rattle.xf_types.specs.Machine.{Shown};
ghost use Rattle.xf_types.specs.PolicyList.{IsPolicyOrder, first_policy};
ghost use Rattle.xf_cells.specs.Words.{Narrows};
ghost use Rattle.xf_inexact.specs.Whole.{SpdStands, WholeFits, trees_of};
ghost use Rattle.xf_exact.specs.Hits as hits;
ghost use Rattle.xf_exact.specs.Parts.{exact_first};
ghost use Rattle.xf_inexact.specs.Walks.{inexact_first};
ghost use Rattle.xf_types.specs.declared.network.Ptype.TheVariants.{Sub, Main};
ghost use Rattle.xf_spd.specs.Firsts.{hit_policy, first_in, first_policy_in, trees_met, all_met};

use crate::spd::Spd;
use xf_cells::Load;
use xf_exact::{Exact, Hit, better};
use xf_inexact::Inexact;
use xf_listing::Listing;
use xf_types::{Flow, Policy, Ptype};

impl Spd {
    /// The policy in the slot of a hit.
    fn hit_policy<L: Load>(&self, l: &mut L, hit: Option<Hit>) -> Option<Policy>
        requires { WholeFits self.now.area (L.size l.old) }
        ensures size { L.size l.new ≡ L.size l.old }
        ensures begun { L.begun l.new ≡ L.begun l.old }
        ensures rest { L.rest l.new ≡ L.rest l.old }
        ensures among { Narrows (L.agrees l.old) (L.agrees l.new) }
        ensures loads { L.loads l.new ≤ L.loads l.old + 101 }
        ensures answer { (image : List ℕ) → L.agrees l.new image → result ≡ hit_policy self.now.area image hit }
    {
        let hit = hit?;
        if hit.slot < self.area.slots {
            let size = l.size();
            Listing { area: self.area }.policy_in(l, hit.slot, size)
        } else {
            None
        }
    }

    /// The first policy at the nodes of the trees that applies.
    fn tree_hit<L: Load>(&self, l: &mut L, flow: &Flow, ptype: Ptype) -> Option<Hit>
        requires { WholeFits self.now.area (L.size l.old) }
        ensures size { L.size l.new ≡ L.size l.old }
        ensures begun { L.begun l.new ≡ L.begun l.old }
        ensures rest { L.rest l.new ≡ L.rest l.old }
        ensures among { Narrows (L.agrees l.old) (L.agrees l.new) }
        ensures loads { L.loads l.new ≤ L.loads l.old + 1302 + 129 * (651 + 129 * (4 + 16 * self.now.area.slots)) }
        ensures few { (image : List ℕ) (s : Shown) (es : List (ℕ × Policy)) (h : SpdStands self.now.area image s es) → L.agrees l.new image → L.loads l.new ≤ L.loads l.old + 12 + 16 * trees_met self.now.area image s h.part.trees.trees es ptype flow.now }
        ensures answer { (image : List ℕ) → L.agrees l.new image → result ≡ inexact_first (trees_of self.now.area) image ptype flow.now }
    {
        Inexact::behind(self.area).first(l, flow, ptype)
    }

    /// The better of the two parts' first ones.
    #[tactic(auto, using(crate::proofs::Found::list_lies))]
    fn first_hit<L: Load>(&self, l: &mut L, flow: &Flow, ptype: Ptype) -> Option<Hit>
        requires { WholeFits self.now.area (L.size l.old) }
        ensures size { L.size l.new ≡ L.size l.old }
        ensures begun { L.begun l.new ≡ L.begun l.old }
        ensures rest { L.rest l.new ≡ L.rest l.old }
        ensures among { Narrows (L.agrees l.old) (L.agrees l.new) }
        ensures loads { L.loads l.new ≤ L.loads l.old + 1308 + 16 * self.now.area.slots + 129 * (651 + 129 * (4 + 16 * self.now.area.slots)) }
        ensures few { (image : List ℕ) (s : Shown) (es : List (ℕ × Policy)) (h : SpdStands self.now.area image s es) → L.agrees l.new image → L.loads l.new ≤ L.loads l.old + 18 + 16 * all_met self.now.area image s h.part.trees.trees es ptype flow.now }
        ensures answer { (image : List ℕ) → L.agrees l.new image → result ≡ hits.better (exact_first self.now.area image ptype flow.now) (inexact_first (trees_of self.now.area) image ptype flow.now) }
    {
        let one = Exact { area: self.area }.first(l, flow, ptype);
        let other = self.tree_hit(l, flow, ptype);
        better(one, other)
    }

    /// The first policy of a ptype that applies.
    fn first_of<L: Load>(&self, l: &mut L, flow: &Flow, ptype: Ptype) -> Option<Policy>
        requires { WholeFits self.now.area (L.size l.old) }
        ensures size { L.size l.new ≡ L.size l.old }
        ensures begun { L.begun l.new ≡ L.begun l.old }
        ensures rest { L.rest l.new ≡ L.rest l.old }
        ensures among { Narrows (L.agrees l.old) (L.agrees l.new) }
        ensures loads { L.loads l.new ≤ L.loads l.old + 1409 + 16 * self.now.area.slots + 129 * (651 + 129 * (4 + 16 * self.now.area.slots)) }
        ensures few { (image : List ℕ) (s : Shown) (es : List (ℕ × Policy)) (h : SpdStands self.now.area image s es) → L.agrees l.new image → L.loads l.new ≤ L.loads l.old + 119 + 16 * all_met self.now.area image s h.part.trees.trees es ptype flow.now }
        ensures answer { (image : List ℕ) → L.agrees l.new image → result ≡ first_in self.now.area image ptype flow.now }
    {
        let hit = self.first_hit(l, flow, ptype);
        self.hit_policy(l, hit)
    }

    fn first_found<L: Load>(&self, l: &mut L, flow: &Flow) -> Option<Policy>
        requires { WholeFits self.now.area (L.size l.old) }
        ensures size { L.size l.new ≡ L.size l.old }
        ensures begun { L.begun l.new ≡ L.begun l.old }
        ensures rest { L.rest l.new ≡ L.rest l.old }
        ensures among { Narrows (L.agrees l.old) (L.agrees l.new) }
        ensures loads { L.loads l.new ≤ L.loads l.old + 2818 + 32 * self.now.area.slots + 258 * (651 + 129 * (4 + 16 * self.now.area.slots)) }
        ensures few { (image : List ℕ) (s : Shown) (es : List (ℕ × Policy)) (h : SpdStands self.now.area image s es) → L.agrees l.new image → L.loads l.new ≤ L.loads l.old + 238 + 16 * (all_met self.now.area image s h.part.trees.trees es Sub flow.now + all_met self.now.area image s h.part.trees.trees es Main flow.now) }
        ensures answer { (image : List ℕ) → L.agrees l.new image → result ≡ first_policy_in self.now.area image flow.now }
    {
        match self.first_of(l, flow, Ptype::Sub) {
            Some(policy) => Some(policy),
            None => self.first_of(l, flow, Ptype::Main),
        }
    }

    /// The first policy that applies to a flow: those of ptype sub are asked before those of ptype main (RFC 4301, 4.4.1).
    pub fn first<L: Load>(&self, l: &mut L, flow: &Flow) -> Option<Policy>
        requires { WholeFits self.now.area (L.size l.old) }
        ensures size { L.size l.new ≡ L.size l.old }
        ensures begun { L.begun l.new ≡ L.begun l.old }
        ensures rest { L.rest l.new ≡ L.rest l.old }
        ensures among { Narrows (L.agrees l.old) (L.agrees l.new) }
        ensures loads { L.loads l.new ≤ L.loads l.old + 2818 + 32 * self.now.area.slots + 258 * (651 + 129 * (4 + 16 * self.now.area.slots)) }
        ensures few { (image : List ℕ) (s : Shown) (es : List (ℕ × Policy)) (h : SpdStands self.now.area image s es) → L.agrees l.new image → L.loads l.new ≤ L.loads l.old + 160 * (6 + (all_met self.now.area image s h.part.trees.trees es Sub flow.now + all_met self.now.area image s h.part.trees.trees es Main flow.now)) }
        ensures answer { (image : List ℕ) (s : Shown) (es : List (ℕ × Policy)) → L.agrees l.new image → IsPolicyOrder s.policies → SpdStands self.now.area image s es → result ≡ first_policy s.policies flow.now }
    {
        self.first_found(l, flow)
    }
}
