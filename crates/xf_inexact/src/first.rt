//! The first policy that applies to a flow, of all that stand at the nodes that hold its addresses.
ghost use Rattle.std.specs.Prelude.{◌≡◌, ℕ, ◌+◌, ◌*◌, ◌^◌, ◌<◌, ◌≤◌, List, Option, All, length};
ghost use Rattle.xf_cells.specs.Words.{Narrows};
ghost use Rattle.xf_chain.specs.Chains.{Below, slots_of};
ghost use Rattle.xf_chain.specs.Families.{chain_at};
ghost use Rattle.xf_exact.specs.Hits as hits;
ghost use Rattle.xf_exact.specs.Parts.{is_in_exact};
ghost use Rattle.xf_trie.specs.Keys.{key_of};
ghost use Rattle.xf_trie.specs.Walks.{visit_of};
ghost use Rattle.xf_inexact.specs.Places as places;
ghost use Rattle.xf_inexact.specs.Walks as walks;
ghost use Rattle.std.specs.Prelude.{◌&&◌, not};
ghost use Rattle.xf_image.specs.Policies.{ColumnsStand};
ghost use Rattle.xf_index.specs.Indexes.{records_in};
ghost use Rattle.xf_types.specs.declared.policy.Policy.{Policy};
ghost use Rattle.xf_types.specs.Address.{family_of};
ghost use Rattle.xf_types.specs.PolicyList.{IsPolicyOrder, applies};
ghost use Rattle.xf_inexact.specs.Bounds.{bins_met, flow_nodes, policies_around};
ghost use Rattle.xf_inexact.specs.Holds.{HoldPart};
ghost use Rattle.xf_inexact.specs.Keys.{bin_cost};

use crate::inexact::Inexact;
use arrayvec::ArrayVec;
use xf_cells::Load;
use xf_exact::{Hit, Query, better, found};
use xf_records::family_word;
use xf_types::{Addr, Flow, Ptype};

impl Inexact {
    /// The hit in a slot, where there is one.
    #[tactic(auto, using(crate::proofs::Apart::policies_fit))]
    fn hit_at<L: Load>(&self, l: &mut L, slot: Option<u32>) -> Option<Hit>
        requires fits { places.Fits self.now (L.size l.old) }
        requires slot { Below self.now.area.slots slot }
        ensures size { L.size l.new ≡ L.size l.old }
        ensures begun { L.begun l.new ≡ L.begun l.old }
        ensures rest { L.rest l.new ≡ L.rest l.old }
        ensures among { Narrows (L.agrees l.old) (L.agrees l.new) }
        ensures loads { L.loads l.new ≤ L.loads l.old + 2 }
        ensures answer { (image : List ℕ) → L.agrees l.new image → result ≡ hits.hit_at self.now.area image slot }
    {
        let slot = slot?;
        let priority = l.load(self.area.priority_place(slot));
        let number = l.load(self.area.number_place(slot));
        Some(Hit {
            slot,
            priority: priority.min(u64::from(u32::MAX)) as u32,
            number,
        })
    }

    /// The first policy at a node that applies to the flow.
    #[tactic(auto, using(crate::proofs::Apart::policies_fit, crate::proofs::Apart::chains_lay))]
    fn first_at<L: Load>(&self, l: &mut L, node: u32, ptype: Ptype, flow: &Flow) -> Option<Hit>
        requires fits { places.Fits self.now (L.size l.old) }
        requires node { node < places.count_of self.now }
        ensures size { L.size l.new ≡ L.size l.old }
        ensures begun { L.begun l.new ≡ L.begun l.old }
        ensures rest { L.rest l.new ≡ L.rest l.old }
        ensures among { Narrows (L.agrees l.old) (L.agrees l.new) }
        ensures most { L.loads l.new ≤ L.loads l.old + 4 + 16 * self.now.area.slots }
        ensures loads { (image : List ℕ) → L.agrees l.new image → L.loads l.new ≤ L.loads l.old + 4 + 16 * length (slots_of (chain_at (places.chains_of self.now) node) image) }
        ensures answer { (image : List ℕ) → L.agrees l.new image → result ≡ walks.first_at self.now image ptype flow.now node }
    {
        let size = l.size();
        let chain = self.chains().chain(node, size);
        let query = Query::Applies { ptype, flow: *flow };
        let slot = found(&self.area, l, &chain, &query);
        self.hit_at(l, slot)
    }

    /// The nodes of the tree below a node whose prefixes hold an address.
    #[tactic(auto, unfolding(crate::specs::Walks::walk_cost), using(crate::proofs::Apart::below_lies))]
    fn visit_below<L: Load>(&self, l: &mut L, node: u32, addr: &Addr) -> ArrayVec<u32, 129>
        requires fits { places.Fits self.now (L.size l.old) }
        requires node { node < places.count_of self.now }
        ensures size { L.size l.new ≡ L.size l.old }
        ensures begun { L.begun l.new ≡ L.begun l.old }
        ensures rest { L.rest l.new ≡ L.rest l.old }
        ensures among { Narrows (L.agrees l.old) (L.agrees l.new) }
        ensures most { L.loads l.new ≤ L.loads l.old + 651 }
        ensures below { All (λ slot. slot < places.count_of self.now) result.items }
        ensures loads { (image : List ℕ) → L.agrees l.new image → L.loads l.new ≤ L.loads l.old + walks.walk_cost self.now image (key_of addr.now) node }
        ensures answer { (image : List ℕ) → L.agrees l.new image → result.items ≡ visit_of (places.below_of self.now node) image (key_of addr.now) }
    {
        self.below(node).visit(l, addr)
    }

    /// The best of what stands below a destination, and of a hit.
    #[tactic(auto, unfolding(crate::specs::Walks::best_below, crate::specs::Walks::below_cost), using(crate::proofs::Most::sum_small))]
    fn best_below<L: Load>(
        &self,
        l: &mut L,
        node: u32,
        ptype: Ptype,
        flow: &Flow,
        best: Option<Hit>,
    ) -> Option<Hit>
        requires fits { places.Fits self.now (L.size l.old) }
        requires node { node < places.count_of self.now }
        ensures size { L.size l.new ≡ L.size l.old }
        ensures begun { L.begun l.new ≡ L.begun l.old }
        ensures rest { L.rest l.new ≡ L.rest l.old }
        ensures among { Narrows (L.agrees l.old) (L.agrees l.new) }
        ensures most { L.loads l.new ≤ L.loads l.old + 651 + 129 * (4 + 16 * self.now.area.slots) }
        ensures loads { (image : List ℕ) → L.agrees l.new image → L.loads l.new ≤ L.loads l.old + walks.below_cost self.now image flow.now node }
        ensures answer { (image : List ℕ) → L.agrees l.new image → result ≡ walks.best_below self.now image ptype flow.now best node }
    {
        let visited = self.visit_below(l, node, &flow.src);
        let nodes = visited.as_slice();
        let mut first = best;
        'nodes: for source in nodes {
            first = better(first, self.first_at(l, *source, ptype, flow));
        }
        first
    }

    /// The best of what stands in a bin.
    #[tactic(auto, unfolding(crate::specs::Walks::best_in, crate::specs::Walks::in_cost), using(crate::proofs::Most::sum_small))]
    fn best_in<L: Load>(&self, l: &mut L, node: u32, ptype: Ptype, flow: &Flow) -> Option<Hit>
        requires fits { places.Fits self.now (L.size l.old) }
        requires node { node < places.count_of self.now }
        ensures size { L.size l.new ≡ L.size l.old }
        ensures begun { L.begun l.new ≡ L.begun l.old }
        ensures rest { L.rest l.new ≡ L.rest l.old }
        ensures among { Narrows (L.agrees l.old) (L.agrees l.new) }
        ensures most { L.loads l.new ≤ L.loads l.old + 651 + 129 * (651 + 129 * (4 + 16 * self.now.area.slots)) }
        ensures loads { (image : List ℕ) → L.agrees l.new image → L.loads l.new ≤ L.loads l.old + walks.in_cost self.now image flow.now node }
        ensures answer { (image : List ℕ) → L.agrees l.new image → result ≡ walks.best_in self.now image ptype flow.now node }
    {
        let visited = self.visit_below(l, node, &flow.dst);
        let nodes = visited.as_slice();
        let mut first = None;
        'nodes: for destination in nodes {
            first = self.best_below(l, *destination, ptype, flow, first);
        }
        first
    }
}

impl Inexact {
    /// The node of the bin of a flow whose addresses are of one family: no selector matches another one.
    fn flow_bin<L: Load>(&self, l: &mut L, flow: &Flow, ptype: Ptype) -> Option<u32>
        requires { places.Fits self.now (L.size l.old) }
        ensures size { L.size l.new ≡ L.size l.old }
        ensures begun { L.begun l.new ≡ L.begun l.old }
        ensures rest { L.rest l.new ≡ L.rest l.old }
        ensures among { Narrows (L.agrees l.old) (L.agrees l.new) }
        ensures most { L.loads l.new ≤ L.loads l.old + 651 }
        ensures below { Below (places.count_of self.now) result }
        ensures if_id { flow.now.if_id < 2 ^ 32 }
        ensures loads { (image : List ℕ) → L.agrees l.new image → L.loads l.new ≤ L.loads l.old + bin_cost self.now image ptype (family_of flow.now.dst) flow.now.dir flow.now.if_id }
        ensures answer { (image : List ℕ) → L.agrees l.new image → result ≡ walks.flow_bin self.now image ptype flow.now }
    {
        let if_id = flow.if_id;
        if family_word(&flow.src) == family_word(&flow.dst) {
            self.bin(l, ptype, &flow.dst, flow.dir, if_id)
        } else {
            None
        }
    }

    /// The best of what stands in the bin of a flow.
    fn first_there<L: Load>(&self, l: &mut L, flow: &Flow, ptype: Ptype) -> Option<Hit>
        requires { places.Fits self.now (L.size l.old) }
        ensures size { L.size l.new ≡ L.size l.old }
        ensures begun { L.begun l.new ≡ L.begun l.old }
        ensures rest { L.rest l.new ≡ L.rest l.old }
        ensures among { Narrows (L.agrees l.old) (L.agrees l.new) }
        ensures most { L.loads l.new ≤ L.loads l.old + 1302 + 129 * (651 + 129 * (4 + 16 * self.now.area.slots)) }
        ensures if_id { flow.now.if_id < 2 ^ 32 }
        ensures loads { (image : List ℕ) → L.agrees l.new image → L.loads l.new ≤ L.loads l.old + bin_cost self.now image ptype (family_of flow.now.dst) flow.now.dir flow.now.if_id + walks.of_cost self.now image flow.now (walks.flow_bin self.now image ptype flow.now) }
        ensures answer { (image : List ℕ) → L.agrees l.new image → result ≡ walks.best_of self.now image ptype flow.now (walks.flow_bin self.now image ptype flow.now) }
    {
        let bin = self.flow_bin(l, flow, ptype);
        self.best_of(l, bin, ptype, flow)
    }

    /// The best of what stands in the bin that there is.
    fn best_of<L: Load>(
        &self,
        l: &mut L,
        bin: Option<u32>,
        ptype: Ptype,
        flow: &Flow,
    ) -> Option<Hit>
        requires fits { places.Fits self.now (L.size l.old) }
        requires bin { Below (places.count_of self.now) bin }
        ensures size { L.size l.new ≡ L.size l.old }
        ensures begun { L.begun l.new ≡ L.begun l.old }
        ensures rest { L.rest l.new ≡ L.rest l.old }
        ensures among { Narrows (L.agrees l.old) (L.agrees l.new) }
        ensures most { L.loads l.new ≤ L.loads l.old + 651 + 129 * (651 + 129 * (4 + 16 * self.now.area.slots)) }
        ensures loads { (image : List ℕ) → L.agrees l.new image → L.loads l.new ≤ L.loads l.old + walks.of_cost self.now image flow.now bin }
        ensures answer { (image : List ℕ) → L.agrees l.new image → result ≡ walks.best_of self.now image ptype flow.now bin }
    {
        match bin {
            None => None,
            Some(node) => self.best_in(l, node, ptype, flow),
        }
    }

    /// The first policy of this part that applies to the flow and has this ptype.
    pub fn first<L: Load>(&self, l: &mut L, flow: &Flow, ptype: Ptype) -> Option<Hit>
        requires { places.Fits self.now (L.size l.old) }
        ensures size { L.size l.new ≡ L.size l.old }
        ensures begun { L.begun l.new ≡ L.begun l.old }
        ensures rest { L.rest l.new ≡ L.rest l.old }
        ensures among { Narrows (L.agrees l.old) (L.agrees l.new) }
        ensures most { L.loads l.new ≤ L.loads l.old + 1302 + 129 * (651 + 129 * (4 + 16 * self.now.area.slots)) }
        ensures loads { (image : List ℕ) → L.agrees l.new image → L.loads l.new ≤ L.loads l.old + walks.first_cost self.now image ptype flow.now }
        ensures few { (image : List ℕ) (h4 h6 : ℕ × ℕ) (entries : List (ℕ × Policy)) (h : HoldPart self.now image h4 h6 entries) → L.agrees l.new image → ColumnsStand self.now.area image entries → L.loads l.new ≤ L.loads l.old + 12 + 16 * (bins_met self.now h.trees.trees ptype flow.now + flow_nodes self.now h.trees.trees flow.now (walks.flow_bin self.now image ptype flow.now) + policies_around h4 h6 ptype flow.now entries) }
        ensures answer { (image : List ℕ) → L.agrees l.new image → result ≡ walks.inexact_first self.now image ptype flow.now }
        ensures policy { (image : List ℕ) (h4 h6 : ℕ × ℕ) (entries : List (ℕ × Policy)) → L.agrees l.new image → HoldPart self.now image h4 h6 entries → ColumnsStand self.now.area image entries → IsPolicyOrder (records_in entries) → result ≡ hits.first_of (λ p. not (is_in_exact h4 h6 p) && applies ptype flow.now p) entries }
    {
        self.first_there(l, flow, ptype)
    }
}
