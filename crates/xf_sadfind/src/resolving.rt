//! The states that a flow goes through: the templates in order, each at the addresses that the one before left.
ghost use Rattle.std.specs.Prelude.{◌≡◌, ℕ, ◌+◌, ◌*◌, ◌<◌, ◌≤◌, List, length};
ghost use Rattle.xf_types.specs.declared.state.Sa.{Sa};
ghost use Rattle.xf_types.specs.Candidates.{larval_for};
ghost use Rattle.xf_types.specs.FlowRules.{resolved};
ghost use Rattle.xf_types.specs.Machine.{Shown};
ghost use Rattle.xf_types.specs.Resolution.{resolution, wait_or_want};
ghost use Rattle.xf_cells.specs.Words.{Narrows};
ghost use Rattle.xf_index.specs.Indexes.{records_in};
ghost use Rattle.xf_sadidx.specs.declared.kind.Kind.TheVariants.{Route};
ghost use Rattle.xf_sadidx.specs.Founds.{bucket_size};
ghost use Rattle.xf_sadidx.specs.Keys.{route_hash};
ghost use Rattle.xf_sadidx.specs.Layout.{Fits, record_at};
ghost use Rattle.xf_sadidx.specs.Standing.{StatesIndexed, RecordsStand};
ghost use Rattle.xf_sadimage.specs.States.{StatesStand};
ghost use Rattle.xf_sadfind.specs.Paths.{IsResolved, IsWithin, seq_of};
ghost use Rattle.xf_sadfind.specs.Tried.{states_met, policy_met};

use crate::finder::StateFinder;
use crate::resolved::Resolved;
use crate::used::{Ends, is_optional, templates_of};
use arrayvec::ArrayVec;
use xf_cells::Load;
use xf_sadidx::SadIndex;
use xf_types::{Dir, Flow, Policy, Template};

impl StateFinder {
    /// The sequence number of the state in a slot.
    fn seq_in<L: Load>(&self, l: &mut L, slot: u32) -> u32
        requires fits { Fits self.now.area (L.size l.old) }
        requires slot { slot < self.now.area.slots }
        ensures size { L.size l.new ≡ L.size l.old }
        ensures begun { L.begun l.new ≡ L.begun l.old }
        ensures rest { L.rest l.new ≡ L.rest l.old }
        ensures among { Narrows (L.agrees l.old) (L.agrees l.new) }
        ensures loads { L.loads l.new ≤ L.loads l.old + 46 }
        ensures answer { (image : List ℕ) → L.agrees l.new image → result ≡ seq_of (record_at self.now.area image slot) }
    {
        match self.state(l, slot) {
            None => 0,
            Some(state) => state.spec.seq,
        }
    }

    /// What a required template without a candidate comes to, used at these addresses.
    fn wait_or_want<L: Load>(
        &self,
        l: &mut L,
        template: &Template,
        flow: &Flow,
        place: u32,
        used: &Ends,
    ) -> Resolved
        requires fits { Fits self.now.area (L.size l.old) }
        ensures size { L.size l.new ≡ L.size l.old }
        ensures begun { L.begun l.new ≡ L.begun l.old }
        ensures rest { L.rest l.new ≡ L.rest l.old }
        ensures among { Narrows (L.agrees l.old) (L.agrees l.new) }
        ensures most { L.loads l.new ≤ L.loads l.old + 50 + 50 * self.now.area.slots }
        ensures loads { (image : List ℕ) (entries : List (ℕ × Sa)) → L.agrees l.new image → StatesIndexed self.now.area image entries → L.loads l.new ≤ L.loads l.old + 50 + 50 * bucket_size self.now.area image Route (route_hash used.now.dst template.now.reqid) entries }
        ensures within { IsWithin self.now.area.slots result }
        ensures state { (image : List ℕ) (entries : List (ℕ × Sa)) → L.agrees l.new image → StatesIndexed self.now.area image entries → RecordsStand self.now.area image entries → IsResolved entries result (wait_or_want (larval_for (records_in entries) template.now flow.now used.now.src used.now.dst) template.now place used.now.src used.now.dst) }
    {
        let index = SadIndex { area: self.area };
        match index.larval(l, template, flow, &used.src, &used.dst) {
            None => Resolved::Wanting {
                template: place,
                src: used.src,
                dst: used.dst,
            },
            Some(slot) => Resolved::Waiting {
                seq: self.seq_in(l, slot),
            },
        }
    }

    /// Tries the templates in order. One that is skipped leaves the addresses as they are.
    fn lead<L: Load>(&self, l: &mut L, templates: &[Template], flow: &Flow) -> Resolved
        requires fits { Fits self.now.area (L.size l.old) }
        requires few { length templates.now ≤ 6 }
        ensures size { L.size l.new ≡ L.size l.old }
        ensures begun { L.begun l.new ≡ L.begun l.old }
        ensures rest { L.rest l.new ≡ L.rest l.old }
        ensures among { Narrows (L.agrees l.old) (L.agrees l.new) }
        ensures most { L.loads l.new ≤ L.loads l.old + 80 + 350 * self.now.area.slots }
        ensures loads { (image : List ℕ) (entries : List (ℕ × Sa)) → L.agrees l.new image → StatesIndexed self.now.area image entries → RecordsStand self.now.area image entries → L.loads l.new ≤ L.loads l.old + 80 + 100 * states_met self.now.area image entries flow.now templates.now flow.now.src flow.now.dst }
        ensures within { IsWithin self.now.area.slots result }
        ensures state { (image : List ℕ) (entries : List (ℕ × Sa)) → L.agrees l.new image → StatesIndexed self.now.area image entries → RecordsStand self.now.area image entries → IsResolved entries result (resolution (records_in entries) flow.now templates.now 0 flow.now.src flow.now.dst) }
    {
        let index = SadIndex { area: self.area };
        let mut slots = ArrayVec::new();
        let mut src = flow.src;
        let mut dst = flow.dst;
        for (place, template) in templates.iter().enumerate() {
            let used = Ends::used(template, src, dst);
            match index.best(l, template, flow, &used.src, &used.dst) {
                Some(slot) => {
                    slots.push(slot);
                    src = used.src;
                    dst = used.dst;
                }
                None => {
                    if !is_optional(template.level) {
                        return self.wait_or_want(l, template, flow, place as u32, &used);
                    }
                }
            }
        }
        Resolved::Path { slots }
    }

    /// The states that a flow goes through under a policy: their slots, the larval state that it waits for, or the template that has none.
    /// No template is tried for what comes in or is forwarded.
    pub fn resolve<L: Load>(&self, l: &mut L, p: &Policy, flow: &Flow) -> Resolved
        requires fits { Fits self.now.area (L.size l.old) }
        ensures size { L.size l.new ≡ L.size l.old }
        ensures begun { L.begun l.new ≡ L.begun l.old }
        ensures rest { L.rest l.new ≡ L.rest l.old }
        ensures among { Narrows (L.agrees l.old) (L.agrees l.new) }
        ensures most { L.loads l.new ≤ L.loads l.old + 80 + 350 * self.now.area.slots }
        ensures loads { (image : List ℕ) (s : Shown) (entries : List (ℕ × Sa)) → L.agrees l.new image → StatesStand self.now.area image s entries → L.loads l.new ≤ L.loads l.old + 160 * (1 + policy_met self.now.area image entries flow.now p.now) }
        ensures within { IsWithin self.now.area.slots result }
        ensures state { (image : List ℕ) (s : Shown) (entries : List (ℕ × Sa)) → L.agrees l.new image → StatesStand self.now.area image s entries → IsResolved entries result (resolved s flow.now p.now) }
    {
        match flow.dir {
            Dir::Out => self.lead(l, templates_of(p), flow),
            Dir::In | Dir::Fwd => Resolved::Path {
                slots: ArrayVec::new(),
            },
        }
    }
}
