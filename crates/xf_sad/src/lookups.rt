//! What the calls that change the list look up first.
ghost use Rattle.std.specs.Prelude.{◌≡◌, ℕ, ◌+◌, ◌*◌, ◌<◌, ◌≤◌, List, [], ◌∷◌};
ghost use Rattle.std.specs.Option.{option_map};
ghost use Rattle.xf_types.specs.declared.state.Sa.{Sa};
ghost use Rattle.xf_types.specs.IsMachine.{IsInRange};
ghost use Rattle.xf_types.specs.FlowRules.{free_seq};
ghost use Rattle.xf_types.specs.Machine.{Shown};
ghost use Rattle.xf_types.specs.StateRules.{free_spi};
ghost use Rattle.xf_cells.specs.Words.{Narrows};
ghost use Rattle.xf_chain.specs.Chains.{Below};
ghost use Rattle.xf_index.specs.Finds.{slot_found};
ghost use Rattle.xf_sadidx.specs.declared.kind.Kind.TheVariants.{Seq};
ghost use Rattle.xf_sadidx.specs.declared.query.StateQuery.TheVariants as asked;
ghost use Rattle.xf_sadidx.specs.Founds.{found_on, hash_chain};
ghost use Rattle.xf_sadidx.specs.Keys.{hash_of};
ghost use Rattle.xf_sadidx.specs.Layout.{Fits};
ghost use Rattle.xf_sadimage.specs.States.{StatesStand};
ghost use Rattle.xf_sadfind.specs.Replaced.{larval_in, sid_found, in_the_way};
ghost use Rattle.xf_sad.specs.declared.faults.SadFault.TheVariants.{Exists};
ghost use Rattle.xf_sad.specs.Lookups.{replaced_in, named_in};

use crate::faults::SadFault;
use crate::sad::Sad;
use xf_cells::{Cells, Load, hash};
use xf_sadfind::StateFinder;
use xf_sadidx::{Kind, StateQuery, latest, spi_hash};
use xf_types::{AllocSpec, SaId, SaSpec};

/// The fault that a state id is taken, where there is one.
fn exists_fault(sid: Option<u64>) -> Option<SadFault>
    ensures { result ≡ option_map (λ n. Exists n) sid }
{
    match sid {
        None => None,
        Some(sid) => Some(SadFault::Exists { sid }),
    }
}

impl Sad {
    /// The slot of the last larval state with the sequence number, protocol and destination of a request, where that number isn't 0.
    fn numbered_slot<L: Load>(&self, l: &mut L, spec: &SaSpec) -> Option<u32>
        requires { Fits self.now.area (L.size l.old) }
        ensures size { L.size l.new ≡ L.size l.old }
        ensures begun { L.begun l.new ≡ L.begun l.old }
        ensures rest { L.rest l.new ≡ L.rest l.old }
        ensures among { Narrows (L.agrees l.old) (L.agrees l.new) }
        ensures most { L.loads l.new ≤ L.loads l.old + 4 + 50 * self.now.area.slots }
        ensures below { Below self.now.area.slots result }
        ensures answer { (image : List ℕ) → L.agrees l.new image → result ≡ found_on self.now.area image (asked.Replaced spec.now.seq spec.now.proto spec.now.dst) (hash_chain self.now.area image Seq (hash_of (spec.now.seq ∷ []))) }
    {
        let hash = hash(&[u64::from(spec.seq)]);
        let query = StateQuery::Replaced {
            seq: spec.seq,
            proto: spec.proto,
            dst: spec.dst,
        };
        latest(&self.area, l, Kind::Seq, hash, &query)
    }

    /// The same where that number may be 0.
    #[tactic(auto, unfolding(crate::specs::Lookups::replaced_in))]
    fn larval_slot<L: Load>(&self, l: &mut L, spec: &SaSpec) -> Option<u32>
        requires { Fits self.now.area (L.size l.old) }
        ensures size { L.size l.new ≡ L.size l.old }
        ensures begun { L.begun l.new ≡ L.begun l.old }
        ensures rest { L.rest l.new ≡ L.rest l.old }
        ensures among { Narrows (L.agrees l.old) (L.agrees l.new) }
        ensures most { L.loads l.new ≤ L.loads l.old + 4 + 50 * self.now.area.slots }
        ensures below { Below self.now.area.slots result }
        ensures answer { (image : List ℕ) → L.agrees l.new image → result ≡ replaced_in self.now.area image spec.now }
    {
        if spec.seq == 0 {
            return None;
        }
        self.numbered_slot(l, spec)
    }

    /// The slot of the larval state that `add` would take out of the list. None exactly where there is none.
    pub fn replaced<L: Load>(&self, l: &mut L, spec: &SaSpec) -> Option<u32>
        requires { Fits self.now.area (L.size l.old) }
        ensures size { L.size l.new ≡ L.size l.old }
        ensures begun { L.begun l.new ≡ L.begun l.old }
        ensures rest { L.rest l.new ≡ L.rest l.old }
        ensures among { Narrows (L.agrees l.old) (L.agrees l.new) }
        ensures most { L.loads l.new ≤ L.loads l.old + 4 + 50 * self.now.area.slots }
        ensures below { Below self.now.area.slots result }
        ensures answer { (image : List ℕ) → L.agrees l.new image → result ≡ replaced_in self.now.area image spec.now }
        ensures state { (image : List ℕ) (s : Shown) (es : List (ℕ × Sa)) → L.agrees l.new image → StatesStand self.now.area image s es → result ≡ slot_found (larval_in spec.now es) }
    {
        self.larval_slot(l, spec)
    }

    /// Why `add` would be refused, whatever the room: another state is in the way of the new one.
    pub fn refuses<L: Load>(&self, l: &mut L, spec: &SaSpec) -> Option<SadFault>
        requires { Fits self.now.area (L.size l.old) }
        ensures size { L.size l.new ≡ L.size l.old }
        ensures begun { L.begun l.new ≡ L.begun l.old }
        ensures rest { L.rest l.new ≡ L.rest l.old }
        ensures among { Narrows (L.agrees l.old) (L.agrees l.new) }
        ensures most { L.loads l.new ≤ L.loads l.old + 10 + 100 * self.now.area.slots }
        ensures state { (image : List ℕ) (s : Shown) (es : List (ℕ × Sa)) → L.agrees l.new image → StatesStand self.now.area image s es → result ≡ option_map (λ n. Exists n) (sid_found (in_the_way s.states spec.now)) }
    {
        let gone = self.replaced(l, spec);
        let sid = (StateFinder { area: self.area }).in_the_way(l, spec, gone);
        exists_fault(sid)
    }

    /// The slot of the state that an id names.
    #[tactic(auto, unfolding(crate::specs::Lookups::named_in))]
    fn named_slot<L: Load>(&self, l: &mut L, id: &SaId) -> Option<u32>
        requires { Fits self.now.area (L.size l.old) }
        ensures size { L.size l.new ≡ L.size l.old }
        ensures begun { L.begun l.new ≡ L.begun l.old }
        ensures rest { L.rest l.new ≡ L.rest l.old }
        ensures among { Narrows (L.agrees l.old) (L.agrees l.new) }
        ensures below { Below self.now.area.slots result }
        ensures answer { (image : List ℕ) → L.agrees l.new image → result ≡ named_in self.now.area image id.now }
    {
        let hash = spi_hash(&id.dst, id.spi, id.proto);
        let query = StateQuery::Named { id: *id };
        latest(&self.area, l, Kind::Spi, hash, &query)
    }

    /// The same of cells, whose words stay.
    pub(crate) fn named_here<C: Cells>(&self, c: &mut C, id: &SaId) -> Option<u32>
        requires { Fits self.now.area (C.size c.old) }
        ensures size { C.size c.new ≡ C.size c.old }
        ensures begun { C.begun c.new ≡ C.begun c.old }
        ensures rest { C.rest c.new ≡ C.rest c.old }
        ensures words { C.words c.new ≡ C.words c.old }
        ensures below { Below self.now.area.slots result }
        ensures answer { result ≡ named_in self.now.area (C.words c.old) id.now }
    {
        self.named_slot(c, id)
    }

    /// The slot of the larval state that a new state takes the place of, of cells, whose words stay.
    pub(crate) fn replaced_here<C: Cells>(&self, c: &mut C, spec: &SaSpec) -> Option<u32>
        requires { Fits self.now.area (C.size c.old) }
        ensures size { C.size c.new ≡ C.size c.old }
        ensures begun { C.begun c.new ≡ C.begun c.old }
        ensures rest { C.rest c.new ≡ C.rest c.old }
        ensures words { C.words c.new ≡ C.words c.old }
        ensures below { Below self.now.area.slots result }
        ensures answer { result ≡ replaced_in self.now.area (C.words c.old) spec.now }
    {
        self.replaced(c, spec)
    }

    /// The state id of the state that a new one can't stand beside, of cells, whose words stay.
    pub(crate) fn in_the_way_here<C: Cells>(
        &self,
        c: &mut C,
        spec: &SaSpec,
        gone: Option<u32>,
    ) -> Option<u64>
        requires fits { Fits self.now.area (C.size c.old) }
        requires gone { Below self.now.area.slots gone }
        ensures size { C.size c.new ≡ C.size c.old }
        ensures begun { C.begun c.new ≡ C.begun c.old }
        ensures rest { C.rest c.new ≡ C.rest c.old }
        ensures words { C.words c.new ≡ C.words c.old }
        ensures state { (s : Shown) (es : List (ℕ × Sa)) → StatesStand self.now.area (C.words c.old) s es → gone ≡ slot_found (larval_in spec.now es) → result ≡ sid_found (in_the_way s.states spec.now) }
    {
        (StateFinder { area: self.area }).in_the_way(c, spec, gone)
    }

    /// The least SPI of a range that no state has, of cells, whose words stay.
    pub(crate) fn free_spi_here<C: Cells>(&self, c: &mut C, spec: &AllocSpec) -> Option<u32>
        requires { Fits self.now.area (C.size c.old) }
        ensures size { C.size c.new ≡ C.size c.old }
        ensures begun { C.begun c.new ≡ C.begun c.old }
        ensures rest { C.rest c.new ≡ C.rest c.old }
        ensures words { C.words c.new ≡ C.words c.old }
        ensures state { (s : Shown) (es : List (ℕ × Sa)) → StatesStand self.now.area (C.words c.old) s es → result ≡ free_spi spec.now s.states }
    {
        (StateFinder { area: self.area }).free_spi(c, spec)
    }

    /// The first sequence number that no state has, of cells, whose words stay.
    pub(crate) fn free_seq_here<C: Cells>(&self, c: &mut C) -> u32
        requires { Fits self.now.area (C.size c.old) }
        ensures size { C.size c.new ≡ C.size c.old }
        ensures begun { C.begun c.new ≡ C.begun c.old }
        ensures rest { C.rest c.new ≡ C.rest c.old }
        ensures words { C.words c.new ≡ C.words c.old }
        ensures some { 1 ≤ result }
        ensures state { (s : Shown) (es : List (ℕ × Sa)) → IsInRange s → StatesStand self.now.area (C.words c.old) s es → result ≡ free_seq s }
    {
        (StateFinder { area: self.area }).free_seq(c)
    }
}
