//! The states by their hashes.
ghost use Rattle.std.specs.Prelude.{◌≡◌, ◌≢◌, ℕ, ◌+◌, ◌*◌, ◌<◌, ◌≤◌, true, List, [], ◌∷◌, ◌++◌};
ghost use Rattle.xf_types.specs.declared.state.Sa.{Sa};
ghost use Rattle.xf_cells.specs.Words.{Narrows};
ghost use Rattle.xf_chain.specs.Chains.{Below};
ghost use Rattle.xf_chain.specs.Lists.{Misses, Apart};
ghost use Rattle.xf_index.specs.Indexes.{slots_in};
ghost use Rattle.xf_index.specs.Finds.{slot_found};
ghost use Rattle.xf_image.specs.Frames.{Frame};
ghost use Rattle.xf_sadidx.specs.declared.kind.Kind.TheVariants.{Spi, Route, Seq};
ghost use Rattle.xf_sadidx.specs.declared.query.StateQuery.TheVariants as asked;
ghost use Rattle.xf_sadidx.specs.Layout.{Fits, chains_start, chains_end, doubling_in};
ghost use Rattle.xf_sadidx.specs.Keys.{spi_hash, route_hash, hash_of};
ghost use Rattle.xf_sadidx.specs.Queries.{meets};
ghost use Rattle.xf_sadidx.specs.Standing.{StatesIndexed, RecordsStand};
ghost use Rattle.xf_sadidx.specs.Founds.{latest_in, bucket_size};
ghost use Rattle.xf_sadidx.specs.Bests.{best_in};
ghost use Rattle.xf_sadidx.specs.Writes as writes;

use crate::area::StateArea;
use crate::best::best_on;
use crate::changing::{put_all, take_all};
use crate::finding::latest;
use crate::kind::{Kind, route_hash, spi_hash};
use crate::query::StateQuery;
use xf_cells::{Cells, Load, hash};
use xf_types::{Addr, Flow, Proto, Sa, SaId, Template};

/// The states in their chains by hash.
#[derive(Clone, Copy, Debug, PartialEq, Eq)]
pub struct SadIndex {
    pub area: StateArea,
}

impl SadIndex {
    /// The slot of the state that an id names: the last one that was added.
    pub fn living<L: Load>(&self, l: &mut L, id: &SaId) -> Option<u32>
        requires fits { Fits self.now.area (L.size l.old) }
        ensures size { L.size l.new ≡ L.size l.old }
        ensures begun { L.begun l.new ≡ L.begun l.old }
        ensures rest { L.rest l.new ≡ L.rest l.old }
        ensures among { Narrows (L.agrees l.old) (L.agrees l.new) }
        ensures most { L.loads l.new ≤ L.loads l.old + 4 + 50 * self.now.area.slots }
        ensures loads { (image : List ℕ) (entries : List (ℕ × Sa)) → L.agrees l.new image → StatesIndexed self.now.area image entries → L.loads l.new ≤ L.loads l.old + 4 + 50 * bucket_size self.now.area image Spi (spi_hash id.now.dst id.now.spi id.now.proto) entries }
        ensures slot { Below self.now.area.slots result }
        ensures state { (image : List ℕ) (entries : List (ℕ × Sa)) → L.agrees l.new image → StatesIndexed self.now.area image entries → RecordsStand self.now.area image entries → result ≡ slot_found (latest_in (meets (asked.Named id.now)) entries) }
    {
        let hash = spi_hash(&id.dst, id.spi, id.proto);
        let query = StateQuery::Named { id: *id };
        latest(&self.area, l, Kind::Spi, hash, &query)
    }

    /// The slot of the last state that an id names and that hasn't this state id.
    pub fn beside<L: Load>(&self, l: &mut L, id: &SaId, sid: u64) -> Option<u32>
        requires fits { Fits self.now.area (L.size l.old) }
        ensures size { L.size l.new ≡ L.size l.old }
        ensures begun { L.begun l.new ≡ L.begun l.old }
        ensures rest { L.rest l.new ≡ L.rest l.old }
        ensures among { Narrows (L.agrees l.old) (L.agrees l.new) }
        ensures most { L.loads l.new ≤ L.loads l.old + 4 + 50 * self.now.area.slots }
        ensures slot { Below self.now.area.slots result }
        ensures state { (image : List ℕ) (entries : List (ℕ × Sa)) → L.agrees l.new image → StatesIndexed self.now.area image entries → RecordsStand self.now.area image entries → result ≡ slot_found (latest_in (meets (asked.Beside id.now sid)) entries) }
    {
        let hash = spi_hash(&id.dst, id.spi, id.proto);
        let query = StateQuery::Beside { id: *id, sid };
        latest(&self.area, l, Kind::Spi, hash, &query)
    }

    /// The slot of the last state with this destination, protocol and SPI, whatever its mark.
    pub fn by_number<L: Load>(&self, l: &mut L, dst: &Addr, proto: Proto, spi: u32) -> Option<u32>
        requires fits { Fits self.now.area (L.size l.old) }
        ensures size { L.size l.new ≡ L.size l.old }
        ensures begun { L.begun l.new ≡ L.begun l.old }
        ensures rest { L.rest l.new ≡ L.rest l.old }
        ensures among { Narrows (L.agrees l.old) (L.agrees l.new) }
        ensures most { L.loads l.new ≤ L.loads l.old + 4 + 50 * self.now.area.slots }
        ensures slot { Below self.now.area.slots result }
        ensures state { (image : List ℕ) (entries : List (ℕ × Sa)) → L.agrees l.new image → StatesIndexed self.now.area image entries → RecordsStand self.now.area image entries → result ≡ slot_found (latest_in (meets (asked.Number dst.now proto spi)) entries) }
    {
        let hash = spi_hash(dst, spi, proto);
        let query = StateQuery::Number {
            dst: *dst,
            proto,
            spi,
        };
        latest(&self.area, l, Kind::Spi, hash, &query)
    }

    /// The slot of the last state with a sequence number.
    pub fn by_seq<L: Load>(&self, l: &mut L, seq: u32) -> Option<u32>
        requires fits { Fits self.now.area (L.size l.old) }
        requires seq { seq ≢ 0 }
        ensures size { L.size l.new ≡ L.size l.old }
        ensures begun { L.begun l.new ≡ L.begun l.old }
        ensures rest { L.rest l.new ≡ L.rest l.old }
        ensures among { Narrows (L.agrees l.old) (L.agrees l.new) }
        ensures most { L.loads l.new ≤ L.loads l.old + 4 + 50 * self.now.area.slots }
        ensures slot { Below self.now.area.slots result }
        ensures state { (image : List ℕ) (entries : List (ℕ × Sa)) → L.agrees l.new image → StatesIndexed self.now.area image entries → RecordsStand self.now.area image entries → result ≡ slot_found (latest_in (meets (asked.Numbered seq)) entries) }
    {
        let hash = hash(&[u64::from(seq)]);
        latest(
            &self.area,
            l,
            Kind::Seq,
            hash,
            &StateQuery::Numbered { seq },
        )
    }

    /// The slot of the last larval state with a sequence number, protocol and destination.
    pub fn replaced<L: Load>(&self, l: &mut L, seq: u32, proto: Proto, dst: &Addr) -> Option<u32>
        requires fits { Fits self.now.area (L.size l.old) }
        requires seq { seq ≢ 0 }
        ensures size { L.size l.new ≡ L.size l.old }
        ensures begun { L.begun l.new ≡ L.begun l.old }
        ensures rest { L.rest l.new ≡ L.rest l.old }
        ensures among { Narrows (L.agrees l.old) (L.agrees l.new) }
        ensures most { L.loads l.new ≤ L.loads l.old + 4 + 50 * self.now.area.slots }
        ensures slot { Below self.now.area.slots result }
        ensures state { (image : List ℕ) (entries : List (ℕ × Sa)) → L.agrees l.new image → StatesIndexed self.now.area image entries → RecordsStand self.now.area image entries → result ≡ slot_found (latest_in (meets (asked.Replaced seq proto dst.now)) entries) }
    {
        let hash = hash(&[u64::from(seq)]);
        let query = StateQuery::Replaced {
            seq,
            proto,
            dst: *dst,
        };
        latest(&self.area, l, Kind::Seq, hash, &query)
    }

    /// The slot of the best state for a template that is used with these addresses.
    pub fn best<L: Load>(
        &self,
        l: &mut L,
        t: &Template,
        flow: &Flow,
        src: &Addr,
        dst: &Addr,
    ) -> Option<u32>
        requires fits { Fits self.now.area (L.size l.old) }
        ensures size { L.size l.new ≡ L.size l.old }
        ensures begun { L.begun l.new ≡ L.begun l.old }
        ensures rest { L.rest l.new ≡ L.rest l.old }
        ensures among { Narrows (L.agrees l.old) (L.agrees l.new) }
        ensures most { L.loads l.new ≤ L.loads l.old + 4 + 50 * self.now.area.slots }
        ensures loads { (image : List ℕ) (entries : List (ℕ × Sa)) → L.agrees l.new image → StatesIndexed self.now.area image entries → L.loads l.new ≤ L.loads l.old + 4 + 50 * bucket_size self.now.area image Route (route_hash dst.now t.now.reqid) entries }
        ensures slot { Below self.now.area.slots result }
        ensures state { (image : List ℕ) (entries : List (ℕ × Sa)) → L.agrees l.new image → StatesIndexed self.now.area image entries → RecordsStand self.now.area image entries → result ≡ slot_found (best_in (meets (asked.Candidate t.now flow.now src.now dst.now)) entries) }
    {
        let hash = route_hash(dst, t.reqid);
        let query = StateQuery::Candidate {
            t: *t,
            flow: *flow,
            src: *src,
            dst: *dst,
        };
        best_on(&self.area, l, Kind::Route, hash, &query)
    }

    /// The slot of the last larval state that suits a template that is used with these addresses.
    pub fn larval<L: Load>(
        &self,
        l: &mut L,
        t: &Template,
        flow: &Flow,
        src: &Addr,
        dst: &Addr,
    ) -> Option<u32>
        requires fits { Fits self.now.area (L.size l.old) }
        ensures size { L.size l.new ≡ L.size l.old }
        ensures begun { L.begun l.new ≡ L.begun l.old }
        ensures rest { L.rest l.new ≡ L.rest l.old }
        ensures among { Narrows (L.agrees l.old) (L.agrees l.new) }
        ensures most { L.loads l.new ≤ L.loads l.old + 4 + 50 * self.now.area.slots }
        ensures loads { (image : List ℕ) (entries : List (ℕ × Sa)) → L.agrees l.new image → StatesIndexed self.now.area image entries → L.loads l.new ≤ L.loads l.old + 4 + 50 * bucket_size self.now.area image Route (route_hash dst.now t.now.reqid) entries }
        ensures slot { Below self.now.area.slots result }
        ensures state { (image : List ℕ) (entries : List (ℕ × Sa)) → L.agrees l.new image → StatesIndexed self.now.area image entries → RecordsStand self.now.area image entries → result ≡ slot_found (latest_in (meets (asked.Larval t.now flow.now src.now dst.now)) entries) }
    {
        let hash = route_hash(dst, t.reqid);
        let query = StateQuery::Larval {
            t: *t,
            flow: *flow,
            src: *src,
            dst: *dst,
        };
        latest(&self.area, l, Kind::Route, hash, &query)
    }

    /// Puts the slot of a state, later than all that stand in the chains, into its chains. The slot's record is `s`.
    pub fn insert<C: Cells>(&self, c: &mut C, slot: u32, s: &Sa)
        requires fits { Fits self.now.area (C.size c.old) }
        requires begun { C.begun c.old ≡ true }
        requires slot { slot < self.now.area.slots }
        ensures size { C.size c.new ≡ C.size c.old }
        ensures begun { C.begun c.new ≡ true }
        ensures rest { C.rest c.new ≡ C.rest c.old }
        ensures words { C.words c.new ≡ writes.put_all self.now.area (doubling_in self.now.area (C.words c.old)) s.now slot (C.words c.old) }
        ensures frame { Frame (chains_start self.now.area) (chains_end self.now.area) (C.words c.old) (C.words c.new) }
        ensures entries { (entries : List (ℕ × Sa)) → Misses slot (slots_in entries) → Apart (slots_in entries) → StatesIndexed self.now.area (C.words c.old) entries → StatesIndexed self.now.area (C.words c.new) (entries ++ ((slot, s.now) ∷ [])) }
    {
        put_all(&self.area, c, s, slot);
    }

    /// Takes the slot of a state out of its chains. The slot's record is `s`.
    pub fn remove<C: Cells>(&self, c: &mut C, slot: u32, s: &Sa)
        requires fits { Fits self.now.area (C.size c.old) }
        requires begun { C.begun c.old ≡ true }
        requires slot { slot < self.now.area.slots }
        ensures size { C.size c.new ≡ C.size c.old }
        ensures begun { C.begun c.new ≡ true }
        ensures rest { C.rest c.new ≡ C.rest c.old }
        ensures words { C.words c.new ≡ writes.take_all self.now.area (doubling_in self.now.area (C.words c.old)) s.now slot (C.words c.old) }
        ensures frame { Frame (chains_start self.now.area) (chains_end self.now.area) (C.words c.old) (C.words c.new) }
        ensures entries { (front back : List (ℕ × Sa)) → Apart (slots_in (front ++ ((slot, s.now) ∷ back))) → StatesIndexed self.now.area (C.words c.old) (front ++ ((slot, s.now) ∷ back)) → StatesIndexed self.now.area (C.words c.new) (front ++ back) }
    {
        take_all(&self.area, c, s, slot);
    }
}
