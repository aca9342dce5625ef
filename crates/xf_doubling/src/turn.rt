//! One turn of a split.
ghost use Rattle.std.specs.Prelude.{◌≡◌, ℕ, ◌+◌, ◌<◌, ◌≤◌, true, false, List, Option, None, Some};
ghost use Rattle.xf_chain.specs.Chains.{Lies, Below, next_in};
ghost use Rattle.xf_doubling.specs.Heads.{IsDoubling};
ghost use Rattle.xf_doubling.specs.Splits as splits;

use crate::doubling::Doubling;
use crate::keys::Keys;
use xf_cells::Cells;
use xf_chain::Chain;

/// The key of a slot of cells, whose words stay.
fn key_in<C: Cells, K: Keys>(c: &mut C, keys: &K, slot: u32) -> Option<u64>
    requires lies { K.lies keys.now (C.size c.old) }
    requires slot { slot < K.slots keys.now }
    ensures size { C.size c.new ≡ C.size c.old }
    ensures begun { C.begun c.new ≡ C.begun c.old }
    ensures rest { C.rest c.new ≡ C.rest c.old }
    ensures words { C.words c.new ≡ C.words c.old }
    ensures key { result ≡ K.key keys.now (C.words c.old) slot }
{
    keys.key_at(c, slot)
}

/// The slot after a slot of cells, whose words stay.
fn next_in<C: Cells>(c: &mut C, chain: &Chain, slot: u32) -> Option<u32>
    requires lies { Lies chain.now (C.size c.old) }
    requires slot { slot < chain.now.slots }
    ensures size { C.size c.new ≡ C.size c.old }
    ensures begun { C.begun c.new ≡ C.begun c.old }
    ensures rest { C.rest c.new ≡ C.rest c.old }
    ensures words { C.words c.new ≡ C.words c.old }
    ensures below { Below chain.now.slots result }
    ensures answer { result ≡ next_in chain.now (C.words c.old) slot }
{
    chain.next(c, slot)
}

/// Whether a key goes to the new head, once one head more is split.
fn goes(d: Doubling, key: Option<u64>) -> bool
    requires is { IsDoubling d.half d.moved }
    requires pending { d.moved < d.half }
    ensures { result ≡ splits.goes d.half d.moved key }
{
    let next = Doubling {
        half: d.half,
        moved: d.moved + 1,
    };
    match key {
        None => false,
        Some(hash) => next.number(hash) == d.half + d.moved,
    }
}

/// How far a chain is split: the slot that comes, the last that stayed, the last that went, and how many turns are left.
#[derive(Clone, Copy, Debug, PartialEq, Eq)]
pub(crate) struct Turn {
    pub(crate) at: Option<u32>,
    pub(crate) last: Option<u32>,
    pub(crate) other: Option<u32>,
    pub(crate) left: u32,
}

impl Turn {
    /// One slot stays or goes to the other chain.
    fn place<C: Cells>(&mut self, c: &mut C, low: &Chain, high: &Chain, slot: u32, moves: bool)
        requires begun { C.begun c.old ≡ true }
        requires low { Lies low.now (C.size c.old) }
        requires high { Lies high.now (C.size c.old) }
        requires slots { high.now.slots ≡ low.now.slots }
        requires last { Below low.now.slots self.old.last }
        requires other { Below low.now.slots self.old.other }
        requires slot { slot < low.now.slots }
        ensures size { C.size c.new ≡ C.size c.old }
        ensures begun { C.begun c.new ≡ true }
        ensures rest { C.rest c.new ≡ C.rest c.old }
        ensures at { self.new.at ≡ self.old.at }
        ensures left { self.new.left ≡ self.old.left }
        ensures last { Below low.now.slots self.new.last }
        ensures other { Below low.now.slots self.new.other }
        ensures stays { self.new.last ≡ splits.either moves self.old.last (Some slot) }
        ensures goes { self.new.other ≡ splits.either moves (Some slot) self.old.other }
        ensures words { C.words c.new ≡ splits.either moves (splits.moved_one low.now high.now slot self.old.last self.old.other (C.words c.old)) (C.words c.old) }
    {
        if moves {
            low.unlink(c, self.last, slot);
            high.insert(c, self.other, slot);
            self.other = Some(slot);
        } else {
            self.last = Some(slot);
        }
    }

    /// The next slot stays or goes to the other chain, where there is one.
    pub(crate) fn step<C: Cells, K: Keys>(
        &mut self,
        c: &mut C,
        keys: &K,
        low: &Chain,
        high: &Chain,
        d: Doubling,
    ) -> bool
        requires begun { C.begun c.old ≡ true }
        requires lies { K.lies keys.now (C.size c.old) }
        requires keys { K.slots keys.now ≡ low.now.slots }
        requires low { Lies low.now (C.size c.old) }
        requires high { Lies high.now (C.size c.old) }
        requires slots { high.now.slots ≡ low.now.slots }
        requires at { Below low.now.slots self.old.at }
        requires last { Below low.now.slots self.old.last }
        requires other { Below low.now.slots self.old.other }
        requires is { IsDoubling d.half d.moved }
        requires pending { d.moved < d.half }
        ensures size { C.size c.new ≡ C.size c.old }
        ensures begun { C.begun c.new ≡ true }
        ensures rest { C.rest c.new ≡ C.rest c.old }
        ensures at { Below low.now.slots self.new.at }
        ensures last { Below low.now.slots self.new.last }
        ensures other { Below low.now.slots self.new.other }
        ensures left { result ≡ true → self.new.left < self.old.left }
        ensures more { result ≡ true → splits.split_from low.now high.now (splits.goes_at d.half d.moved (K.key keys.now)) self.new.left self.new.at self.new.last self.new.other (C.words c.new) ≡ splits.split_from low.now high.now (splits.goes_at d.half d.moved (K.key keys.now)) self.old.left self.old.at self.old.last self.old.other (C.words c.old) }
        ensures done { result ≡ false → C.words c.new ≡ splits.split_from low.now high.now (splits.goes_at d.half d.moved (K.key keys.now)) self.old.left self.old.at self.old.last self.old.other (C.words c.old) }
    {
        let Some(slot) = self.at else {
            return false;
        };
        if self.left == 0 {
            return false;
        }
        self.left -= 1;
        self.at = next_in(c, low, slot);
        let key = key_in(c, keys, slot);
        let moves = goes(d, key);
        self.place(c, low, high, slot, moves);
        true
    }
}
