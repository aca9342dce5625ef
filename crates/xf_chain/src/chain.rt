ghost use Rattle.std.specs.Prelude.{◌≡◌, ℕ, ◌+◌, ◌*◌, ◌<◌, ◌≤◌, ◌^◌, Bool, true, List, Option, IfSome, slice_index, slice_set};
ghost use Rattle.std.specs.Prelude.{◌≢◌, ◌∷◌, ◌++◌};
ghost use Rattle.xf_cells.specs.Words.{next_count, Narrows};
ghost use Rattle.xf_chain.specs.Chains.{Lies, slot_of, place_of, from_of, first_in, next_in, inserted, unlinked, Below};
ghost use Rattle.xf_chain.specs.Lists.{Spread, last_of, Misses, IsChain};

use xf_cells::{Cells, Load};

/// A chain of slots. Its head names the first slot, the link of a slot the one after it. Such a word is 0 where there is none, else
/// the slot plus 1; a word above `slots` names none. So zeros are empty chains, and any words at all are read as some chain.
#[derive(Clone, Copy, Debug, PartialEq, Eq)]
pub struct Chain {
    /// The place of the head.
    pub head: u32,

    /// The place of the link of slot 0.
    pub link: u32,

    /// How far the links of two neighbouring slots lie apart.
    pub stride: u32,

    /// How many slots there are.
    pub slots: u32,
}

impl Chain {
    /// The slot that a word names.
    fn slot(&self, word: u64) -> Option<u32>
        ensures slot { result ≡ slot_of self.now.slots word }
        ensures below { IfSome result (λ slot. slot < self.now.slots) }
    {
        if word == 0 || word > u64::from(self.slots) {
            None
        } else {
            Some((word - 1) as u32)
        }
    }

    /// The place of a slot's link.
    fn place(&self, slot: u32) -> u32
        requires slot { slot < self.now.slots }
        requires fits { self.now.link + self.now.stride * self.now.slots < 2 ^ 32 }
        ensures { result ≡ place_of self.now slot }
    {
        self.link + self.stride * slot
    }

    /// The place of the word that names what comes after a slot, or at the front.
    fn from(&self, after: Option<u32>) -> u32
        requires after { Below self.now.slots after }
        requires fits { self.now.link + self.now.stride * self.now.slots < 2 ^ 32 }
        ensures { result ≡ from_of self.now after }
    {
        match after {
            None => self.head,
            Some(slot) => self.place(slot),
        }
    }

    /// The first slot. It costs one load.
    pub fn first<L: Load>(&self, l: &mut L) -> Option<u32>
        requires { Lies self.now (L.size l.old) }
        ensures size { L.size l.new ≡ L.size l.old }
        ensures begun { L.begun l.new ≡ L.begun l.old }
        ensures rest { L.rest l.new ≡ L.rest l.old }
        ensures loads { L.loads l.new ≡ next_count (L.loads l.old) }
        ensures among { Narrows (L.agrees l.old) (L.agrees l.new) }
        ensures below { Below self.now.slots result }
        ensures answer { (image : List ℕ) → L.agrees l.new image → result ≡ first_in self.now image }
    {
        let word = l.load(self.head);
        self.slot(word)
    }

    /// The slot after a slot. It costs one load.
    pub fn next<L: Load>(&self, l: &mut L, slot: u32) -> Option<u32>
        requires lies { Lies self.now (L.size l.old) }
        requires slot { slot < self.now.slots }
        ensures size { L.size l.new ≡ L.size l.old }
        ensures begun { L.begun l.new ≡ L.begun l.old }
        ensures rest { L.rest l.new ≡ L.rest l.old }
        ensures loads { L.loads l.new ≡ next_count (L.loads l.old) }
        ensures among { Narrows (L.agrees l.old) (L.agrees l.new) }
        ensures below { Below self.now.slots result }
        ensures answer { (image : List ℕ) → L.agrees l.new image → result ≡ next_in self.now image slot }
    {
        let word = l.load(self.place(slot));
        self.slot(word)
    }

    /// Puts a slot after another, or at the front. Two words are stored.
    pub fn insert<C: Cells>(&self, c: &mut C, after: Option<u32>, slot: u32)
        requires lies { Lies self.now (C.size c.old) }
        requires begun { C.begun c.old ≡ true }
        requires after { Below self.now.slots after }
        requires slot { slot < self.now.slots }
        ensures size { C.size c.new ≡ C.size c.old }
        ensures begun { C.begun c.new ≡ true }
        ensures rest { C.rest c.new ≡ C.rest c.old }
        ensures words { C.words c.new ≡ inserted self.now (C.words c.old) after slot }
        ensures chain { (front back : List ℕ) → Spread self.now → after ≡ last_of front → Misses slot (front ++ back) → IsChain self.now (C.words c.old) (front ++ back) → IsChain self.now (C.words c.new) (front ++ (slot ∷ back)) }
        ensures others { (place : ℕ) → place ≢ from_of self.now after → place ≢ place_of self.now slot → slice_index (C.words c.new) place ≡ slice_index (C.words c.old) place }
    {
        let from = self.from(after);
        let word = xf_cells::read(c, from);
        c.store(self.place(slot), word);
        c.store(from, u64::from(slot) + 1);
    }

    /// Takes out the slot after another, or at the front. One word is stored: the slot's own link stays as it was.
    pub fn unlink<C: Cells>(&self, c: &mut C, after: Option<u32>, slot: u32)
        requires lies { Lies self.now (C.size c.old) }
        requires begun { C.begun c.old ≡ true }
        requires after { Below self.now.slots after }
        requires slot { slot < self.now.slots }
        ensures size { C.size c.new ≡ C.size c.old }
        ensures begun { C.begun c.new ≡ true }
        ensures rest { C.rest c.new ≡ C.rest c.old }
        ensures words { C.words c.new ≡ unlinked self.now (C.words c.old) after slot }
        ensures chain { (front back : List ℕ) → Spread self.now → after ≡ last_of front → IsChain self.now (C.words c.old) (front ++ (slot ∷ back)) → IsChain self.now (C.words c.new) (front ++ back) }
        ensures others { (place : ℕ) → place ≢ from_of self.now after → slice_index (C.words c.new) place ≡ slice_index (C.words c.old) place }
    {
        let word = xf_cells::read(c, self.place(slot));
        c.store(self.from(after), word);
    }
}
