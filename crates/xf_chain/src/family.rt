ghost use Rattle.std.specs.Prelude.{◌≡◌, ℕ, ◌<◌, true, List, Option};
ghost use Rattle.xf_chain.specs.Chains.{Lies, Below};
ghost use Rattle.xf_chain.specs.Families.{chain_at, Lays, IsOf, put_in, taken_out, emptied};

use crate::chain::Chain;
use xf_cells::Cells;

/// Chains that share their links, so that a slot stands in one of them at most. The heads lie in a row, and so do the links.
#[derive(Clone, Copy, Debug, PartialEq, Eq)]
pub struct Family {
    /// The place of the head of chain 0.
    pub heads: u32,

    /// How many chains there are.
    pub count: u32,

    /// The place of the link of slot 0.
    pub links: u32,

    /// How many slots there are.
    pub slots: u32,
}

impl Family {
    /// The chain with a number.
    pub fn chain(&self, number: u32, size: u32) -> Chain
        requires lays { Lays self.now size }
        requires number { number < self.now.count }
        ensures chain { result ≡ chain_at self.now number }
        ensures lies { Lies result size }
    {
        Chain {
            head: self.heads + number,
            link: self.links,
            stride: 1,
            slots: self.slots,
        }
    }

    /// Puts a slot into the chain with a number, after another slot or at the front; where there is no number, into none.
    pub fn insert<C: Cells>(
        &self,
        cells: &mut C,
        number: Option<u32>,
        after: Option<u32>,
        slot: u32,
    )
        requires lays { Lays self.now (C.size cells.old) }
        requires begun { C.begun cells.old ≡ true }
        requires number { IsOf self.now number }
        requires after { Below self.now.slots after }
        requires slot { slot < self.now.slots }
        ensures size { C.size cells.new ≡ C.size cells.old }
        ensures begun { C.begun cells.new ≡ true }
        ensures rest { C.rest cells.new ≡ C.rest cells.old }
        ensures words { C.words cells.new ≡ put_in self.now (C.words cells.old) number after slot }
    {
        if let Some(number) = number {
            let size = cells.size();
            self.chain(number, size).insert(cells, after, slot);
        }
    }

    /// Takes a slot out of the chain with a number, after another slot or at the front; where there is no number, out of none.
    pub fn remove<C: Cells>(
        &self,
        cells: &mut C,
        number: Option<u32>,
        after: Option<u32>,
        slot: u32,
    )
        requires lays { Lays self.now (C.size cells.old) }
        requires begun { C.begun cells.old ≡ true }
        requires number { IsOf self.now number }
        requires after { Below self.now.slots after }
        requires slot { slot < self.now.slots }
        ensures size { C.size cells.new ≡ C.size cells.old }
        ensures begun { C.begun cells.new ≡ true }
        ensures rest { C.rest cells.new ≡ C.rest cells.old }
        ensures words { C.words cells.new ≡ taken_out self.now (C.words cells.old) number after slot }
    {
        if let Some(number) = number {
            let size = cells.size();
            self.chain(number, size).unlink(cells, after, slot);
        }
    }

    /// Empties all chains. The links stay as they were.
    #[tactic(auto, using(crate::proofs::Emptied::emptied_step))]
    pub fn clear<C: Cells>(&self, cells: &mut C)
        requires lays { Lays self.now (C.size cells.old) }
        requires begun { C.begun cells.old ≡ true }
        ensures size { C.size cells.new ≡ C.size cells.old }
        ensures begun { C.begun cells.new ≡ true }
        ensures rest { C.rest cells.new ≡ C.rest cells.old }
        ensures words { C.words cells.new ≡ emptied self.now.heads self.now.count (C.words cells.old) }
    {
        let mut head = self.heads;
        let mut left = self.count;
        'heads: while left > 0 {
            cells.store(head, 0);
            head += 1;
            left -= 1;
        }
    }
}
