ghost use Rattle.std.specs.Prelude.{◌≡◌, ℕ, ◌+◌, ◌*◌, ◌<◌, ◌≤◌, List, Option, IsSome};
ghost use Rattle.xf_cells.specs.Words.{next_count, Narrows};
ghost use Rattle.xf_chain.specs.Chains.{Lies, Below, slots_of, slots_from, Steps};

use crate::chain::Chain;
use xf_cells::Load;

/// A walk along a chain. It ends after as many turns as there are slots, so that it ends on any words.
#[derive(Clone, Copy, Debug, PartialEq, Eq)]
pub struct Walk {
    /// The slot that comes next.
    pub at: Option<u32>,

    /// How many turns are left.
    pub left: u32,
}

impl Walk {
    /// A walk from the chain's front. It costs one load.
    pub fn start<L: Load>(chain: &Chain, l: &mut L) -> Walk
        requires { Lies chain.now (L.size l.old) }
        ensures size { L.size l.new ≡ L.size l.old }
        ensures begun { L.begun l.new ≡ L.begun l.old }
        ensures rest { L.rest l.new ≡ L.rest l.old }
        ensures loads { L.loads l.new ≤ L.loads l.old + 1 }
        ensures among { Narrows (L.agrees l.old) (L.agrees l.new) }
        ensures below { Below chain.now.slots result.at }
        ensures left { result.left ≡ chain.now.slots }
        ensures ahead { (image : List ℕ) → L.agrees l.new image → slots_from chain.now image result.left result.at ≡ slots_of chain.now image }
    {
        let at = chain.first(l);
        Walk {
            at,
            left: chain.slots,
        }
    }

    /// The slot that comes next, where one comes. The load that finds the one after it is made at once.
    pub fn step<L: Load>(&mut self, chain: &Chain, l: &mut L) -> Option<u32>
        requires lies { Lies chain.now (L.size l.old) }
        requires below { Below chain.now.slots self.old.at }
        ensures size { L.size l.new ≡ L.size l.old }
        ensures begun { L.begun l.new ≡ L.begun l.old }
        ensures rest { L.rest l.new ≡ L.rest l.old }
        ensures loads { L.loads l.new ≤ L.loads l.old + 1 }
        ensures among { Narrows (L.agrees l.old) (L.agrees l.new) }
        ensures below { Below chain.now.slots self.new.at }
        ensures slot { Below chain.now.slots result }
        ensures left { IsSome result → self.new.left < self.old.left }
        ensures ahead { (image : List ℕ) → L.agrees l.new image → Steps result (slots_from chain.now image self.old.left self.old.at) (slots_from chain.now image self.new.left self.new.at) }
    {
        let slot = self.at?;
        if self.left == 0 {
            return None;
        }
        self.left -= 1;
        self.at = chain.next(l, slot);
        Some(slot)
    }
}
