ghost use Rattle.std.specs.Prelude.{◌≡◌, ℕ, ◌+◌, ◌*◌, ◌≤◌, List, Option, None};
ghost use Rattle.xf_cells.specs.Words.{Narrows};
ghost use Rattle.xf_chain.specs.Chains.{Lies, Below, slots_of};
ghost use Rattle.xf_chain.specs.Families.{last_while, is_other};

use crate::chain::Chain;
use crate::walk::Walk;
use xf_cells::Load;

impl Chain {
    /// The slot before a slot, or the last one where the chain doesn't pass that slot. It costs a walk up to there.
    pub fn before<L: Load>(&self, cells: &mut L, slot: u32) -> Option<u32>
        requires { Lies self.now (L.size cells.old) }
        ensures size { L.size cells.new ≡ L.size cells.old }
        ensures begun { L.begun cells.new ≡ L.begun cells.old }
        ensures rest { L.rest cells.new ≡ L.rest cells.old }
        ensures among { Narrows (L.agrees cells.old) (L.agrees cells.new) }
        ensures loads { L.loads cells.new ≤ L.loads cells.old + 2 + self.now.slots }
        ensures below { Below self.now.slots result }
        ensures answer { (image : List ℕ) → L.agrees cells.new image → result ≡ last_while (is_other slot) None (slots_of self.now image) }
    {
        let mut walk = Walk::start(self, cells);
        let mut last = None;
        'slots: while let Some(other) = walk.step(self, cells) {
            if other == slot {
                return last;
            }
            last = Some(other);
        }
        last
    }
}
