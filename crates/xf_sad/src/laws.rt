//! Laws of the definitions. No code calls these functions; proofs cite the lemmas.
ghost use Rattle.std.specs.Prelude.{◌≡◌, ℕ, ◌≤◌, List};
ghost use Rattle.xf_types.specs.declared.call.Reply.{Reply};
ghost use Rattle.xf_types.specs.declared.state.Sa.{Sa};
ghost use Rattle.xf_types.specs.declared.state.SaId.{SaId};
ghost use Rattle.xf_types.specs.declared.state.SaSpec.{SaSpec};
ghost use Rattle.xf_types.specs.Machine.{Shown};
ghost use Rattle.xf_types.specs.Steps.{empty_shown};
ghost use Rattle.xf_cells.specs.Pools.{IsFull};
ghost use Rattle.xf_cells.specs.Words.{zeros};
ghost use Rattle.xf_sadidx.specs.declared.area.StateArea.{StateArea};
ghost use Rattle.xf_sadimage.specs.States.{StatesStand};
ghost use Rattle.xf_sad.specs.Changes.{IsAt};
ghost use Rattle.xf_sad.specs.declared.faults.SadFault.{SadFault};
ghost use Rattle.xf_sad.specs.Replies.{FaultIs, fault_reply};
ghost use Rattle.xf_sad.specs.Lookups.{replaced_in, named_in};
ghost use Rattle.xf_sad.specs.Slots.{PoolFits, IsListed, Where, listed_in};

use crate::sad::Sad;
use xf_cells::Pool;

/// A pool that fits a list takes back the slot of each state, also of the one that a new state takes the place of, and of the one that an id names. A new
/// pool fits words that are 0.
pub fn pool_laws<P: Pool>(pool: &P)
    ensures listed { (a : StateArea) (image : List ℕ) (s : Shown) (es : List (ℕ × Sa)) (slot : ℕ) → StatesStand a image s es → PoolFits (P.capacity pool.now) (P.taken pool.now) (P.gives pool.now) (P.takes pool.now) a.slots (listed_in a image) → IsListed es slot → P.takes pool.now slot }
    ensures replaced { (a : StateArea) (image : List ℕ) (s : Shown) (es : List (ℕ × Sa)) (spec : SaSpec) → StatesStand a image s es → PoolFits (P.capacity pool.now) (P.taken pool.now) (P.gives pool.now) (P.takes pool.now) a.slots (listed_in a image) → Where (P.takes pool.now) (replaced_in a image spec) }
    ensures named { (a : StateArea) (image : List ℕ) (s : Shown) (es : List (ℕ × Sa)) (id : SaId) → StatesStand a image s es → PoolFits (P.capacity pool.now) (P.taken pool.now) (P.gives pool.now) (P.takes pool.now) a.slots (listed_in a image) → Where (P.takes pool.now) (named_in a image id) }
    ensures begins { (a : StateArea) (n : ℕ) → IsFull a.slots (P.capacity pool.now) (P.taken pool.now) (P.gives pool.now) → PoolFits (P.capacity pool.now) (P.taken pool.now) (P.gives pool.now) (P.takes pool.now) a.slots (listed_in a (zeros n)) }
{}

/// What the clauses ask of a machine holds of the empty one, for which words that are 0 stand.
pub fn start_laws(sad: &Sad)
    ensures { (max_policies : ℕ) → max_policies ≤ 4096 → IsAt (empty_shown max_policies sad.now.area.slots) 0 }
{}

/// Where no slot waits, why a call was refused is the machine's reply.
pub fn reply_laws()
    ensures { (held : ℕ) (s : Shown) (rule : Shown → Reply) (fault : SadFault) → held ≡ 0 → FaultIs held s rule fault → fault_reply fault ≡ rule s }
{}
