//! Laws of the definitions. No code calls these functions; proofs cite the lemmas.
ghost use Rattle.std.specs.Prelude.{ℕ, ◌≤◌, List};
ghost use Rattle.xf_types.specs.declared.policy.Policy.{Policy};
ghost use Rattle.xf_types.specs.declared.policy.PolicyKey.{PolicyKey};
ghost use Rattle.xf_types.specs.Machine.{Shown};
ghost use Rattle.xf_cells.specs.Pools.{IsFull};
ghost use Rattle.xf_cells.specs.Words.{zeros};
ghost use Rattle.xf_image.specs.declared.area.PolicyArea.{PolicyArea};
ghost use Rattle.xf_image.specs.Entries.{IsEntry};
ghost use Rattle.xf_image.specs.Readings.{listed_in};
ghost use Rattle.xf_types.specs.Steps.{empty_shown};
ghost use Rattle.xf_spd.specs.Changes.{IsAt};
ghost use Rattle.xf_listing.specs.Calls.{slot_named};
ghost use Rattle.xf_spd.specs.Slots.{PoolFits, Where};
ghost use Rattle.xf_inexact.specs.Whole.{SpdStands};

use crate::spd::Spd;
use xf_cells::Pool;

/// A pool that fits a list takes back the slot of each policy, also of the one that a key names. A new pool fits words that are 0.
pub fn pool_laws<P: Pool>(pool: &P)
    ensures entry { (a : PolicyArea) (image : List ℕ) (s : Shown) (es : List (ℕ × Policy)) (slot : ℕ) (p : Policy) → SpdStands a image s es → PoolFits (P.capacity pool.now) (P.taken pool.now) (P.gives pool.now) (P.takes pool.now) a.slots (listed_in a image) → IsEntry es slot p → P.takes pool.now slot }
    ensures named { (a : PolicyArea) (image : List ℕ) (s : Shown) (es : List (ℕ × Policy)) (key : PolicyKey) → SpdStands a image s es → PoolFits (P.capacity pool.now) (P.taken pool.now) (P.gives pool.now) (P.takes pool.now) a.slots (listed_in a image) → Where (P.takes pool.now) (slot_named a image key) }
    ensures begins { (a : PolicyArea) (n : ℕ) → IsFull a.slots (P.capacity pool.now) (P.taken pool.now) (P.gives pool.now) → PoolFits (P.capacity pool.now) (P.taken pool.now) (P.gives pool.now) (P.takes pool.now) a.slots (listed_in a (zeros n)) }
{}

/// What the clauses ask of a machine holds of the empty one, for which words that are 0 stand.
pub fn start_laws(spd: &Spd)
    ensures { (max_states : ℕ) → max_states ≤ 8192 → IsAt (empty_shown spd.now.area.slots max_states) 0 }
{}
