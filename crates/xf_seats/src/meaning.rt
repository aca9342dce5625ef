//! What image words, and the values beside them, mean for each number of slots.
use xf_types::Stands;

/// The meaning of image words and of values, by the numbers of policies' and of states' slots. A slot is numbered as the table does: the
/// policies' slots come first.
pub trait Meaning: Stands {
    ghost use Rattle.std.specs.Prelude.{◌≡◌, ℕ, List, Option};
    ghost use Rattle.xf_types.specs.declared.state.Sa.{Sa};
    ghost use Rattle.xf_types.specs.Machine.{Machine};
    ghost use Rattle.xf_types.specs.IsMachine.{IsShownPart};
    ghost use Rattle.xf_types.specs.Standing.{Standing};
    ghost use Rattle.xf_invariant.specs.Meaning.{Told};
    ghost use Rattle.xf_ownpart.specs.Lists.{IsListing};
    ghost use Rattle.xf_retired.specs.Pools.{ArePools};
    ghost use Rattle.xf_stale.specs.StalePart.{AreShown};

    /// In which bucket a state is.
    ghost bucket_of: { Sa → ℕ };

    /// Which image is good for what is told, with so many slots of policies and of states.
    ghost good: { ℕ → ℕ → List ℕ → Told → Type 0 };

    /// What an image lists at a slot: a state's record and the time, or nothing.
    ghost lists: { ℕ → ℕ → List ℕ → ℕ → Option (Sa × ℕ) };

    /// The index of the policy that an image lists at a slot.
    ghost index_at: { ℕ → ℕ → List ℕ → ℕ → Option ℕ };

    /// At which place the id of the state in a slot stands.
    ghost id_place: { ℕ → ℕ → ℕ → ℕ };

    /// The machine for which an image and the values of its slots stand.
    ghost machine: { ℕ → ℕ → List ℕ → List Standing → Machine };

    /// A good image lists each state of what is told at one slot, and nothing else.
    ghost listing: { (p s : ℕ) → IsListing (good p s) (lists p s) };

    /// Its listed slots have the status 1, and the capacities are the numbers of slots.
    ghost pools: { (p s : ℕ) → ArePools (good p s) (lists p s) (index_at p s) p s };

    /// A state's slot with the status 1 shows the id of its state.
    ghost shows: { (p s : ℕ) → AreShown (good p s) (lists p s) (id_place p s) p s };

    /// An image is good for one shown part alone.
    ghost certain: { (p s : ℕ) (image : List ℕ) (t u : Told) → IsShownPart t.shown → IsShownPart u.shown → good p s image t → good p s image u → t.shown ≡ u.shown };
}
