//! What image words list at the slots.
use xf_invariant::Means;

/// The meaning of image words with what they list at each slot.
pub trait Lists: Means {
    ghost use Rattle.std.specs.Prelude.{ℕ, List, Option};
    ghost use Rattle.xf_types.specs.declared.state.Sa.{Sa};
    ghost use Rattle.xf_ownpart.specs.Lists.{IsListing};

    /// What an image lists at a slot: a state's record and the time, or nothing.
    ghost lists: { List ℕ → ℕ → Option (Sa × ℕ) };

    /// An image that stands for what is told lists each of its states at one slot, and nothing else.
    ghost listing: { IsListing Self.good lists };
}
