//! Which slots are those of each list.
use xf_ownpart::Lists;

/// The meaning of image words with the slots of policies, which come first, and those of states.
pub trait Pools: Lists {
    ghost use Rattle.std.specs.Prelude.{ℕ, List, Option};
    ghost use Rattle.xf_retired.specs.Pools.{ArePools};

    /// How many slots of policies there are.
    ghost policies: { ℕ };

    /// How many slots of states there are.
    ghost states: { ℕ };

    /// The index of the policy that an image lists at a slot.
    ghost index_at: { List ℕ → ℕ → Option ℕ };

    /// In an image that stands for what is told, the statuses of listed slots are 1, each record has a slot of its own list, and the capacities are
    /// the numbers of slots.
    ghost pools: { ArePools Self.good Self.lists index_at policies states };
}
