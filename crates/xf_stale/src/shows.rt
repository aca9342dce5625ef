//! What a listed slot of a state shows.
use xf_retired::Pools;

/// The meaning of image words with what the status and the id of a state's slot show.
pub trait Shows: Pools {
    ghost use Rattle.xf_stale.specs.StalePart.{AreShown};

    /// In an image that stands for what is told, a state's slot with status 1 lists the state with the id that stands there.
    ghost shows: { AreShown Self.good Self.lists Self.id_place Self.policies Self.states };
}
