//! Words whose owner is told of the slots that policies leave.
ghost use Rattle.std.specs.Prelude.{◌≡◌, ℕ, true, refl};
ghost use Rattle.xf_image.specs.Frames.{Frame};

use xf_cells::{Cells, VecCells};

/// Words of which those before a place are the owner's own, and no call on policies uses them. The owner is told of each slot that a
/// policy left, and may note it there.
pub trait PolicySlots: Cells {
    /// The words before this place are the owner's.
    ghost hidden: { Self → ℕ };

    /// A policy left the slot.
    fn policy_freed(&mut self, slot: u32)
        requires begun { Self.begun self.old ≡ true }
        ensures size { Self.size self.new ≡ Self.size self.old }
        ensures begun { Self.begun self.new ≡ true }
        ensures rest { Self.rest self.new ≡ Self.rest self.old }
        ensures frame { Frame 0 (hidden self.old) (Self.words self.old) (Self.words self.new) };

    /// Where they end rests on what is beside the words alone.
    ghost kept: { (x y : Self) → Self.rest x ≡ Self.rest y → hidden x ≡ hidden y };
}

impl PolicySlots for VecCells {
    ghost hidden = { λ c. 0 };

    fn policy_freed(&mut self, _slot: u32) {}

    ghost kept = { λ x y same. refl };
}
