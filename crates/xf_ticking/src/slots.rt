//! Words and values whose owner is told of the slots of both kinds that come free.
ghost use Rattle.std.specs.Prelude.{◌≡◌};

use xf_cells::{Cells, Load};
use xf_parts::Parts;
use xf_policies::PolicySlots;

/// Words with values, of which the owner's own words are the same for policies and for states.
pub trait AllParts: Parts + PolicySlots {
    ghost same_hidden: { (x : Self) → Self.PolicySlots.hidden x ≡ Self.Parts.hidden x };
}
