//! The turns of the slots that states have.
ghost use Rattle.std.specs.Prelude.{◌≡◌, true, length};
ghost use Rattle.xf_sad.specs.Slots.{listed_in};
ghost use Rattle.xf_rows.specs.Layouts.{Fits};
ghost use Rattle.xf_ticking.specs.Entered.{HasEntered};
ghost use Rattle.xf_ticking.specs.Ready.{HoldsListed};
ghost use Rattle.xf_ticking.specs.Walks.{StatesStood};

use crate::cursor::{first_slot, next_slot};
use xf_cells::{Cells, Load};
use xf_parts::Parts;
use xf_rows::Layout;

/// Takes the turn of each slot that a state has, in the order of the list, before storing begins.
pub fn enter_all<D: Parts>(layout: &Layout, parts: &mut D)
    requires fits { Fits layout.now (D.size parts.old) }
    requires count { length (D.beside parts.old).values ≡ layout.now.states.slots }
    requires stood { StatesStood layout.now.states (D.words parts.old) }
    requires early { D.begun parts.old ≡ true → HoldsListed layout.now (D.words parts.old) (D.beside parts.old) }
    ensures size { D.size parts.new ≡ D.size parts.old }
    ensures begun { D.begun parts.new ≡ D.begun parts.old }
    ensures words { D.words parts.new ≡ D.words parts.old }
    ensures hidden { D.hidden parts.new ≡ D.hidden parts.old }
    ensures turns { HoldsListed layout.now (D.words parts.new) (D.beside parts.new) }
    ensures entered { HasEntered (listed_in layout.now.states (D.words parts.old)) (D.beside parts.old) (D.beside parts.new) }
{
    let mut at = first_slot(layout, parts);
    let mut left = layout.states.slots;
    'slots: while left > 0 {
        let Some(slot) = at else {
            return;
        };
        parts.enter(slot);
        at = next_slot(layout, parts, slot);
        left -= 1;
    }
}
