//! The cursor over the states, in words that stand still.
ghost use Rattle.std.specs.Prelude.{◌≡◌, ℕ, ◌<◌, List, ◌∷◌, ◌++◌};
ghost use Rattle.xf_types.specs.declared.state.Sa.{Sa};
ghost use Rattle.xf_types.specs.Machine.{Shown};
ghost use Rattle.xf_chain.specs.Chains.{Below};
ghost use Rattle.xf_chain.specs.Lists.{first_of};
ghost use Rattle.xf_index.specs.Indexes.{slots_in};
ghost use Rattle.xf_sadimage.specs.States.{StatesStand};
ghost use Rattle.xf_rows.specs.Layouts.{Fits};

use xf_cells::{Cells, Load};
use xf_parts::Parts;
use xf_rows::Layout;
use xf_sad::Sad;

/// The slot of the first state.
pub(crate) fn first_slot<D: Parts>(layout: &Layout, parts: &mut D) -> Option<u32>
    requires { Fits layout.now (D.size parts.old) }
    ensures size { D.size parts.new ≡ D.size parts.old }
    ensures begun { D.begun parts.new ≡ D.begun parts.old }
    ensures rest { D.rest parts.new ≡ D.rest parts.old }
    ensures words { D.words parts.new ≡ D.words parts.old }
    ensures hidden { D.hidden parts.new ≡ D.hidden parts.old }
    ensures beside { D.beside parts.new ≡ D.beside parts.old }
    ensures below { Below layout.now.states.slots result }
    ensures answer { (s : Shown) (es : List (ℕ × Sa)) → StatesStand layout.now.states (D.words parts.old) s es → result ≡ first_of (slots_in es) }
{
    (Sad {
        area: layout.states,
    })
    .first_slot(parts)
}

/// The slot of the state that was added after that of a slot.
pub(crate) fn next_slot<D: Parts>(layout: &Layout, parts: &mut D, slot: u32) -> Option<u32>
    requires fits { Fits layout.now (D.size parts.old) }
    requires slot { slot < layout.now.states.slots }
    ensures size { D.size parts.new ≡ D.size parts.old }
    ensures begun { D.begun parts.new ≡ D.begun parts.old }
    ensures rest { D.rest parts.new ≡ D.rest parts.old }
    ensures words { D.words parts.new ≡ D.words parts.old }
    ensures hidden { D.hidden parts.new ≡ D.hidden parts.old }
    ensures beside { D.beside parts.new ≡ D.beside parts.old }
    ensures below { Below layout.now.states.slots result }
    ensures answer { (s : Shown) (front back : List (ℕ × Sa)) (r : Sa) → StatesStand layout.now.states (D.words parts.old) s (front ++ ((slot, r) ∷ back)) → result ≡ first_of (slots_in back) }
{
    (Sad {
        area: layout.states,
    })
    .next_slot(parts, slot)
}
