//! The values of slots whose states leave or come.
ghost use Rattle.std.specs.Prelude.{◌≡◌, ℕ, ◌<◌, Bool, true, length};
ghost use Rattle.xf_chain.specs.Chains.{Below};
ghost use Rattle.xf_image.specs.Frames.{Frame};
ghost use Rattle.xf_local.specs.View.{Dead};
ghost use Rattle.xf_rows.specs.Changes.{ended};
ghost use Rattle.xf_rows.specs.Values.{value_put};
ghost use Rattle.xf_sad.specs.Slots.{Where};
ghost use Rattle.xf_statecalls.specs.Windows.{IsWindowOf, value_of_new};

use xf_cells::{Cells, Load};
use xf_local::Local;
use xf_parts::Parts;
use xf_replay::Window;
use xf_types::Sa;

/// The value of a slot whose state left is dead from now on, and whoever owns the words is told.
pub(crate) fn end_value<D: Parts>(parts: &mut D, slot: u32)
    requires slot { slot < length (D.beside parts.old).values }
    requires held { (D.beside parts.old).held slot ≡ true }
    requires begun { D.begun parts.old ≡ true }
    ensures size { D.size parts.new ≡ D.size parts.old }
    ensures begun { D.begun parts.new ≡ true }
    ensures hidden { D.hidden parts.new ≡ D.hidden parts.old }
    ensures frame { Frame 0 (D.hidden parts.old) (D.words parts.old) (D.words parts.new) }
    ensures beside { D.beside parts.new ≡ value_put (D.beside parts.old) slot Dead }
{
    parts.put(slot, Local::dead());
    parts.state_freed(slot);
}

/// The same for the slot that is named, where one is.
pub(crate) fn end_if<D: Parts>(parts: &mut D, gone: Option<u32>)
    requires gone { Below (length (D.beside parts.old).values) gone }
    requires held { Where (λ slot. (D.beside parts.old).held slot ≡ true) gone }
    requires begun { D.begun parts.old ≡ true }
    ensures size { D.size parts.new ≡ D.size parts.old }
    ensures begun { D.begun parts.new ≡ true }
    ensures hidden { D.hidden parts.new ≡ D.hidden parts.old }
    ensures frame { Frame 0 (D.hidden parts.old) (D.words parts.old) (D.words parts.new) }
    ensures beside { D.beside parts.new ≡ ended (D.beside parts.old) gone }
{
    match gone {
        None => {}
        Some(slot) => end_value(parts, slot),
    }
}

/// The value of the state that left ends, where a slot is named, and that of a new state begins.
pub(crate) fn turn_values<D: Parts>(
    parts: &mut D,
    gone: Option<u32>,
    slot: u32,
    state: &Sa,
    window: Window,
)
    requires gone { Below (length (D.beside parts.old).values) gone }
    requires gone_held { Where (λ slot. (D.beside parts.old).held slot ≡ true) gone }
    requires slot { slot < length (D.beside parts.old).values }
    requires held { (D.beside parts.old).held slot ≡ true }
    requires begun { D.begun parts.old ≡ true }
    requires window { IsWindowOf window state.now.spec }
    ensures size { D.size parts.new ≡ D.size parts.old }
    ensures begun { D.begun parts.new ≡ true }
    ensures hidden { D.hidden parts.new ≡ D.hidden parts.old }
    ensures frame { Frame 0 (D.hidden parts.old) (D.words parts.old) (D.words parts.new) }
    ensures beside { D.beside parts.new ≡ value_put (ended (D.beside parts.old) gone) slot (value_of_new state.now) }
{
    end_if(parts, gone);
    parts.put(slot, Local::new(state, window, state.added));
}
