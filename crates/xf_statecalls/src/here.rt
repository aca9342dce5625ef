//! What words that stand still tell. No word is stored, and no value is touched.
ghost use Rattle.std.specs.Prelude.{◌≡◌, ℕ, ◌<◌, ◌^◌, List, ◌∷◌, ◌++◌, Some, slice_index};
ghost use Rattle.xf_types.specs.declared.state.Sa.{Sa};
ghost use Rattle.xf_types.specs.Machine.{Shown};
ghost use Rattle.xf_types.specs.StateList.{has_id};
ghost use Rattle.xf_laws.specs.OwnLaws.{added_record};
ghost use Rattle.xf_chain.specs.Chains.{Below};
ghost use Rattle.xf_chain.specs.Lists.{first_of};
ghost use Rattle.xf_index.specs.Finds.{slot_found};
ghost use Rattle.xf_index.specs.Indexes.{slots_in};
ghost use Rattle.xf_sadidx.specs.Founds.{latest_in};
ghost use Rattle.xf_sadidx.specs.Layout.{record_at};
ghost use Rattle.xf_sadimage.specs.States.{StatesStand};
ghost use Rattle.xf_sadfind.specs.Replaced.{larval_in, in_the_way, sid_found};
ghost use Rattle.xf_rows.specs.Layouts.{Fits};

use crate::finding::{state_found, state_replaced};
use xf_cells::{Cells, Load, read};
use xf_parts::Parts;
use xf_rows::Layout;
use xf_sad::Sad;
use xf_sadfind::StateFinder;
use xf_types::{Sa, SaId, SaSpec};

/// The time, in seconds.
pub(crate) fn time_here<D: Parts>(layout: &Layout, parts: &mut D) -> u64
    requires { Fits layout.now (D.size parts.old) }
    ensures size { D.size parts.new ≡ D.size parts.old }
    ensures begun { D.begun parts.new ≡ D.begun parts.old }
    ensures words { D.words parts.new ≡ D.words parts.old }
    ensures hidden { D.hidden parts.new ≡ D.hidden parts.old }
    ensures beside { D.beside parts.new ≡ D.beside parts.old }
    ensures answer { result ≡ slice_index (D.words parts.old) layout.now.clock }
{
    read(parts, layout.clock)
}

/// The id of the next state.
pub(crate) fn sid_here<D: Parts>(layout: &Layout, parts: &mut D) -> u64
    requires { Fits layout.now (D.size parts.old) }
    ensures size { D.size parts.new ≡ D.size parts.old }
    ensures begun { D.begun parts.new ≡ D.begun parts.old }
    ensures words { D.words parts.new ≡ D.words parts.old }
    ensures hidden { D.hidden parts.new ≡ D.hidden parts.old }
    ensures beside { D.beside parts.new ≡ D.beside parts.old }
    ensures answer { (s : Shown) (es : List (ℕ × Sa)) → s.next_sid < 2 ^ 63 → StatesStand layout.now.states (D.words parts.old) s es → result ≡ s.next_sid }
{
    (Sad {
        area: layout.states,
    })
    .next_sid(parts)
}

/// The record that a new state gets.
pub(crate) fn new_here<D: Parts>(layout: &Layout, parts: &mut D, spec: &SaSpec, larval: bool) -> Sa
    requires { Fits layout.now (D.size parts.old) }
    ensures size { D.size parts.new ≡ D.size parts.old }
    ensures begun { D.begun parts.new ≡ D.begun parts.old }
    ensures words { D.words parts.new ≡ D.words parts.old }
    ensures hidden { D.hidden parts.new ≡ D.hidden parts.old }
    ensures beside { D.beside parts.new ≡ D.beside parts.old }
    ensures spec { result.spec ≡ spec.now }
    ensures added { result.added ≡ slice_index (D.words parts.old) layout.now.clock }
    ensures answer { (s : Shown) (es : List (ℕ × Sa)) → s.next_sid < 2 ^ 63 → slice_index (D.words parts.old) layout.now.clock ≡ s.time → StatesStand layout.now.states (D.words parts.old) s es → result ≡ added_record s (record { spec = spec.now; larval = larval }) }
{
    let sid = sid_here(layout, parts);
    let added = time_here(layout, parts);
    Sa {
        sid,
        added,
        larval,
        dying: false,
        spec: *spec,
    }
}

/// The slot of the state that an id names.
pub(crate) fn found_here<D: Parts>(layout: &Layout, parts: &mut D, id: &SaId) -> Option<u32>
    requires { Fits layout.now (D.size parts.old) }
    ensures size { D.size parts.new ≡ D.size parts.old }
    ensures begun { D.begun parts.new ≡ D.begun parts.old }
    ensures words { D.words parts.new ≡ D.words parts.old }
    ensures hidden { D.hidden parts.new ≡ D.hidden parts.old }
    ensures beside { D.beside parts.new ≡ D.beside parts.old }
    ensures slot { Below layout.now.states.slots result }
    ensures answer { (s : Shown) (es : List (ℕ × Sa)) → StatesStand layout.now.states (D.words parts.old) s es → result ≡ slot_found (latest_in (has_id id.now) es) }
{
    state_found(layout, parts, id)
}

/// The slot of the larval state that a new one takes the place of.
pub(crate) fn replaced_here<D: Parts>(layout: &Layout, parts: &mut D, spec: &SaSpec) -> Option<u32>
    requires { Fits layout.now (D.size parts.old) }
    ensures size { D.size parts.new ≡ D.size parts.old }
    ensures begun { D.begun parts.new ≡ D.begun parts.old }
    ensures words { D.words parts.new ≡ D.words parts.old }
    ensures hidden { D.hidden parts.new ≡ D.hidden parts.old }
    ensures beside { D.beside parts.new ≡ D.beside parts.old }
    ensures slot { Below layout.now.states.slots result }
    ensures answer { (s : Shown) (es : List (ℕ × Sa)) → StatesStand layout.now.states (D.words parts.old) s es → result ≡ slot_found (larval_in spec.now es) }
{
    state_replaced(layout, parts, spec)
}

/// The state in a slot.
pub(crate) fn state_here<D: Parts>(layout: &Layout, parts: &mut D, slot: u32) -> Option<Sa>
    requires fits { Fits layout.now (D.size parts.old) }
    requires slot { slot < layout.now.states.slots }
    ensures size { D.size parts.new ≡ D.size parts.old }
    ensures begun { D.begun parts.new ≡ D.begun parts.old }
    ensures words { D.words parts.new ≡ D.words parts.old }
    ensures hidden { D.hidden parts.new ≡ D.hidden parts.old }
    ensures beside { D.beside parts.new ≡ D.beside parts.old }
    ensures answer { result ≡ record_at layout.now.states (D.words parts.old) slot }
{
    (Sad {
        area: layout.states,
    })
    .state(parts, slot)
}

/// The slot of the first state.
pub(crate) fn first_here<D: Parts>(layout: &Layout, parts: &mut D) -> Option<u32>
    requires { Fits layout.now (D.size parts.old) }
    ensures size { D.size parts.new ≡ D.size parts.old }
    ensures begun { D.begun parts.new ≡ D.begun parts.old }
    ensures words { D.words parts.new ≡ D.words parts.old }
    ensures hidden { D.hidden parts.new ≡ D.hidden parts.old }
    ensures beside { D.beside parts.new ≡ D.beside parts.old }
    ensures slot { Below layout.now.states.slots result }
    ensures answer { (s : Shown) (es : List (ℕ × Sa)) → StatesStand layout.now.states (D.words parts.old) s es → result ≡ first_of (slots_in es) }
{
    (Sad {
        area: layout.states,
    })
    .first_slot(parts)
}

/// The slot of the state that was added after that of a slot.
pub(crate) fn next_here<D: Parts>(layout: &Layout, parts: &mut D, slot: u32) -> Option<u32>
    requires fits { Fits layout.now (D.size parts.old) }
    requires slot { slot < layout.now.states.slots }
    ensures size { D.size parts.new ≡ D.size parts.old }
    ensures begun { D.begun parts.new ≡ D.begun parts.old }
    ensures words { D.words parts.new ≡ D.words parts.old }
    ensures hidden { D.hidden parts.new ≡ D.hidden parts.old }
    ensures beside { D.beside parts.new ≡ D.beside parts.old }
    ensures next { Below layout.now.states.slots result }
    ensures answer { (s : Shown) (front back : List (ℕ × Sa)) (r : Sa) → StatesStand layout.now.states (D.words parts.old) s (front ++ ((slot, r) ∷ back)) → result ≡ first_of (slots_in back) }
{
    (Sad {
        area: layout.states,
    })
    .next_slot(parts, slot)
}

/// The state id of the state that a new one can't stand beside. The larval one in the slot `gone` is left out.
pub(crate) fn way_here<D: Parts>(
    layout: &Layout,
    parts: &mut D,
    spec: &SaSpec,
    gone: Option<u32>,
) -> Option<u64>
    requires fits { Fits layout.now (D.size parts.old) }
    requires gone { Below layout.now.states.slots gone }
    ensures size { D.size parts.new ≡ D.size parts.old }
    ensures begun { D.begun parts.new ≡ D.begun parts.old }
    ensures words { D.words parts.new ≡ D.words parts.old }
    ensures hidden { D.hidden parts.new ≡ D.hidden parts.old }
    ensures beside { D.beside parts.new ≡ D.beside parts.old }
    ensures answer { (s : Shown) (es : List (ℕ × Sa)) → StatesStand layout.now.states (D.words parts.old) s es → gone ≡ slot_found (larval_in spec.now es) → result ≡ sid_found (in_the_way s.states spec.now) }
{
    (StateFinder {
        area: layout.states,
    })
    .in_the_way(parts, spec, gone)
}
