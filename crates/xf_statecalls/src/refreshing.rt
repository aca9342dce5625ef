//! A state in use is refreshed: its record and its value have the limits of a request.
ghost use Rattle.std.specs.Prelude.{◌≡◌, ◌≢◌, ℕ, ◌<◌, Bool, true, false, List, ◌∷◌, ◌++◌, Some, length};
ghost use Rattle.xf_types.specs.declared.call.Call.TheVariants.{StateUpdate};
ghost use Rattle.xf_types.specs.declared.state.Sa.{Sa};
ghost use Rattle.xf_types.specs.Codes.{is_refusal_of};
ghost use Rattle.xf_types.specs.History.{is_contended};
ghost use Rattle.xf_types.specs.Machine.{Machine, Shown};
ghost use Rattle.xf_types.specs.StateList.{has_id, id_of};
ghost use Rattle.xf_types.specs.StateRules.{refreshed_record};
ghost use Rattle.xf_image.specs.Frames.{Frame};
ghost use Rattle.xf_index.specs.Finds.{slot_found};
ghost use Rattle.xf_index.specs.Indexes.{records_in};
ghost use Rattle.xf_sadidx.specs.Founds.{latest_in};
ghost use Rattle.xf_sadidx.specs.Layout.{end_of, record_at};
ghost use Rattle.xf_sadimage.specs.States.{StatesStand};
ghost use Rattle.xf_sadlist.specs.Listed.{with_states};
ghost use Rattle.xf_sad.specs.Places.{KeepsPlaces};
ghost use Rattle.xf_sad.specs.Slots.{listed_in};
ghost use Rattle.xf_local.specs.View.{MayHave, renewed};
ghost use Rattle.xf_rows.specs.Layouts.{Fits};
ghost use Rattle.xf_rows.specs.Replies.{Answers};
ghost use Rattle.xf_rows.specs.Stands.{Stands};
ghost use Rattle.xf_rows.specs.Values.{at, value_put};
ghost use Rattle.xf_statecalls.specs.Left.{Occupied};
ghost use Rattle.xf_statecalls.specs.Ready.{Stood, LeavesOthers};

use crate::here::state_here;
use xf_cells::{Cells, Load};
use xf_parts::Parts;
use xf_rows::Layout;
use xf_sad::Sad;
use xf_types::{Reply, Sa, SaSpec};

/// A state with the limits of a request, and with its selector where it has one.
fn refreshed(state: &Sa, spec: &SaSpec) -> Sa
    ensures { result ≡ refreshed_record spec.now state.now }
{
    let mut fresh = *state;
    fresh.refresh(spec);
    fresh
}

/// Refreshes the words of the state in a slot. No value is touched.
fn refresh_here<D: Parts>(layout: &Layout, parts: &mut D, slot: u32, spec: &SaSpec)
    requires fits { Fits layout.now (D.size parts.old) }
    requires slot { slot < layout.now.states.slots }
    requires occupied { Occupied layout.now (D.words parts.old) (D.beside parts.old) slot }
    ensures size { D.size parts.new ≡ D.size parts.old }
    ensures begun { D.begun parts.new ≡ true }
    ensures hidden { D.hidden parts.new ≡ D.hidden parts.old }
    ensures beside { D.beside parts.new ≡ D.beside parts.old }
    ensures frame { Frame layout.now.states.base (end_of layout.now.states) (D.words parts.old) (D.words parts.new) }
    ensures stands { (s : Shown) (front back : List (ℕ × Sa)) (r : Sa) → StatesStand layout.now.states (D.words parts.old) s (front ++ ((slot, r) ∷ back)) → StatesStand layout.now.states (D.words parts.new) (with_states s (records_in (front ++ ((slot, refreshed_record spec.now r) ∷ back)))) (front ++ ((slot, refreshed_record spec.now r) ∷ back)) }
{
    (Sad {
        area: layout.states,
    })
    .refresh(parts, slot, spec);
}

/// Replaces the record in the value of a slot.
fn renew<D: Parts>(parts: &mut D, slot: u32, state: &Sa)
    requires slot { slot < length (D.beside parts.old).values }
    requires held { (D.beside parts.old).held slot ≡ true }
    requires record_ { MayHave (at (D.beside parts.old) slot) state.now }
    ensures size { D.size parts.new ≡ D.size parts.old }
    ensures begun { D.begun parts.new ≡ D.begun parts.old }
    ensures words { D.words parts.new ≡ D.words parts.old }
    ensures hidden { D.hidden parts.new ≡ D.hidden parts.old }
    ensures beside { D.beside parts.new ≡ value_put (D.beside parts.old) slot (renewed state.now (at (D.beside parts.old) slot)) }
{
    let mut value = parts.take(slot);
    value.renew(state);
    parts.put(slot, value);
}

/// Refreshes the state in use in a slot, which is the one that the request's id names and whose turn is held. It takes no memory and no slot.
pub fn state_refresh_ready<D: Parts>(
    layout: &Layout,
    parts: &mut D,
    spec: &SaSpec,
    slot: u32,
) -> Reply
    requires fits { Fits layout.now (D.size parts.old) }
    requires stands { Stood layout.now (D.words parts.old) (D.beside parts.old) }
    requires slot { slot < layout.now.states.slots }
    requires held { (D.beside parts.old).held slot ≡ true }
    requires found { (s : Shown) (es : List (ℕ × Sa)) → StatesStand layout.now.states (D.words parts.old) s es → Some slot ≡ slot_found (latest_in (has_id (id_of spec.now)) es) }
    requires used { (r : Sa) → record_at layout.now.states (D.words parts.old) slot ≡ Some r → r.larval ≡ false }
    ensures size { D.size parts.new ≡ D.size parts.old }
    ensures begun { D.begun parts.new ≡ true }
    ensures hidden { D.hidden parts.new ≡ D.hidden parts.old }
    ensures others { LeavesOthers layout.now (D.hidden parts.old) (D.words parts.old) (D.words parts.new) (D.beside parts.old) (D.beside parts.new) }
    ensures done { is_refusal_of result ≡ false }
    ensures settled { is_contended result ≡ false }
    ensures places { KeepsPlaces layout.now.states (D.beside parts.old).held (D.words parts.old) (D.words parts.new) }
    ensures slots { listed_in layout.now.states (D.words parts.new) ≡ listed_in layout.now.states (D.words parts.old) }
    ensures answer { (m : Machine) → Stands layout.now (D.words parts.old) (D.beside parts.old) m → Answers layout.now (D.words parts.new) (D.beside parts.new) m (StateUpdate spec.now) result }
{
    match state_here(layout, parts, slot) {
        None => unreachable!(),
        Some(state) => {
            let fresh = refreshed(&state, spec);
            refresh_here(layout, parts, slot, spec);
            renew(parts, slot, &fresh);
            Reply::DoneSid(state.sid)
        }
    }
}
