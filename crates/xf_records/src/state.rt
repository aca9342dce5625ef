//! States, each as a record of words from a place on. The words are laid out in specs/States.antt.
ghost use Rattle.std.specs.Prelude.{◌≡◌, ℕ, ◌+◌, ◌<◌, ◌≤◌, ◌^◌, List, Option, Some, IfSome, IsNone, Bool, true, slice_index, slice_set};
ghost use Rattle.xf_types.specs.declared.state.Sa.{Sa};
ghost use Rattle.xf_cells.specs.Words.{Narrows};
ghost use Rattle.xf_records.specs.Blocks.{stored, Stands};
ghost use Rattle.xf_records.specs.declared.state.TheConstants.{STATE_WORDS};
ghost use Rattle.xf_records.specs.States as record_of;

use crate::block::{load_all, same_words, store_all};
use crate::state_fields::{state_of, state_words};
use xf_cells::{Cells, Load};
use xf_types::Sa;

/// How many words a state's record takes.
pub const STATE_WORDS: u32 = 46;

/// The state that stands at a place.
fn state_at<L: Load>(l: &mut L, at: u32) -> Option<Sa>
    requires lies { at + STATE_WORDS ≤ L.size l.old }
    requires fits { at + STATE_WORDS < 2 ^ 32 }
    ensures size { L.size l.new ≡ L.size l.old }
    ensures begun { L.begun l.new ≡ L.begun l.old }
    ensures rest { L.rest l.new ≡ L.rest l.old }
    ensures among { Narrows (L.agrees l.old) (L.agrees l.new) }
    ensures loads { L.loads l.new ≤ L.loads l.old + STATE_WORDS }
    ensures answer { (image : List ℕ) → L.agrees l.new image → result ≡ record_of.state_at image at }
{
    let mut words = [0; 46];
    load_all(l, at, &mut words);
    let state = state_of(&words);
    if same_words(&state_words(&state), &words) {
        Some(state)
    } else {
        None
    }
}

/// The state that stands at a place. None where the words there are no state's.
pub fn get_state<L: Load>(l: &mut L, at: u32) -> Option<Sa>
    requires lies { at + STATE_WORDS ≤ L.size l.old }
    requires fits { at + STATE_WORDS < 2 ^ 32 }
    ensures size { L.size l.new ≡ L.size l.old }
    ensures begun { L.begun l.new ≡ L.begun l.old }
    ensures rest { L.rest l.new ≡ L.rest l.old }
    ensures among { Narrows (L.agrees l.old) (L.agrees l.new) }
    ensures loads { L.loads l.new ≤ L.loads l.old + STATE_WORDS }
    ensures some { (image : List ℕ) → L.agrees l.new image → IfSome result (λ s. Stands image at (record_of.state_words s)) }
    ensures none { (image : List ℕ) → L.agrees l.new image → IsNone result → (s : Sa) → record_of.StateFits s → Stands image at (record_of.state_words s) → ⊥ }
    ensures answer { (image : List ℕ) → L.agrees l.new image → result ≡ record_of.state_at image at }
{
    state_at(l, at)
}

/// Puts a state at a place.
pub fn put_state<C: Cells>(c: &mut C, at: u32, state: &Sa)
    requires begun { C.begun c.old ≡ true }
    requires lies { at + STATE_WORDS ≤ C.size c.old }
    requires fits { at + STATE_WORDS < 2 ^ 32 }
    ensures size { C.size c.new ≡ C.size c.old }
    ensures begun { C.begun c.new ≡ true }
    ensures rest { C.rest c.new ≡ C.rest c.old }
    ensures loads { C.loads c.new ≡ C.loads c.old }
    ensures words { C.words c.new ≡ stored (C.words c.old) at (record_of.state_words state.now) }
    ensures below { (q : ℕ) → q < at → slice_index (C.words c.new) q ≡ slice_index (C.words c.old) q }
    ensures above { (q : ℕ) → at + STATE_WORDS ≤ q → slice_index (C.words c.new) q ≡ slice_index (C.words c.old) q }
    ensures fits { record_of.StateFits state.now }
    ensures back { record_of.state_at (C.words c.new) at ≡ Some state.now }
{
    store_all(c, at, &state_words(state));
}

/// Sets the dying flag of the state at a place, and changes nothing else.
pub fn put_dying<C: Cells>(c: &mut C, at: u32)
    requires begun { C.begun c.old ≡ true }
    requires lies { at + STATE_WORDS ≤ C.size c.old }
    requires fits { at + STATE_WORDS < 2 ^ 32 }
    ensures size { C.size c.new ≡ C.size c.old }
    ensures begun { C.begun c.new ≡ true }
    ensures rest { C.rest c.new ≡ C.rest c.old }
    ensures loads { C.loads c.new ≡ C.loads c.old }
    ensures words { C.words c.new ≡ slice_set (C.words c.old) (at + 15) 1 }
    ensures record_there { (s : Sa) → record_of.state_at (C.words c.old) at ≡ Some s → record_of.state_at (C.words c.new) at ≡ Some (record_of.dying_now s) }
{
    c.store(at + 15, 1);
}
