//! Single words of a record, which a walk chooses by.
ghost use Rattle.std.specs.Prelude.{◌≡◌, ℕ, ◌+◌, ◌<◌, ◌≤◌, ◌^◌, List};
ghost use Rattle.xf_cells.specs.Words.{Narrows};
ghost use Rattle.xf_records.specs.declared.policy.TheConstants.{POLICY_WORDS};
ghost use Rattle.xf_records.specs.declared.state.TheConstants.{STATE_WORDS};
ghost use Rattle.xf_asked.specs.Fields as field;

use xf_cells::Load;
use xf_records::{POLICY_WORDS, STATE_WORDS, flag_in, small_in};

/// The priority of the policy at a place.
pub fn priority_at<L: Load>(l: &mut L, at: u32) -> u32
    requires lies { at + POLICY_WORDS ≤ L.size l.old }
    requires fits { at + POLICY_WORDS < 2 ^ 32 }
    ensures size { L.size l.new ≡ L.size l.old }
    ensures begun { L.begun l.new ≡ L.begun l.old }
    ensures rest { L.rest l.new ≡ L.rest l.old }
    ensures among { Narrows (L.agrees l.old) (L.agrees l.new) }
    ensures loads { L.loads l.new ≤ L.loads l.old + 1 }
    ensures answer { (image : List ℕ) → L.agrees l.new image → result ≡ field.priority_at image at }
{
    small_in(l.load(at + 15))
}

/// The number of the policy at a place.
pub fn number_at<L: Load>(l: &mut L, at: u32) -> u64
    requires lies { at + POLICY_WORDS ≤ L.size l.old }
    requires fits { at + POLICY_WORDS < 2 ^ 32 }
    ensures size { L.size l.new ≡ L.size l.old }
    ensures begun { L.begun l.new ≡ L.begun l.old }
    ensures rest { L.rest l.new ≡ L.rest l.old }
    ensures among { Narrows (L.agrees l.old) (L.agrees l.new) }
    ensures loads { L.loads l.new ≤ L.loads l.old + 1 }
    ensures answer { (image : List ℕ) → L.agrees l.new image → result ≡ field.number_at image at }
{
    l.load(at + 16)
}

/// The state id of the state at a place.
pub fn sid_at<L: Load>(l: &mut L, at: u32) -> u64
    requires lies { at + STATE_WORDS ≤ L.size l.old }
    requires fits { at + STATE_WORDS < 2 ^ 32 }
    ensures size { L.size l.new ≡ L.size l.old }
    ensures begun { L.begun l.new ≡ L.begun l.old }
    ensures rest { L.rest l.new ≡ L.rest l.old }
    ensures among { Narrows (L.agrees l.old) (L.agrees l.new) }
    ensures loads { L.loads l.new ≤ L.loads l.old + 1 }
    ensures answer { (image : List ℕ) → L.agrees l.new image → result ≡ field.sid_at image at }
{
    l.load(at + 16)
}

/// When the state at a place was added, in seconds.
pub fn added_at<L: Load>(l: &mut L, at: u32) -> u64
    requires lies { at + STATE_WORDS ≤ L.size l.old }
    requires fits { at + STATE_WORDS < 2 ^ 32 }
    ensures size { L.size l.new ≡ L.size l.old }
    ensures begun { L.begun l.new ≡ L.begun l.old }
    ensures rest { L.rest l.new ≡ L.rest l.old }
    ensures among { Narrows (L.agrees l.old) (L.agrees l.new) }
    ensures loads { L.loads l.new ≤ L.loads l.old + 1 }
    ensures answer { (image : List ℕ) → L.agrees l.new image → result ≡ field.added_at image at }
{
    l.load(at + 17)
}

/// Whether the state at a place is larval.
pub fn larval_at<L: Load>(l: &mut L, at: u32) -> bool
    requires lies { at + STATE_WORDS ≤ L.size l.old }
    requires fits { at + STATE_WORDS < 2 ^ 32 }
    ensures size { L.size l.new ≡ L.size l.old }
    ensures begun { L.begun l.new ≡ L.begun l.old }
    ensures rest { L.rest l.new ≡ L.rest l.old }
    ensures among { Narrows (L.agrees l.old) (L.agrees l.new) }
    ensures loads { L.loads l.new ≤ L.loads l.old + 1 }
    ensures answer { (image : List ℕ) → L.agrees l.new image → result ≡ field.larval_at image at }
{
    flag_in(l.load(at + 14))
}

/// Whether the state at a place is dying.
pub fn dying_at<L: Load>(l: &mut L, at: u32) -> bool
    requires lies { at + STATE_WORDS ≤ L.size l.old }
    requires fits { at + STATE_WORDS < 2 ^ 32 }
    ensures size { L.size l.new ≡ L.size l.old }
    ensures begun { L.begun l.new ≡ L.begun l.old }
    ensures rest { L.rest l.new ≡ L.rest l.old }
    ensures among { Narrows (L.agrees l.old) (L.agrees l.new) }
    ensures loads { L.loads l.new ≤ L.loads l.old + 1 }
    ensures answer { (image : List ℕ) → L.agrees l.new image → result ≡ field.dying_at image at }
{
    flag_in(l.load(at + 15))
}
