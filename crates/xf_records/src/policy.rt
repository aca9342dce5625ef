//! Policies, each as a record of words from a place on. The words are laid out in specs/Policies.antt.
ghost use Rattle.std.specs.Prelude.{◌≡◌, ℕ, ◌+◌, ◌*◌, ◌<◌, ◌≤◌, ◌^◌, List, Option, Some, IfSome, IsNone, Bool, true, length, slice_index, slice_set};
ghost use Rattle.xf_types.specs.declared.policy.Policy.{Policy};
ghost use Rattle.xf_cells.specs.Words.{Narrows};
ghost use Rattle.xf_records.specs.declared.policy.TheConstants.{POLICY_WORDS};
ghost use Rattle.xf_records.specs.Blocks.{stored, Stands};
ghost use Rattle.xf_records.specs.Policies as record_of;

use crate::block::{load_all, store_all};
use crate::policy_fields::{checked, plain_words};
use crate::templates::{get_counted, put_templates};
use xf_cells::{Cells, Load};
use xf_types::Policy;

/// How many words a policy's record takes, with all six templates.
pub const POLICY_WORDS: u32 = 101;

/// The policy that stands at a place.
fn policy_at<L: Load>(l: &mut L, at: u32) -> Option<Policy>
    requires lies { at + POLICY_WORDS ≤ L.size l.old }
    requires fits { at + POLICY_WORDS < 2 ^ 32 }
    ensures size { L.size l.new ≡ L.size l.old }
    ensures begun { L.begun l.new ≡ L.begun l.old }
    ensures rest { L.rest l.new ≡ L.rest l.old }
    ensures among { Narrows (L.agrees l.old) (L.agrees l.new) }
    ensures loads { L.loads l.new ≤ L.loads l.old + POLICY_WORDS }
    ensures read { IfSome result (λ p. L.loads l.new ≤ L.loads l.old + 35 + 11 * length p.spec.templates) }
    ensures answer { (image : List ℕ) → L.agrees l.new image → result ≡ record_of.policy_at image at }
{
    let mut words = [0; 34];
    load_all(l, at, &mut words);
    let count = l.load(at + 34);
    let templates = get_counted(l, at + 35, count)?;
    checked(&words, templates)
}

/// The policy that stands at a place. None where the words there are no policy's.
pub fn get_policy<L: Load>(l: &mut L, at: u32) -> Option<Policy>
    requires lies { at + POLICY_WORDS ≤ L.size l.old }
    requires fits { at + POLICY_WORDS < 2 ^ 32 }
    ensures size { L.size l.new ≡ L.size l.old }
    ensures begun { L.begun l.new ≡ L.begun l.old }
    ensures rest { L.rest l.new ≡ L.rest l.old }
    ensures among { Narrows (L.agrees l.old) (L.agrees l.new) }
    ensures loads { L.loads l.new ≤ L.loads l.old + POLICY_WORDS }
    ensures read { IfSome result (λ p. L.loads l.new ≤ L.loads l.old + 35 + 11 * length p.spec.templates) }
    ensures some { (image : List ℕ) → L.agrees l.new image → IfSome result (λ p. Stands image at (record_of.policy_words p)) }
    ensures none { (image : List ℕ) → L.agrees l.new image → IsNone result → (p : Policy) → record_of.PolicyFits p → Stands image at (record_of.policy_words p) → ⊥ }
    ensures answer { (image : List ℕ) → L.agrees l.new image → result ≡ record_of.policy_at image at }
{
    policy_at(l, at)
}

/// Puts a policy at a place.
pub fn put_policy<C: Cells>(c: &mut C, at: u32, policy: &Policy)
    requires begun { C.begun c.old ≡ true }
    requires lies { at + POLICY_WORDS ≤ C.size c.old }
    requires fits { at + POLICY_WORDS < 2 ^ 32 }
    ensures size { C.size c.new ≡ C.size c.old }
    ensures begun { C.begun c.new ≡ true }
    ensures rest { C.rest c.new ≡ C.rest c.old }
    ensures loads { C.loads c.new ≡ C.loads c.old }
    ensures words { C.words c.new ≡ stored (C.words c.old) at (record_of.policy_words policy.now) }
    ensures below { (q : ℕ) → q < at → slice_index (C.words c.new) q ≡ slice_index (C.words c.old) q }
    ensures above { (q : ℕ) → at + POLICY_WORDS ≤ q → slice_index (C.words c.new) q ≡ slice_index (C.words c.old) q }
    ensures fits { record_of.PolicyFits policy.now }
    ensures back { record_of.policy_at (C.words c.new) at ≡ Some policy.now }
{
    let templates = policy.spec.templates.as_slice();
    store_all(c, at, &plain_words(policy));
    c.store(at + 34, templates.len() as u64);
    put_templates(c, at + 35, templates);
}

/// Sets the flag of the policy at a place by which it warned, and changes nothing else.
pub fn put_soft<C: Cells>(c: &mut C, at: u32)
    requires begun { C.begun c.old ≡ true }
    requires lies { at + POLICY_WORDS ≤ C.size c.old }
    requires fits { at + POLICY_WORDS < 2 ^ 32 }
    ensures size { C.size c.new ≡ C.size c.old }
    ensures begun { C.begun c.new ≡ true }
    ensures rest { C.rest c.new ≡ C.rest c.old }
    ensures loads { C.loads c.new ≡ C.loads c.old }
    ensures words { C.words c.new ≡ slice_set (C.words c.old) (at + 21) 1 }
    ensures record_there { (p : Policy) → record_of.policy_at (C.words c.old) at ≡ Some p → record_of.policy_at (C.words c.new) at ≡ Some (record_of.warned p) }
{
    c.store(at + 21, 1);
}
