//! All policies of a kind leave, in one walk over the list.
ghost use Rattle.std.specs.Prelude.{◌≡◌, ◌≢◌, ℕ, ◌≤◌, true, List, length};
ghost use Rattle.xf_types.specs.declared.policy.Policy.{Policy};
ghost use Rattle.xf_types.specs.Changes.{shown_after};
ghost use Rattle.xf_types.specs.Machine.{Shown};
ghost use Rattle.xf_types.specs.PolicyList.{policy_meets};
ghost use Rattle.xf_types.specs.PolicyRules as rule;
ghost use Rattle.xf_types.specs.Same.{meets_one, same_ptype};
ghost use Rattle.xf_cells.specs.Backs.{TakesBack};
ghost use Rattle.xf_image.specs.Entries.{entries_without};
ghost use Rattle.xf_image.specs.Readings.{listed_in};
ghost use Rattle.xf_inexact.specs.Whole.{SpdStands, WholeFits, whole_end};
ghost use Rattle.xf_spd.specs.Slots.{PoolFits};
ghost use Rattle.xf_policies.specs.Answers.{PolicyAnswers};
ghost use Rattle.xf_policies.specs.Standing.{Stood, LeavesOthers, Started};

use crate::slots::PolicySlots;
use crate::sweep::Sweep;
use crate::sweeping::change_all;
use xf_cells::Pool;
use xf_spd::Spd;
use xf_types::{PolicyFilter, Ptype, Reply};

/// Removes the policies that a filter admits.
pub fn policy_deleteall<C: PolicySlots, P: Pool>(
    spd: &Spd,
    c: &mut C,
    pool: &mut P,
    filter: &PolicyFilter,
) -> Reply
    requires fits { WholeFits spd.now.area (C.size c.old) }
    requires hidden { C.hidden c.old ≤ spd.now.area.base }
    requires back { TakesBack (P.lasts pool.old) P.taken P.takes }
    requires stood { Stood spd.now.area (C.words c.old) }
    requires pool { PoolFits (P.capacity pool.old) (P.taken pool.old) (P.gives pool.old) (P.takes pool.old) spd.now.area.slots (listed_in spd.now.area (C.words c.old)) }
    ensures size { C.size c.new ≡ C.size c.old }
    ensures rest { C.rest c.new ≡ C.rest c.old }
    ensures capacity { P.capacity pool.new ≡ P.capacity pool.old }
    ensures lasts { P.lasts pool.new ≡ P.lasts pool.old }
    ensures held { P.held pool.new ≡ P.held pool.old }
    ensures others { LeavesOthers (C.hidden c.old) spd.now.area.base (whole_end spd.now.area) (C.words c.old) (C.words c.new) }
    ensures started { (count : ℕ) → result ≡ Reply.Removed count → Started count (C.words c.old) (C.words c.new) (C.begun c.old) (C.begun c.new) }
    ensures answer { (s : Shown) (es : List (ℕ × Policy)) → SpdStands spd.now.area (C.words c.old) s es → PolicyAnswers spd.now.area (C.words c.new) s (P.held pool.new) result (λ t. rule.policy_deleteall t filter.now) }
    ensures stands { (s : Shown) (es : List (ℕ × Policy)) → SpdStands spd.now.area (C.words c.old) s es → SpdStands spd.now.area (C.words c.new) (shown_after s (rule.policy_deleteall s filter.now).change) (entries_without (policy_meets filter.now) es) }
    ensures memory { result ≢ Reply.NoMemory }
    ensures plain { (s : Shown) (es : List (ℕ × Policy)) → SpdStands spd.now.area (C.words c.old) s es → result ≡ (rule.policy_deleteall s filter.now).reply }
    ensures out { P.taken pool.new ≡ length (listed_in spd.now.area (C.words c.new)) }
    ensures pool { P.lasts pool.old ≡ true → PoolFits (P.capacity pool.new) (P.taken pool.new) (P.gives pool.new) (P.takes pool.new) spd.now.area.slots (listed_in spd.now.area (C.words c.new)) }
{
    Reply::Removed(change_all(spd, c, pool, &Sweep::Admitted(*filter)))
}

/// Removes the policies of a ptype, or all.
pub fn policy_flush<C: PolicySlots, P: Pool>(
    spd: &Spd,
    c: &mut C,
    pool: &mut P,
    ptype: Option<Ptype>,
) -> Reply
    requires fits { WholeFits spd.now.area (C.size c.old) }
    requires hidden { C.hidden c.old ≤ spd.now.area.base }
    requires back { TakesBack (P.lasts pool.old) P.taken P.takes }
    requires stood { Stood spd.now.area (C.words c.old) }
    requires pool { PoolFits (P.capacity pool.old) (P.taken pool.old) (P.gives pool.old) (P.takes pool.old) spd.now.area.slots (listed_in spd.now.area (C.words c.old)) }
    ensures size { C.size c.new ≡ C.size c.old }
    ensures rest { C.rest c.new ≡ C.rest c.old }
    ensures capacity { P.capacity pool.new ≡ P.capacity pool.old }
    ensures lasts { P.lasts pool.new ≡ P.lasts pool.old }
    ensures held { P.held pool.new ≡ P.held pool.old }
    ensures others { LeavesOthers (C.hidden c.old) spd.now.area.base (whole_end spd.now.area) (C.words c.old) (C.words c.new) }
    ensures started { (count : ℕ) → result ≡ Reply.Removed count → Started count (C.words c.old) (C.words c.new) (C.begun c.old) (C.begun c.new) }
    ensures answer { (s : Shown) (es : List (ℕ × Policy)) → SpdStands spd.now.area (C.words c.old) s es → PolicyAnswers spd.now.area (C.words c.new) s (P.held pool.new) result (λ t. rule.policy_flush t ptype) }
    ensures stands { (s : Shown) (es : List (ℕ × Policy)) → SpdStands spd.now.area (C.words c.old) s es → SpdStands spd.now.area (C.words c.new) (shown_after s (rule.policy_flush s ptype).change) (entries_without (λ p. meets_one same_ptype ptype p.spec.ptype) es) }
    ensures memory { result ≢ Reply.NoMemory }
    ensures plain { (s : Shown) (es : List (ℕ × Policy)) → SpdStands spd.now.area (C.words c.old) s es → result ≡ (rule.policy_flush s ptype).reply }
    ensures out { P.taken pool.new ≡ length (listed_in spd.now.area (C.words c.new)) }
    ensures pool { P.lasts pool.old ≡ true → PoolFits (P.capacity pool.new) (P.taken pool.new) (P.gives pool.new) (P.takes pool.new) spd.now.area.slots (listed_in spd.now.area (C.words c.new)) }
{
    Reply::Removed(change_all(spd, c, pool, &Sweep::OfPtype(ptype)))
}
