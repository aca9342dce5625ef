//! The policy that a key names leaves.
ghost use Rattle.std.specs.Prelude.{◌≡◌, ◌≢◌, ℕ, true, false, List, IsTrue, if◌then◌else◌};
ghost use Rattle.xf_types.specs.declared.policy.Policy.{Policy};
ghost use Rattle.xf_types.specs.Changes.{shown_after};
ghost use Rattle.xf_types.specs.Codes.{is_refusal_of};
ghost use Rattle.xf_types.specs.IsMachine.{IsPolicyList};
ghost use Rattle.xf_types.specs.Machine.{Shown};
ghost use Rattle.xf_types.specs.PolicyList.{has_key};
ghost use Rattle.xf_types.specs.PolicyRules as rule;
ghost use Rattle.xf_image.specs.Entries.{entries_without};
ghost use Rattle.xf_image.specs.Frames.{Frame};
ghost use Rattle.xf_image.specs.Readings.{listed_in};
ghost use Rattle.xf_inexact.specs.Whole.{SpdStands, WholeFits, whole_end};
ghost use Rattle.xf_listing.specs.Calls.{slot_named};
ghost use Rattle.xf_spd.specs.Slots.{PoolFits, Where};
ghost use Rattle.xf_policies.specs.Answers.{PolicyAnswers};

use crate::replying::index_reply;
use xf_cells::{Cells, Pool};
use xf_spd::Spd;
use xf_types::{PolicyKey, Reply};

/// Removes the policy that a key names. The pool has to take back its slot. Invalid or NoEntry where it is refused.
pub fn policy_delete<C: Cells, P: Pool>(
    spd: &Spd,
    c: &mut C,
    pool: &mut P,
    key: &PolicyKey,
) -> Reply
    requires fits { WholeFits spd.now.area (C.size c.old) }
    requires back { Where (P.takes pool.old) (slot_named spd.now.area (C.words c.old) key.now) }
    ensures size { C.size c.new ≡ C.size c.old }
    ensures rest { C.rest c.new ≡ C.rest c.old }
    ensures capacity { P.capacity pool.new ≡ P.capacity pool.old }
    ensures lasts { P.lasts pool.new ≡ P.lasts pool.old }
    ensures held { P.held pool.new ≡ P.held pool.old }
    ensures begun { C.begun c.new ≡ (if is_refusal_of result then C.begun c.old else true) }
    ensures refused { IsTrue (is_refusal_of result) → C.words c.new ≡ C.words c.old }
    ensures frame { Frame spd.now.area.base (whole_end spd.now.area) (C.words c.old) (C.words c.new) }
    ensures returned { is_refusal_of result ≡ false → Where (P.returned pool.new) (slot_named spd.now.area (C.words c.old) key.now) }
    ensures answer { (s : Shown) (es : List (ℕ × Policy)) → IsPolicyList s → SpdStands spd.now.area (C.words c.old) s es → PolicyAnswers spd.now.area (C.words c.new) s (P.held pool.new) result (λ t. rule.policy_delete t key.now) }
    ensures memory { result ≢ Reply.NoMemory }
    ensures removes { (s : Shown) (es : List (ℕ × Policy)) → is_refusal_of result ≡ false → IsPolicyList s → SpdStands spd.now.area (C.words c.old) s es → SpdStands spd.now.area (C.words c.new) (shown_after s (rule.policy_delete s key.now).change) (entries_without (has_key key.now) es) }
    ensures plain { (s : Shown) (es : List (ℕ × Policy)) → SpdStands spd.now.area (C.words c.old) s es → result ≡ (rule.policy_delete s key.now).reply }
    ensures pool { (s : Shown) (es : List (ℕ × Policy)) → P.lasts pool.old ≡ true → SpdStands spd.now.area (C.words c.old) s es → PoolFits (P.capacity pool.old) (P.taken pool.old) (P.gives pool.old) (P.takes pool.old) spd.now.area.slots (listed_in spd.now.area (C.words c.old)) → PoolFits (P.capacity pool.new) (P.taken pool.new) (P.gives pool.new) (P.takes pool.new) spd.now.area.slots (listed_in spd.now.area (C.words c.new)) }
{
    let answer = spd.delete(c, pool, key);
    index_reply(answer)
}
