//! A policy is added, or takes the place of the same one.
ghost use Rattle.std.specs.Prelude.{◌≡◌, ◌≢◌, ℕ, ◌<◌, true, false, List, IsTrue, if◌then◌else◌};
ghost use Rattle.xf_types.specs.declared.policy.Policy.{Policy};
ghost use Rattle.xf_types.specs.Codes.{is_refusal_of};
ghost use Rattle.xf_types.specs.Machine.{Shown};
ghost use Rattle.xf_types.specs.PolicyRules as rule;
ghost use Rattle.xf_image.specs.Frames.{Frame};
ghost use Rattle.xf_image.specs.Readings.{listed_in};
ghost use Rattle.xf_inexact.specs.Whole.{SpdStands, WholeFits, whole_end};
ghost use Rattle.xf_spd.specs.Changes.{IsAt, AddsGiven, Replaces};
ghost use Rattle.xf_spd.specs.Slots.{PoolFits};
ghost use Rattle.xf_policies.specs.Answers.{PolicyAnswers};

use crate::replying::index_reply;
use xf_cells::{Cells, Pool};
use xf_spd::Spd;
use xf_types::{PolicySpec, Reply};

/// Lists a new policy in a slot of the pool. Invalid, PolicyExists or Full where it is refused.
pub fn policy_add<C: Cells, P: Pool>(
    spd: &Spd,
    c: &mut C,
    pool: &mut P,
    spec: &PolicySpec,
    now: u64,
) -> Reply
    requires fits { WholeFits spd.now.area (C.size c.old) }
    requires spent { P.spent pool.old ≡ false }
    requires below { (slot : ℕ) → P.gives pool.old slot → slot < spd.now.area.slots }
    ensures size { C.size c.new ≡ C.size c.old }
    ensures rest { C.rest c.new ≡ C.rest c.old }
    ensures capacity { P.capacity pool.new ≡ P.capacity pool.old }
    ensures lasts { P.lasts pool.new ≡ P.lasts pool.old }
    ensures begun { C.begun c.new ≡ (if is_refusal_of result then C.begun c.old else true) }
    ensures refused { IsTrue (is_refusal_of result) → C.words c.new ≡ C.words c.old }
    ensures frame { Frame spd.now.area.base (whole_end spd.now.area) (C.words c.old) (C.words c.new) }
    ensures answer { (s : Shown) (es : List (ℕ × Policy)) → IsAt s now → SpdStands spd.now.area (C.words c.old) s es → PoolFits (P.capacity pool.old) (P.taken pool.old) (P.gives pool.old) (P.takes pool.old) spd.now.area.slots (listed_in spd.now.area (C.words c.old)) → PolicyAnswers spd.now.area (C.words c.new) s (P.held pool.new) result (λ t. rule.policy_add t spec.now) }
    ensures memory { result ≢ Reply.NoMemory }
    ensures adds { (s : Shown) (es : List (ℕ × Policy)) (index : ℕ) → result ≡ Reply.DoneIndex index → IsAt s now → SpdStands spd.now.area (C.words c.old) s es → PoolFits (P.capacity pool.old) (P.taken pool.old) (P.gives pool.old) (P.takes pool.old) spd.now.area.slots (listed_in spd.now.area (C.words c.old)) → AddsGiven spd.now.area (C.words c.new) s es (P.gives pool.old) index spec.now (rule.policy_add s spec.now) }
    ensures plain { (s : Shown) (es : List (ℕ × Policy)) → P.held pool.new ≡ 0 → IsAt s now → SpdStands spd.now.area (C.words c.old) s es → PoolFits (P.capacity pool.old) (P.taken pool.old) (P.gives pool.old) (P.takes pool.old) spd.now.area.slots (listed_in spd.now.area (C.words c.old)) → result ≡ (rule.policy_add s spec.now).reply }
    ensures pool { (s : Shown) (es : List (ℕ × Policy)) → P.lasts pool.old ≡ true → IsAt s now → SpdStands spd.now.area (C.words c.old) s es → PoolFits (P.capacity pool.old) (P.taken pool.old) (P.gives pool.old) (P.takes pool.old) spd.now.area.slots (listed_in spd.now.area (C.words c.old)) → PoolFits (P.capacity pool.new) (P.taken pool.new) (P.gives pool.new) (P.takes pool.new) spd.now.area.slots (listed_in spd.now.area (C.words c.new)) }
{
    let answer = spd.insert(c, pool, spec, now);
    index_reply(answer)
}

/// Lists a policy in place of the same one, in its slot and with its index, or as a new one. Invalid or Full where it is refused.
pub fn policy_update<C: Cells, P: Pool>(
    spd: &Spd,
    c: &mut C,
    pool: &mut P,
    spec: &PolicySpec,
    now: u64,
) -> Reply
    requires fits { WholeFits spd.now.area (C.size c.old) }
    requires spent { P.spent pool.old ≡ false }
    requires below { (slot : ℕ) → P.gives pool.old slot → slot < spd.now.area.slots }
    ensures size { C.size c.new ≡ C.size c.old }
    ensures rest { C.rest c.new ≡ C.rest c.old }
    ensures capacity { P.capacity pool.new ≡ P.capacity pool.old }
    ensures lasts { P.lasts pool.new ≡ P.lasts pool.old }
    ensures begun { C.begun c.new ≡ (if is_refusal_of result then C.begun c.old else true) }
    ensures refused { IsTrue (is_refusal_of result) → C.words c.new ≡ C.words c.old }
    ensures frame { Frame spd.now.area.base (whole_end spd.now.area) (C.words c.old) (C.words c.new) }
    ensures answer { (s : Shown) (es : List (ℕ × Policy)) → IsAt s now → SpdStands spd.now.area (C.words c.old) s es → PoolFits (P.capacity pool.old) (P.taken pool.old) (P.gives pool.old) (P.takes pool.old) spd.now.area.slots (listed_in spd.now.area (C.words c.old)) → PolicyAnswers spd.now.area (C.words c.new) s (P.held pool.new) result (λ t. rule.policy_update t spec.now) }
    ensures memory { result ≢ Reply.NoMemory }
    ensures replaces { (s : Shown) (es : List (ℕ × Policy)) (index : ℕ) → result ≡ Reply.DoneIndex index → IsAt s now → SpdStands spd.now.area (C.words c.old) s es → PoolFits (P.capacity pool.old) (P.taken pool.old) (P.gives pool.old) (P.takes pool.old) spd.now.area.slots (listed_in spd.now.area (C.words c.old)) → Replaces spd.now.area (C.words c.new) s es (P.gives pool.old) index spec.now (rule.policy_update s spec.now) }
    ensures plain { (s : Shown) (es : List (ℕ × Policy)) → P.held pool.new ≡ 0 → IsAt s now → SpdStands spd.now.area (C.words c.old) s es → PoolFits (P.capacity pool.old) (P.taken pool.old) (P.gives pool.old) (P.takes pool.old) spd.now.area.slots (listed_in spd.now.area (C.words c.old)) → result ≡ (rule.policy_update s spec.now).reply }
    ensures pool { (s : Shown) (es : List (ℕ × Policy)) → P.lasts pool.old ≡ true → IsAt s now → SpdStands spd.now.area (C.words c.old) s es → PoolFits (P.capacity pool.old) (P.taken pool.old) (P.gives pool.old) (P.takes pool.old) spd.now.area.slots (listed_in spd.now.area (C.words c.old)) → PoolFits (P.capacity pool.new) (P.taken pool.new) (P.gives pool.new) (P.takes pool.new) spd.now.area.slots (listed_in spd.now.area (C.words c.new)) }
{
    let answer = spd.update(c, pool, spec, now);
    index_reply(answer)
}
