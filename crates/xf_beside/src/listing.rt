//! The policies that a filter admits, by the cursor.
ghost use Rattle.std.specs.Prelude.{◌≡◌, ◌≢◌, ◌<◌, ℕ, List, [], ◌∷◌, ◌++◌, OnOk, filter};
ghost use Rattle.xf_types.specs.declared.policy.Policy.{Policy};
ghost use Rattle.xf_types.specs.IsMachine.{IsInRoom};
ghost use Rattle.xf_types.specs.Machine.{Shown};
ghost use Rattle.xf_types.specs.PolicyList.{policy_meets};
ghost use Rattle.xf_types.specs.PolicyRules.{policy_list};
ghost use Rattle.xf_inexact.specs.Whole.{SpdStands, WholeFits};

use crate::cursor;
use std::alloc::Global;
use xf_cells::Cells;
use xf_spd::Spd;
use xf_types::{NoMemory, Policies, Policy, PolicyFilter, Reply};

/// Keeps a policy that the filter admits.
fn keep(found: &mut Vec<Policy>, policy: Policy, wanted: &PolicyFilter) -> Result<(), NoMemory>
    ensures { OnOk result (found.new.items ≡ found.old.items ++ filter (policy_meets wanted.now) (policy ∷ [])) }
{
    if !wanted.admits(&policy) {
        return Ok(());
    }
    match found.push(policy) {
        Ok(()) => Ok(()),
        Err(_) => Err(NoMemory),
    }
}

/// Keeps the policy in a slot, where the filter admits it.
fn keep_in<C: Cells>(
    spd: &Spd,
    c: &mut C,
    slot: u32,
    found: &mut Vec<Policy>,
    wanted: &PolicyFilter,
) -> Result<(), NoMemory>
    requires fits { WholeFits spd.now.area (C.size c.old) }
    requires slot { slot < spd.now.area.slots }
    ensures size { C.size c.new ≡ C.size c.old }
    ensures words { C.words c.new ≡ C.words c.old }
    ensures keeps { (s : Shown) (front back : List (ℕ × Policy)) (p : Policy) → SpdStands spd.now.area (C.words c.old) s (front ++ ((slot, p) ∷ back))
        → OnOk result (found.new.items ≡ found.old.items ++ filter (policy_meets wanted.now) (p ∷ [])) }
{
    match cursor::policy(spd, c, slot) {
        Some(policy) => keep(found, policy, wanted),
        None => Ok(()),
    }
}

/// The policies that a filter admits, in order.
pub fn list<C: Cells>(alloc: Global, spd: &Spd, c: &mut C, wanted: &PolicyFilter) -> Reply
    requires { WholeFits spd.now.area (C.size c.old) }
    ensures size { C.size c.new ≡ C.size c.old }
    ensures words { C.words c.new ≡ C.words c.old }
    ensures answer { (s : Shown) (es : List (ℕ × Policy)) → IsInRoom s → SpdStands spd.now.area (C.words c.old) s es → result ≢ Reply.NoMemory → result ≡ (policy_list s wanted.now).reply }
{
    let mut found = Vec::new(alloc);
    let mut at = cursor::first_slot(spd, c);
    let mut left = cursor::count(spd, c);
    'slots: while left > 0 {
        let Some(slot) = at else {
            return Reply::PolicyList(Policies::new(found));
        };
        at = cursor::next_slot(spd, c, slot);
        if keep_in(spd, c, slot, &mut found, wanted).is_err() {
            return Reply::NoMemory;
        }
        left -= 1;
    }
    Reply::PolicyList(Policies::new(found))
}
