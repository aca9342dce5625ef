//! The calls on policies but for adding one.
ghost use Rattle.std.specs.Prelude.{◌≡◌, ◌≢◌, ◌<◌, ◌^◌, [], IsTrue, is_some, true, false};
ghost use Rattle.xf_types.specs.Changes.{applied};
ghost use Rattle.xf_types.specs.History.{is_contended};
ghost use Rattle.xf_types.specs.Machine.{Machine, outcome};
ghost use Rattle.xf_plain.specs.Replacing.{replaced};
ghost use Rattle.xf_types.specs.PolicyRules.{is_bad_key, policies_of, policy_same_as, policy_update, policy_delete, policy_get, policy_deleteall, policy_list, policy_flush, policy_count, policy_set};

use super::{Plain, has_bad_index};
use crate::{counting, listing, removing};
use xf_types::{
    Dir, Policies, Policy, PolicyFilter, PolicyKey, PolicySpec, Ptype, Reply, Thresholds,
};

/// Whether a key by index is of another direction.
fn is_bad(key: &PolicyKey) -> bool
    ensures { result ≡ is_bad_key key.now }
{
    match key {
        PolicyKey::Index { dir, index } => index % 8 != dir.number(),
        PolicyKey::Same { .. } => false,
    }
}

impl Plain {
    /// Lists the policy in the place of the one that is the same and has this index.
    fn replace(&mut self, spec: &PolicySpec, index: u32) -> Reply
        requires young { self.old.shown.next_number < 2 ^ 63 }
        requires listed { is_some (policy_same_as self.old.shown spec.now) ≡ true }
        ensures answer { result ≢ Reply.NoMemory
            → outcome result self.new ≡ applied self.old (replaced self.old.shown spec.now index) }
        ensures memory { result ≡ Reply.NoMemory → self.new ≡ self.old }
        ensures settled { is_contended result ≡ false }
    {
        let policy = Policy {
            number: self.next_number,
            index,
            added: self.time,
            soft: false,
            spec: spec.copy(),
        };
        match removing::replace_same(&mut self.policies, spec, policy) {
            Ok(()) => {
                self.next_number += 1;
                Reply::DoneIndex(index)
            }
            Err(_) => Reply::NoMemory,
        }
    }

    #[inline(never)]
    pub(super) fn policy_update(&mut self, spec: &PolicySpec) -> Reply
        requires young { self.old.shown.next_number < 2 ^ 63 }
        ensures answer { result ≢ Reply.NoMemory
            → outcome result self.new ≡ applied self.old (policy_update self.old.shown spec.now) }
        ensures memory { result ≡ Reply.NoMemory → self.new ≡ self.old }
        ensures settled { is_contended result ≡ false }
    {
        if has_bad_index(spec) {
            return Reply::Invalid;
        }
        match listing::find_same(self.policies.as_slice(), spec) {
            Some(old) => {
                let index = old.index;
                self.replace(spec, index)
            }
            None => self.put_if_room(spec),
        }
    }

    #[inline(never)]
    pub(super) fn policy_delete(&mut self, key: &PolicyKey) -> Reply
        ensures answer { outcome result self.new ≡ applied self.old (policy_delete self.old.shown key.now) }
        ensures memory { result ≢ Reply.NoMemory }
        ensures settled { is_contended result ≡ false }
    {
        if is_bad(key) {
            return Reply::Invalid;
        }
        match listing::find_key(self.policies.as_slice(), key) {
            Some(old) => {
                let index = old.index;
                removing::remove_named(&mut self.policies, key);
                Reply::DoneIndex(index)
            }
            None => Reply::NoEntry,
        }
    }

    #[inline(never)]
    pub(super) fn policy_get(&self, key: &PolicyKey) -> Reply
        ensures answer { outcome result self.now ≡ applied self.now (policy_get self.now.shown key.now) }
        ensures memory { result ≢ Reply.NoMemory }
        ensures settled { is_contended result ≡ false }
    {
        if is_bad(key) {
            return Reply::Invalid;
        }
        match listing::find_key(self.policies.as_slice(), key) {
            Some(policy) => Reply::PolicyShown(policy.copy()),
            None => Reply::NoEntry,
        }
    }

    #[inline(never)]
    pub(super) fn policy_deleteall(&mut self, filter: &PolicyFilter) -> Reply
        ensures answer { outcome result self.new ≡ applied self.old (policy_deleteall self.old.shown filter.now) }
        ensures memory { result ≢ Reply.NoMemory }
        ensures settled { is_contended result ≡ false }
    {
        let count = counting::count_admitted(self.policies.as_slice(), filter);
        removing::remove_admitted(&mut self.policies, filter);
        Reply::Removed(count as u32)
    }

    #[inline(never)]
    pub(super) fn policy_list(&self, filter: &PolicyFilter) -> Reply
        ensures answer { result ≢ Reply.NoMemory
            → outcome result self.now ≡ applied self.now (policy_list self.now.shown filter.now) }
        ensures settled { is_contended result ≡ false }
    {
        let alloc = *self.policies.allocator();
        match counting::list_admitted(alloc, self.policies.as_slice(), filter) {
            Ok(policies) => Reply::PolicyList(Policies::new(policies)),
            Err(_) => Reply::NoMemory,
        }
    }

    #[inline(never)]
    pub(super) fn policy_flush(&mut self, ptype: Option<Ptype>) -> Reply
        ensures answer { outcome result self.new ≡ applied self.old (policy_flush self.old.shown ptype) }
        ensures memory { result ≢ Reply.NoMemory }
        ensures settled { is_contended result ≡ false }
    {
        let count = counting::count_of_ptype(self.policies.as_slice(), ptype);
        removing::remove_of_ptype(&mut self.policies, ptype);
        Reply::Removed(count as u32)
    }

    /// How many policies a direction has.
    fn count_of(&self, dir: Dir) -> u32
        ensures { result ≡ policies_of self.now.shown dir }
    {
        counting::count_of_dir(self.policies.as_slice(), dir) as u32
    }

    #[inline(never)]
    pub(super) fn policy_count(&self) -> Reply
        ensures answer { outcome result self.now ≡ applied self.now (policy_count self.now.shown) }
        ensures memory { result ≢ Reply.NoMemory }
        ensures settled { is_contended result ≡ false }
    {
        Reply::PolicyCount {
            inward: self.count_of(Dir::In),
            outward: self.count_of(Dir::Out),
            forward: self.count_of(Dir::Fwd),
        }
    }

    #[inline(never)]
    pub(super) fn policy_set(&mut self, set: &Thresholds) -> Reply
        ensures answer { outcome result self.new ≡ applied self.old (policy_set self.old.shown set.now) }
        ensures memory { result ≢ Reply.NoMemory }
        ensures settled { is_contended result ≡ false }
    {
        self.hthresh4 = set.v4.unwrap_or(self.hthresh4);
        self.hthresh6 = set.v6.unwrap_or(self.hthresh6);
        Reply::Done
    }
}
