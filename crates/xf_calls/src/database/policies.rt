//! The calls on policies.
ghost use Rattle.std.specs.Prelude.{◌<◌, ◌^◌};
ghost use Rattle.xf_types.specs.declared.call.Call.TheVariants as call;
ghost use Rattle.xf_calls.specs.Stepping.{IsStep};

use super::Database;
use std::alloc::Global;
use xf_cells::read;
use xf_spd::Spd;
use xf_types::{PolicyFilter, PolicyKey, PolicySpec, Ptype, Reply, Thresholds};

impl Database {
    #[inline(never)]
    pub(super) fn policy_add(&mut self, spec: &PolicySpec) -> Reply
        requires { self.old.shown.next_number < 2 ^ 63 }
        ensures { IsStep self.old self.new (call.PolicyAdd spec.now) result }
    {
        let now = read(&mut self.desk, self.layout.clock);
        let spd = Spd {
            area: self.layout.policies,
        };
        xf_policies::policy_add(&spd, &mut self.desk, &mut self.policy_pool, spec, now)
    }

    #[inline(never)]
    pub(super) fn policy_update(&mut self, spec: &PolicySpec) -> Reply
        requires { self.old.shown.next_number < 2 ^ 63 }
        ensures { IsStep self.old self.new (call.PolicyUpdate spec.now) result }
    {
        let now = read(&mut self.desk, self.layout.clock);
        let spd = Spd {
            area: self.layout.policies,
        };
        xf_policies::policy_update(&spd, &mut self.desk, &mut self.policy_pool, spec, now)
    }

    #[inline(never)]
    pub(super) fn policy_delete(&mut self, key: &PolicyKey) -> Reply
        ensures { IsStep self.old self.new (call.PolicyDelete key.now) result }
    {
        let spd = Spd {
            area: self.layout.policies,
        };
        xf_policies::policy_delete(&spd, &mut self.desk, &mut self.policy_pool, key)
    }

    #[inline(never)]
    pub(super) fn policy_get(&mut self, key: &PolicyKey) -> Reply
        ensures { IsStep self.old self.new (call.PolicyGet key.now) result }
    {
        let spd = Spd {
            area: self.layout.policies,
        };
        xf_policies::policy_get(&spd, &mut self.desk, key)
    }

    #[inline(never)]
    pub(super) fn policy_deleteall(&mut self, filter: &PolicyFilter) -> Reply
        ensures { IsStep self.old self.new (call.PolicyDeleteAll filter.now) result }
    {
        let spd = Spd {
            area: self.layout.policies,
        };
        xf_policies::policy_deleteall(&spd, &mut self.desk, &mut self.policy_pool, filter)
    }

    #[inline(never)]
    pub(super) fn policy_list(&mut self, alloc: Global, filter: &PolicyFilter) -> Reply
        ensures { IsStep self.old self.new (call.PolicyList filter.now) result }
    {
        let spd = Spd {
            area: self.layout.policies,
        };
        xf_policies::policy_list(&spd, &mut self.desk, alloc, filter)
    }

    #[inline(never)]
    pub(super) fn policy_flush(&mut self, ptype: Option<Ptype>) -> Reply
        ensures { IsStep self.old self.new (call.PolicyFlush ptype) result }
    {
        let spd = Spd {
            area: self.layout.policies,
        };
        xf_policies::policy_flush(&spd, &mut self.desk, &mut self.policy_pool, ptype)
    }

    #[inline(never)]
    pub(super) fn policy_count(&mut self) -> Reply
        ensures { IsStep self.old self.new call.PolicyCount result }
    {
        let spd = Spd {
            area: self.layout.policies,
        };
        xf_policies::policy_count(&spd, &mut self.desk)
    }

    #[inline(never)]
    pub(super) fn policy_set(&mut self, set: &Thresholds) -> Reply
        ensures { IsStep self.old self.new (call.PolicySet set.now) result }
    {
        let spd = Spd {
            area: self.layout.policies,
        };
        xf_policies::policy_set(&spd, &mut self.desk, set)
    }
}
