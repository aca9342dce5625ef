//! The calls on states.
ghost use Rattle.std.specs.Prelude.{◌<◌, ◌^◌};
ghost use Rattle.xf_types.specs.declared.call.Call.TheVariants as call;
ghost use Rattle.xf_calls.specs.Stepping.{IsStep};

use super::Database;
use std::alloc::Global;
use xf_types::{AllocSpec, Proto, Reply, SaFilter, SaId, SaSpec};

impl Database {
    #[inline(never)]
    pub(super) fn state_add(&mut self, alloc: Global, spec: &SaSpec) -> Reply
        requires { self.old.shown.next_sid < 2 ^ 63 }
        ensures { IsStep self.old self.new (call.StateAdd spec.now) result }
    {
        xf_statecalls::state_add(
            alloc,
            &self.layout,
            &mut self.desk,
            &mut self.state_pool,
            spec,
        )
    }

    #[inline(never)]
    pub(super) fn state_update(&mut self, alloc: Global, spec: &SaSpec) -> Reply
        requires { self.old.shown.next_sid < 2 ^ 63 }
        ensures { IsStep self.old self.new (call.StateUpdate spec.now) result }
    {
        xf_statecalls::state_update(
            alloc,
            &self.layout,
            &mut self.desk,
            &mut self.state_pool,
            spec,
        )
    }

    #[inline(never)]
    pub(super) fn state_delete(&mut self, id: &SaId) -> Reply
        ensures { IsStep self.old self.new (call.StateDelete id.now) result }
    {
        xf_statecalls::state_delete(&self.layout, &mut self.desk, &mut self.state_pool, id)
    }

    #[inline(never)]
    pub(super) fn state_get(&mut self, id: &SaId) -> Reply
        ensures { IsStep self.old self.new (call.StateGet id.now) result }
    {
        xf_statecalls::state_get(&self.layout, &mut self.desk, id)
    }

    #[inline(never)]
    pub(super) fn state_deleteall(&mut self, filter: &SaFilter) -> Reply
        ensures { IsStep self.old self.new (call.StateDeleteAll filter.now) result }
    {
        xf_statecalls::state_deleteall(&self.layout, &mut self.desk, &mut self.state_pool, filter)
    }

    #[inline(never)]
    pub(super) fn state_list(&mut self, alloc: Global, filter: &SaFilter) -> Reply
        ensures { IsStep self.old self.new (call.StateList filter.now) result }
    {
        xf_statecalls::state_list(alloc, &self.layout, &mut self.desk, filter)
    }

    #[inline(never)]
    pub(super) fn state_flush(&mut self, proto: Option<Proto>) -> Reply
        ensures { IsStep self.old self.new (call.StateFlush proto) result }
    {
        xf_statecalls::state_flush(&self.layout, &mut self.desk, &mut self.state_pool, proto)
    }

    #[inline(never)]
    pub(super) fn state_count(&mut self) -> Reply
        ensures { IsStep self.old self.new call.StateCount result }
    {
        xf_statecalls::state_count(&self.layout, &mut self.desk)
    }

    #[inline(never)]
    pub(super) fn alloc_spi(&mut self, alloc: Global, spec: &AllocSpec) -> Reply
        requires { self.old.shown.next_sid < 2 ^ 63 }
        ensures { IsStep self.old self.new (call.AllocSpi spec.now) result }
    {
        xf_statecalls::alloc_spi(
            alloc,
            &self.layout,
            &mut self.desk,
            &mut self.state_pool,
            spec,
        )
    }
}
