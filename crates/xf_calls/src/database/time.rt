//! The passing of time.
ghost use Rattle.xf_types.specs.declared.call.Call.TheVariants as call;
ghost use Rattle.xf_calls.specs.Stepping.{IsStep};

use super::Database;
use std::alloc::Global;
use xf_types::Reply;

impl Database {
    /// The time is in seconds.
    #[inline(never)]
    pub(super) fn tick(&mut self, alloc: Global, given: u64) -> Reply
        ensures { IsStep self.old self.new (call.Tick given) result }
    {
        xf_ticking::tick(
            alloc,
            &self.layout,
            &mut self.desk,
            &mut self.policy_pool,
            &mut self.state_pool,
            given,
        )
    }
}
