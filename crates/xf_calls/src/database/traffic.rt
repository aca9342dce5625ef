//! Flows, packets and outputs.
ghost use Rattle.std.specs.Prelude.{◌<◌, ◌^◌};
ghost use Rattle.xf_types.specs.declared.call.Call.TheVariants as call;
ghost use Rattle.xf_calls.specs.Stepping.{IsStep};

use super::Database;
use crate::guesses::Guesses;
use std::alloc::Global;
use xf_types::{Flow, Packet, Reply};

impl Database {
    #[inline(never)]
    pub(super) fn flow(&mut self, alloc: Global, flow: &Flow) -> Reply
        requires { self.old.shown.next_sid < 2 ^ 63 }
        ensures { IsStep self.old self.new (call.Flow flow.now) result }
    {
        let flowed = xf_traffic::flow(
            alloc,
            &self.layout,
            &mut self.desk,
            &mut self.state_pool,
            flow,
        );
        self.guesses = Guesses::along(&flowed.reply, flowed.slots.as_slice());
        flowed.reply
    }

    #[inline(never)]
    pub(super) fn try_flow(&mut self, flow: &Flow) -> Reply
        ensures { IsStep self.old self.new (call.TryFlow flow.now) result }
    {
        xf_traffic::try_flow(&self.layout, &mut self.desk, flow)
    }

    #[inline(never)]
    pub(super) fn packet(&mut self, packet: &Packet) -> Reply
        ensures { IsStep self.old self.new (call.Packet packet.now) result }
    {
        xf_traffic::packet(&self.layout, &mut self.desk, &mut self.state_pool, packet)
    }

    #[inline(never)]
    pub(super) fn output(&mut self, sid: u64, len: u32) -> Reply
        ensures { IsStep self.old self.new (call.Output sid len) result }
    {
        let guess = self.guesses.slot(sid, self.layout.states.slots);
        xf_traffic::output(
            &self.layout,
            &mut self.desk,
            &mut self.state_pool,
            sid,
            len,
            guess,
        )
    }
}
