//! The steps of the machine.
ghost use Rattle.std.specs.Prelude.{◌≡◌, ◌≢◌, ◌<◌, ◌^◌, false};
ghost use Rattle.xf_types.specs.History.{is_contended};
ghost use Rattle.xf_types.specs.Machine.{outcome};
ghost use Rattle.xf_types.specs.Steps.{step};
ghost use Rattle.xf_plain.specs.Growth.{GrowsLittle};
ghost use Rattle.xf_calls.specs.Stepping.{IsStep};

use super::Database;
use xf_types::{Call, Reply};

impl Database {
    /// Answers a call, each kind in a function of its own: a function pays for its largest locals, also where it doesn't reach them.
    fn answered(&mut self, call: &Call) -> Reply
        requires numbers { self.old.shown.next_number < 2 ^ 63 }
        requires sids { self.old.shown.next_sid < 2 ^ 63 }
        ensures { IsStep self.old self.new call.now result }
    {
        let alloc = self.alloc;
        match call {
            Call::PolicyAdd(spec) => self.policy_add(spec),
            Call::PolicyUpdate(spec) => self.policy_update(spec),
            Call::PolicyDelete(key) => self.policy_delete(key),
            Call::PolicyGet(key) => self.policy_get(key),
            Call::PolicyDeleteAll(filter) => self.policy_deleteall(filter),
            Call::PolicyList(filter) => self.policy_list(alloc, filter),
            Call::PolicyFlush(ptype) => self.policy_flush(*ptype),
            Call::PolicyCount => self.policy_count(),
            Call::PolicySet(set) => self.policy_set(set),
            Call::StateAdd(spec) => self.state_add(alloc, spec),
            Call::StateUpdate(spec) => self.state_update(alloc, spec),
            Call::StateDelete(id) => self.state_delete(id),
            Call::StateGet(id) => self.state_get(id),
            Call::StateDeleteAll(filter) => self.state_deleteall(filter),
            Call::StateList(filter) => self.state_list(alloc, filter),
            Call::StateFlush(proto) => self.state_flush(*proto),
            Call::StateCount => self.state_count(),
            Call::AllocSpi(spec) => self.alloc_spi(alloc, spec),
            Call::Flow(flow) => self.flow(alloc, flow),
            Call::TryFlow(flow) => self.try_flow(flow),
            Call::Packet(packet) => self.packet(packet),
            Call::Output { sid, len } => self.output(*sid, *len),
            Call::Tick(given) => self.tick(alloc, *given),
        }
    }

    /// One step: the reply of the machine, and the machine after it. Where memory runs out the machine stays. No reply comes of
    /// other threads, and the two counters that have no end of their own grow by one at most.
    pub fn step(&mut self, call: &Call) -> Reply
        requires numbers { self.old.shown.next_number < 2 ^ 63 }
        requires sids { self.old.shown.next_sid < 2 ^ 63 }
        ensures answer { result ≢ Reply.NoMemory → outcome result self.new ≡ step self.old call.now }
        ensures memory { result ≡ Reply.NoMemory → self.new ≡ self.old }
        ensures settled { is_contended result ≡ false }
        ensures grows { GrowsLittle self.old.shown self.new.shown }
    {
        self.answered(call)
    }
}
