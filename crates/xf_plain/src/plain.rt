//! The machine and its steps.
ghost use Rattle.std.specs.Prelude.{◌≡◌, ◌≢◌, ◌<◌, ◌≤◌, ◌^◌, ◌↔◌, length, IfOk, OnOk, OnErr, IsTrue, false};
ghost use Rattle.xf_plain.specs.Growth.{GrowsLittle};

mod flows;
mod parts;
mod policies;
mod spis;
mod states;
mod time;

use crate::{indices, listing};
pub use parts::PlainParts;
use std::alloc::Global;
use std::marker::Model;
use xf_states::StateTable;
use xf_types::{Call, NoMemory, Policy, PolicySpec, Reply};

/// The two databases as plain lists. A contract sees it as the machine.
#[derive(Drop)]
pub struct Plain {
    policies: Vec<Policy>,
    states: StateTable,
    next_index: u32,
    next_seq: u32,
    next_sid: u64,
    next_number: u64,
    hthresh4: (u8, u8),
    hthresh6: (u8, u8),
    /// In seconds.
    time: u64,
    max_policies: u32,
    max_states: u32,
}

impl Model for Plain {
    ghost use Rattle.xf_types.specs.Machine.{Machine};
    ghost use Rattle.xf_plain.specs.Kept.{AreKept};

    ghost Value = { Machine };

    ghost view = { λ p. record {
      shown = record {
        policies = p.policies.items;
        states = p.states.states;
        next_index = p.next_index;
        next_seq = p.next_seq;
        next_sid = p.next_sid;
        next_number = p.next_number;
        hthresh4 = p.hthresh4;
        hthresh6 = p.hthresh6;
        time = p.time;
        max_policies = p.max_policies;
        max_states = p.max_states;
      };
      own = p.states.own;
    } };

    ghost invariant = { λ p.
        AreKept p.policies.items p.next_index p.max_policies p.states.states p.next_sid p.max_states
        p.next_seq };
}

impl Plain {
    ghost use Rattle.xf_types.specs.Steps.{empty};

    /// The empty machine with the usual capacities: 4,096 policies and 8,192 states.
    pub fn new(alloc: Global) -> Result<Plain, NoMemory>
        ensures { IfOk result (λ plain. plain ≡ empty 4096 8192) }
    {
        Plain::sized(alloc, 4096, 8192)
    }

    /// The empty machine with these capacities.
    pub fn sized(alloc: Global, policies: u32, states: u32) -> Result<Plain, NoMemory>
        requires few_policies { policies ≤ 4096 }
        requires few_states { states ≤ 8192 }
        ensures { IfOk result (λ plain. plain ≡ empty policies states) }
    {
        Ok(Plain {
            policies: Vec::new(alloc),
            states: StateTable::new(alloc),
            next_index: 1,
            next_seq: 1,
            next_sid: 1,
            next_number: 1,
            hthresh4: (32, 32),
            hthresh6: (128, 128),
            time: 0,
            max_policies: policies,
            max_states: states,
        })
    }

    /// Whether the next state id and the next policy number are at most 2^62: far below the bound that `step` asks for.
    pub fn young(&self) -> bool
        ensures { IsTrue result
            ↔ ((self.now.shown.next_sid ≤ 2 ^ 62) × (self.now.shown.next_number ≤ 2 ^ 62)) }
    {
        self.next_sid <= 1 << 62 && self.next_number <= 1 << 62
    }
}

impl Plain {
    ghost use Rattle.std.specs.Prelude.{[]};
    ghost use Rattle.xf_types.specs.Machine.{Machine, outcome};
    ghost use Rattle.xf_types.specs.Changes.{applied};
    ghost use Rattle.xf_types.specs.History.{is_contended};
    ghost use Rattle.xf_types.specs.PolicyRules.{with_policy, policy_added_if_room, added_with_index, policy_add};
    ghost use Rattle.xf_types.specs.Steps.{step};

    /// Lists a new policy with this index.
    fn put(&mut self, spec: &PolicySpec, index: u32) -> Result<(), NoMemory>
        requires young { self.old.shown.next_number < 2 ^ 63 }
        requires room { length self.old.shown.policies < self.old.shown.max_policies }
        ensures ok { OnOk result
            (self.new ≡ record { shown = with_policy self.old.shown spec.now index self.old.shown.policies; own = self.old.own }) }
        ensures err { OnErr result (self.new ≡ self.old) }
    {
        let policy = Policy {
            number: self.next_number,
            index,
            added: self.time,
            soft: false,
            spec: spec.copy(),
        };
        listing::insert(&mut self.policies, policy)?;
        self.next_number += 1;
        Ok(())
    }

    /// Lists a new policy with the index that it asks for, where this is free, or with a fresh one.
    fn put_with_index(&mut self, spec: &PolicySpec) -> Reply
        requires young { self.old.shown.next_number < 2 ^ 63 }
        requires room { length self.old.shown.policies < self.old.shown.max_policies }
        ensures answer { result ≢ Reply.NoMemory
            → outcome result self.new ≡ applied self.old (added_with_index self.old.shown spec.now) }
        ensures memory { result ≡ Reply.NoMemory → self.new ≡ self.old }
        ensures settled { is_contended result ≡ false }
    {
        if spec.index != 0 && !indices::is_taken(self.policies.as_slice(), spec.index) {
            return match self.put(spec, spec.index) {
                Ok(()) => Reply::DoneIndex(spec.index),
                Err(_) => Reply::NoMemory,
            };
        }
        let number = indices::free_number(self.policies.as_slice(), spec.dir, self.next_index);
        let index = 8 * number + spec.dir.number();
        match self.put(spec, index) {
            Ok(()) => {
                self.next_index = indices::next_number(number);
                Reply::DoneIndex(index)
            }
            Err(_) => Reply::NoMemory,
        }
    }

    /// Lists a new policy where there is room.
    fn put_if_room(&mut self, spec: &PolicySpec) -> Reply
        requires young { self.old.shown.next_number < 2 ^ 63 }
        ensures answer { result ≢ Reply.NoMemory
            → outcome result self.new ≡ applied self.old (policy_added_if_room self.old.shown spec.now) }
        ensures memory { result ≡ Reply.NoMemory → self.new ≡ self.old }
        ensures settled { is_contended result ≡ false }
    {
        if self.policies.len() >= self.max_policies as usize {
            return Reply::Full {
                live: self.policies.len() as u32,
                waiting: 0,
            };
        }
        self.put_with_index(spec)
    }

    #[inline(never)]
    fn policy_add(&mut self, spec: &PolicySpec) -> Reply
        requires young { self.old.shown.next_number < 2 ^ 63 }
        ensures answer { result ≢ Reply.NoMemory
            → outcome result self.new ≡ applied self.old (policy_add self.old.shown spec.now) }
        ensures memory { result ≡ Reply.NoMemory → self.new ≡ self.old }
        ensures settled { is_contended result ≡ false }
    {
        if has_bad_index(spec) {
            return Reply::Invalid;
        }
        match listing::find_same(self.policies.as_slice(), spec) {
            Some(old) => Reply::PolicyExists(old.index),
            None => self.put_if_room(spec),
        }
    }

    /// One step: the reply of the machine, and the machine after it. Where memory runs out the machine stays. No reply comes of
    /// other threads, and the two counters that have no end of their own grow by one at most.
    #[inline(always)]
    pub fn step(&mut self, call: &Call) -> Reply
        requires numbers { self.old.shown.next_number < 2 ^ 63 }
        requires sids { self.old.shown.next_sid < 2 ^ 63 }
        ensures answer { result ≢ Reply.NoMemory → outcome result self.new ≡ step self.old call.now }
        ensures memory { result ≡ Reply.NoMemory → self.new ≡ self.old }
        ensures settled { is_contended result ≡ false }
        ensures grows { GrowsLittle self.old.shown self.new.shown }
    {
        // The calls stand apart: a function pays for its largest locals, also where it doesn't reach them.
        match call {
            Call::PolicyAdd(spec) => self.policy_add(spec),
            Call::PolicyUpdate(spec) => self.policy_update(spec),
            Call::PolicyDelete(key) => self.policy_delete(key),
            Call::PolicyGet(key) => self.policy_get(key),
            Call::PolicyDeleteAll(filter) => self.policy_deleteall(filter),
            Call::PolicyList(filter) => self.policy_list(filter),
            Call::PolicyFlush(ptype) => self.policy_flush(*ptype),
            Call::PolicyCount => self.policy_count(),
            Call::PolicySet(set) => self.policy_set(set),
            Call::StateAdd(spec) => self.state_add(spec),
            Call::StateUpdate(spec) => self.state_update(spec),
            Call::StateDelete(id) => self.state_delete(id),
            Call::StateGet(id) => self.state_get(id),
            Call::StateDeleteAll(filter) => self.state_deleteall(filter),
            Call::StateList(filter) => self.state_list(filter),
            Call::StateFlush(proto) => self.state_flush(*proto),
            Call::StateCount => self.state_count(),
            Call::AllocSpi(spec) => self.alloc_spi(spec),
            Call::Flow(flow) => self.flow(flow),
            Call::TryFlow(flow) => self.try_flow(flow),
            Call::Packet(packet) => self.packet(packet),
            Call::Output { sid, len } => self.output(*sid, *len),
            Call::Tick(given) => self.tick(*given),
        }
    }
}

ghost use Rattle.xf_types.specs.PolicyRules.{is_bad_index};

/// Whether the index that is given is of another direction.
fn has_bad_index(spec: &PolicySpec) -> bool
    ensures { result ≡ is_bad_index spec.now }
{
    spec.index != 0 && spec.index % 8 != spec.dir.number()
}
