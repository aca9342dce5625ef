//! The machine as a whole: made of its parts, copied, with no room left, and what a later one lacks of it.
ghost use Rattle.std.specs.Prelude.{◌≡◌, IfOk, is_some, length, true};
ghost use Rattle.xf_plain.specs.Parts.{AreParts, given, machine_of};
ghost use Rattle.xf_types.specs.History.{policies_gone, states_gone, with_policies, with_states};

use super::Plain;
use crate::listing;
use xf_held::Held;
use xf_replay::Own;
use xf_states::StateTable;
use xf_types::{NoMemory, Policy, Sa, Thresholds};

/// The parts of a machine. The room takes the states with their own parts, so that no memory is taken.
#[derive(Drop)]
pub struct PlainParts {
    pub policies: Vec<Policy>,
    pub states: Vec<Sa>,
    /// One for each state, at the same place.
    pub own: Vec<Own>,
    pub room: Vec<Held>,
    pub next_index: u32,
    pub next_seq: u32,
    pub next_sid: u64,
    pub next_number: u64,
    /// Both are given.
    pub thresholds: Thresholds,
    /// In seconds.
    pub now: u64,
    pub max_policies: u32,
    pub max_states: u32,
}

/// The threshold that is given.
fn given(lens: Option<(u8, u8)>) -> (u8, u8)
    requires { is_some lens ≡ true }
    ensures { result ≡ given lens }
{
    match lens {
        Some(lens) => lens,
        None => unreachable!(),
    }
}

impl Plain {
    /// The machine with these parts.
    pub fn of(parts: PlainParts) -> Plain
        requires { AreParts parts }
        ensures { result ≡ machine_of parts }
    {
        let PlainParts {
            policies,
            states,
            own,
            room,
            next_index,
            next_seq,
            next_sid,
            next_number,
            thresholds,
            now,
            max_policies,
            max_states,
        } = parts;
        Plain {
            policies,
            states: StateTable::of(&states, own, room),
            next_index,
            next_seq,
            next_sid,
            next_number,
            hthresh4: given(thresholds.v4),
            hthresh6: given(thresholds.v6),
            time: now,
            max_policies,
            max_states,
        }
    }

    /// An equal machine.
    pub fn copy(&self) -> Result<Plain, NoMemory>
        ensures { IfOk result (λ plain. plain ≡ self.now) }
    {
        Ok(Plain {
            policies: listing::copies(&self.policies)?,
            states: self.states.copy()?,
            next_index: self.next_index,
            next_seq: self.next_seq,
            next_sid: self.next_sid,
            next_number: self.next_number,
            hthresh4: self.hthresh4,
            hthresh6: self.hthresh6,
            time: self.time,
            max_policies: self.max_policies,
            max_states: self.max_states,
        })
    }

    /// Lowers the capacity for policies to those that are listed.
    pub fn fill_policies(&mut self)
        ensures { self.new ≡ with_policies self.old (length self.old.shown.policies) }
    {
        self.max_policies = self.policies.len() as u32;
    }

    /// Lowers the capacity for states to those that are listed.
    pub fn fill_states(&mut self)
        ensures { self.new ≡ with_states self.old (length self.old.shown.states) }
    {
        self.max_states = self.states.len() as u32;
    }

    /// How many policies are listed.
    pub fn policies(&self) -> u32
        ensures { result ≡ length self.now.shown.policies }
    {
        self.policies.len() as u32
    }

    /// How many states are listed.
    pub fn states(&self) -> u32
        ensures { result ≡ length self.now.shown.states }
    {
        self.states.len() as u32
    }

    /// How many policies may be listed.
    pub fn max_policies(&self) -> u32
        ensures { result ≡ self.now.shown.max_policies }
    {
        self.max_policies
    }

    /// How many states may be listed.
    pub fn max_states(&self) -> u32
        ensures { result ≡ self.now.shown.max_states }
    {
        self.max_states
    }

    /// How many policies have no index in the later machine.
    pub fn policies_gone(&self, later: &Plain) -> u32
        ensures { result ≡ policies_gone self.now later.now }
    {
        listing::count_gone(&self.policies, &later.policies) as u32
    }

    /// How many states have no state id in the later machine.
    pub fn states_gone(&self, later: &Plain) -> u32
        ensures { result ≡ states_gone self.now later.now }
    {
        self.states.count_gone(&later.states) as u32
    }
}
