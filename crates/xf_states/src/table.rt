//! The state list: each state with its own part, in the order of adding.
ghost use Rattle.std.specs.Prelude.{◌≡◌, ◌<◌, ◌≤◌, ◌==◌, ◌&&◌, ◌++◌, [], not, All, IfOk, IfSome, OnOk, OnErr, option_copied, Some, count_by, filter, filter_map, find, map, position, zip, length, slice_get, vec_capacity};
ghost use Rattle.xf_states.specs.Table.{Puts, own_in_table, table_of, table_with, table_without, table_changed, table_later, held_later, pair_of, state_at};
ghost use Rattle.xf_types.specs.StateList.{latest_match, last_of, has_id, has_sid, is_larval_of, is_that, state_meets, larval_replaced};
ghost use Rattle.xf_types.specs.StateRules.{free_spi, refreshed_record};
ghost use Rattle.xf_types.specs.PolicyList.{without};
ghost use Rattle.xf_types.specs.Same.{meets_one, same_proto};
ghost use Rattle.std.specs.List.{list_any};
ghost use Rattle.xf_paths.specs.Shown.{shown};
ghost use Rattle.xf_types.specs.Counters.{first_free};
ghost use Rattle.xf_types.specs.FlowRules.{last_seq};
ghost use Rattle.xf_types.specs.Resolution.{resolution};
ghost use Rattle.xf_types.specs.TickRules.{state_ends, state_event};
ghost use Rattle.xf_types.specs.TrafficRules.{output_at, packet_at};

use crate::counter::next_seq;
use crate::events::push_some;
use crate::spis;
use std::alloc::{AllocError, Global};
use std::marker::Model;
use xf_held::{Held, admits, has_id, is_larval_of, is_that, meets_proto};
use xf_paths::{Resolved, resolve};
use xf_types::{
    AllocSpec, Event, Flow, NoMemory, Packet, Proto, Reply, Sa, SaFilter, SaId, SaSpec, Template,
};

/// The states, the latest last.
#[derive(Debug, Drop)]
pub struct StateTable {
    pub(crate) held: Vec<Held>,
}

impl Model for StateTable {
    ghost use Rattle.std.specs.Prelude.{AllPairs, ◌≢◌};
    ghost use Rattle.xf_states.specs.Table.{TableView, table_of};

    ghost Value = { TableView };

    ghost view = { λ t. table_of t.held.items };

    ghost invariant = { λ t. AllPairs (λ x y. x.state.sid ≢ y.state.sid) t.held.items };
}

impl StateTable {
    /// No states.
    pub fn new(alloc: Global) -> StateTable
        ensures { result ≡ table_of [] }
    {
        StateTable {
            held: Vec::new(alloc),
        }
    }

    /// How many.
    pub fn len(&self) -> usize
        ensures { result ≡ length self.now.states }
    {
        self.held.len()
    }

    /// Where the state stands that an id names.
    pub fn place_of(&self, id: &SaId) -> Option<usize>
        ensures state { state_at self.now.states result ≡ latest_match self.now.states id.now }
        ensures within { IfSome result (λ place. place < length self.now.states) }
    {
        let mut place = self.held.len();
        'search: while place > 0 {
            place -= 1;
            if has_id(id, self.held[place].state()) {
                return Some(place);
            }
        }
        None
    }

    /// Where the state stands that has this state id.
    pub fn place_of_sid(&self, sid: u64) -> Option<usize>
        ensures state { state_at self.now.states result ≡ find (has_sid sid) self.now.states }
        ensures within { IfSome result (λ place. place < length self.now.states) }
    {
        position_of(&self.held, sid)
    }

    /// The state at a place.
    pub fn state(&self, place: usize) -> &Sa
        requires { place < length self.now.states }
        ensures { Some result.now ≡ slice_get self.now.states place }
    {
        self.held[place].state()
    }

    /// The state that an id names.
    pub fn latest(&self, id: &SaId) -> Option<&Sa>
        ensures { option_copied result ≡ latest_match self.now.states id.now }
    {
        match self.place_of(id) {
            None => None,
            Some(place) => Some(self.state(place)),
        }
    }

    /// The state that an id names where that one is left out.
    pub fn latest_but(&self, one: &Option<Sa>, id: &SaId) -> Option<&Sa>
        ensures { option_copied result ≡ latest_match (without (is_that one.now) self.now.states) id.now }
    {
        match find_latest_but(&self.held, one, id) {
            None => None,
            Some(found) => Some(found.state()),
        }
    }

    /// The larval state that a new one takes the place of.
    pub fn larval_replaced(&self, spec: &SaSpec) -> Option<Sa>
        ensures { result ≡ larval_replaced self.now.states spec.now }
    {
        if spec.seq == 0 {
            return None;
        }
        match find_larval_of(&self.held, spec) {
            None => None,
            Some(found) => Some(*found.state()),
        }
    }

    /// The states that a flow goes through by these templates.
    pub fn resolve(&self, flow: &Flow, templates: &[Template]) -> Resolved
        requires { length templates.now ≤ 6 }
        ensures { shown result ≡ resolution self.now.states flow.now templates.now 0 flow.now.src flow.now.dst }
    {
        resolve(&self.held, flow, templates)
    }

    /// Whether a state has this sequence number.
    fn has_seq(&self, seq: u32) -> bool
        ensures { result ≡ list_any (λ x. x.spec.seq == seq) self.now.states }
    {
        any_has_seq(&self.held, seq)
    }

    /// The first sequence number that no state has, in cyclic order from this one.
    pub fn free_seq(&self, from: u32) -> u32
        requires low { 0 < from }
        requires high { from ≤ last_seq }
        ensures value { result
            ≡ first_free (λ seq. list_any (λ x. x.spec.seq == seq) self.now.states) last_seq from
            (length self.now.states) }
    {
        let mut seq = from;
        'tries: for _tries in 0..self.len() {
            if !self.has_seq(seq) {
                return seq;
            }
            seq = next_seq(seq);
        }
        seq
    }

    /// The least free SPI of the range that is asked for.
    pub fn free_spi(&self, spec: &AllocSpec) -> Result<Option<u32>, AllocError>
        requires { spec.now.min ≤ spec.now.max }
        ensures { IfOk result (λ spi. spi ≡ free_spi spec.now self.now.states) }
    {
        spis::find_free(*self.held.allocator(), &self.held, spec)
    }

    /// How many the filter admits.
    pub fn count_admitted(&self, filter: &SaFilter) -> usize
        ensures { result ≡ count_by (state_meets filter.now) self.now.states }
    {
        self.held
            .iter()
            .filter(|h| admits(filter, h.state()))
            .count()
    }

    /// How many are of a protocol, or all.
    pub fn count_of_proto(&self, proto: Option<Proto>) -> usize
        ensures { result ≡ count_by (λ s. meets_one same_proto proto s.spec.proto) self.now.states }
    {
        self.held
            .iter()
            .filter(|h| meets_proto(proto, h.state().spec.proto))
            .count()
    }

    /// Those that the filter admits, in order.
    pub fn list_admitted(&self, wanted: &SaFilter) -> Result<Vec<Sa>, AllocError>
        ensures { IfOk result (λ v. v.items ≡ filter (state_meets wanted.now) self.now.states) }
    {
        let mut admitted = Vec::new(*self.held.allocator());
        for held in &self.held {
            let state = held.state();
            if admits(wanted, state) {
                admitted.push(*state)?;
            }
        }
        Ok(admitted)
    }

    /// The state with this state id leaves.
    pub fn remove(&mut self, sid: u64)
        ensures { self.new ≡ table_without (has_sid sid) self.old }
    {
        self.held.retain(|h| h.state().sid != sid);
    }

    /// Those that the filter admits leave.
    pub fn remove_admitted(&mut self, filter: &SaFilter)
        ensures { self.new ≡ table_without (state_meets filter.now) self.old }
    {
        self.held.retain(|h| !admits(filter, h.state()));
    }

    /// Those of a protocol, or all, leave.
    pub fn remove_of_proto(&mut self, proto: Option<Proto>)
        ensures { self.new ≡ table_without (λ s. meets_one same_proto proto s.spec.proto) self.old }
    {
        self.held
            .retain(|h| !meets_proto(proto, h.state().spec.proto));
    }

    /// That one leaves, where there is one, and the new one goes last. Its state id is greater than all others.
    pub fn replace(&mut self, one: &Option<Sa>, new: Held) -> Result<(), NoMemory>
        requires { All (λ s. s.sid < new.state.sid) self.old.states }
        ensures ok { OnOk result (self.new ≡ table_with new (table_without (is_that one.now) self.old)) }
        ensures err { OnErr result (self.new ≡ self.old) }
    {
        if self.held.reserve(1).is_err() {
            return Err(NoMemory);
        }
        remove_that(&mut self.held, one);
        match self.held.push(new) {
            Ok(()) => Ok(()),
            Err(_) => unreachable!(),
        }
    }

    /// Refreshes the state at a place.
    pub fn refresh(&mut self, place: usize, spec: &SaSpec)
        requires { place < length self.old.states }
        ensures { IfSome (slice_get self.old.states place)
            (λ s. self.new ≡ table_changed s.sid (refreshed_record spec.now) self.old) }
    {
        self.held[place].refresh(spec);
    }

    /// A packet to the state at a place. A state at its end leaves.
    pub fn receive(&mut self, place: usize, packet: &Packet, now: u64) -> Reply
        requires { place < length self.old.states }
        ensures { IfSome (slice_get self.old.states place)
            (λ s. Puts result self.old self.new s (packet_at packet.now now s (own_in_table self.old s))) }
    {
        let held = &mut self.held[place];
        let sid = held.state().sid;
        let did = held.receive(packet, now);
        if did.ends {
            self.remove(sid);
        }
        did.reply
    }

    /// An output of so many bytes from the state at a place. A state at its end leaves.
    pub fn send(&mut self, place: usize, len: u32, now: u64) -> Reply
        requires { place < length self.old.states }
        ensures { IfSome (slice_get self.old.states place)
            (λ s. Puts result self.old self.new s (output_at len now s (own_in_table self.old s))) }
    {
        let held = &mut self.held[place];
        let sid = held.state().sid;
        let did = held.send(len, now);
        if did.ends {
            self.remove(sid);
        }
        did.reply
    }

    /// Puts what is reported of the states at a time behind the events so far.
    pub fn report(&self, now: u64, events: &mut Vec<Event>) -> Result<(), NoMemory>
        ensures { OnOk result
            (events.new.items ≡ events.old.items ++ filter_map (state_event now) (zip self.now.states self.now.own)) }
    {
        report_held(&self.held, now, events)
    }

    /// The states at a time: those that stay.
    pub fn age(&mut self, now: u64)
        ensures { self.new ≡ table_later now self.old }
    {
        remove_ended(&mut self.held, now);
        age_all(&mut self.held, now);
    }
}

/// That one leaves, where there is one.
fn remove_that(held: &mut Vec<Held>, one: &Option<Sa>)
    ensures rest { held.new.items ≡ filter (λ h. not (is_that one.now h.state)) held.old.items }
    ensures shorter { length held.new.items ≤ length held.old.items }
    ensures capacity { vec_capacity held.new ≡ vec_capacity held.old }
{
    held.retain(|h| !is_that(one, h.state()));
}

/// The last one that the id names where that one is left out.
fn find_latest_but<'a>(held: &'a [Held], one: &Option<Sa>, id: &SaId) -> Option<&'a Held>
    ensures { option_copied result ≡ last_of (λ h. not (is_that one.now h.state) && has_id id.now h.state) held.now }
{
    held.iter()
        .rev()
        .find(|h| !is_that(one, h.state()) && has_id(id, h.state()))
}

/// The last larval one that waits for what is asked for.
fn find_larval_of<'a>(held: &'a [Held], spec: &SaSpec) -> Option<&'a Held>
    ensures { option_copied result ≡ last_of (λ h. is_larval_of spec.now h.state) held.now }
{
    held.iter().rev().find(|h| is_larval_of(spec, h.state()))
}

/// Puts what is reported of each at a time behind the events so far.
fn report_held(held: &[Held], now: u64, events: &mut Vec<Event>) -> Result<(), NoMemory>
    ensures { OnOk result
        (events.new.items ≡ events.old.items ++ filter_map (λ h. state_event now (pair_of h)) held.now) }
{
    for one in held {
        push_some(events, one.event(now))?;
    }
    Ok(())
}

/// Those that time ends leave.
fn remove_ended(held: &mut Vec<Held>, now: u64)
    ensures { held.new.items ≡ filter (λ h. not (state_ends now (pair_of h))) held.old.items }
{
    held.retain(|h| !h.ends(now));
}

/// Each at the new time.
fn age_all(held: &mut Vec<Held>, now: u64)
    ensures { held.new.items ≡ map (held_later now) held.old.items }
{
    for one in held.iter_mut() {
        one.age(now);
    }
}

/// Where the first one stands that has this state id.
fn position_of(held: &[Held], sid: u64) -> Option<usize>
    ensures { result ≡ position (λ h. has_sid sid h.state) held.now }
{
    held.iter().position(|h| h.state().sid == sid)
}

fn any_has_seq(held: &[Held], seq: u32) -> bool
    ensures { result ≡ list_any (λ h. h.state.spec.seq == seq) held.now }
{
    held.iter().any(|h| h.state().spec.seq == seq)
}
