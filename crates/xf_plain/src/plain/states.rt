//! Calls on states, packets and outputs.
ghost use Rattle.std.specs.Prelude.{◌≡◌, ◌≢◌, ◌<◌, ◌^◌, IfOk, OnOk, OnErr, IfSome, Some, None, find, length, slice_get, true, false};

use super::Plain;
use xf_held::{Held, id_of, id_of_packet};
use xf_types::{NoMemory, Packet, Proto, Reply, Sa, SaFilter, SaId, SaSpec, Sas};

impl Plain {
    ghost use Rattle.xf_types.specs.Machine.{outcome};
    ghost use Rattle.xf_types.specs.Changes.{applied, machine_after, LeaveThen};
    ghost use Rattle.xf_types.specs.History.{is_contended};
    ghost use Rattle.xf_types.specs.OneState.{on_found};
    ghost use Rattle.xf_types.specs.StateList.{has_sid, is_none, is_that, latest_match};
    ghost use Rattle.xf_types.specs.StateRules.{state_added_if_room, state_add, state_update, state_updated, state_delete, state_get, state_deleteall, state_list, state_flush, state_count};
    ghost use Rattle.xf_types.specs.TrafficRules.{output_at, packet_at, id_of_packet};
    ghost use Rattle.xf_types.specs.declared.call.Reply.TheVariants.{NoState, Stale};

    /// Lists a new state in use. That one leaves, where there is one.
    fn put_state(&mut self, one: &Option<Sa>, spec: &SaSpec) -> Result<u64, NoMemory>
        requires sids { self.old.shown.next_sid < 2 ^ 63 }
        requires room { length self.old.shown.states < self.old.shown.max_states }
        ensures sid { IfOk result (λ sid. sid ≡ self.old.shown.next_sid) }
        ensures ok { OnOk result (self.new ≡ machine_after self.old
            (LeaveThen self.old.shown (is_that one.now) (Some (record { spec = spec.now; larval = false })))) }
        ensures err { OnErr result (self.new ≡ self.old) }
    {
        let sid = self.next_sid;
        let alloc = *self.policies.allocator();
        let held = Held::new(alloc, sid, self.time, spec)?;
        self.states.replace(one, held)?;
        self.next_sid += 1;
        Ok(sid)
    }

    /// Lists a new larval state.
    pub(super) fn put_larval(&mut self, spec: &SaSpec) -> Result<u64, NoMemory>
        requires sids { self.old.shown.next_sid < 2 ^ 63 }
        requires room { length self.old.shown.states < self.old.shown.max_states }
        ensures sid { IfOk result (λ sid. sid ≡ self.old.shown.next_sid) }
        ensures ok { OnOk result (self.new ≡ machine_after self.old
            (LeaveThen self.old.shown is_none (Some (record { spec = spec.now; larval = true })))) }
        ensures err { OnErr result (self.new ≡ self.old) }
    {
        let sid = self.next_sid;
        let alloc = *self.policies.allocator();
        let held = Held::new_larval(alloc, sid, self.time, spec)?;
        self.states.replace(&None, held)?;
        self.next_sid += 1;
        Ok(sid)
    }

    /// Lists a new state where there is room. That one leaves, where there is one.
    fn add_if_room(&mut self, one: &Option<Sa>, spec: &SaSpec) -> Reply
        requires { self.old.shown.next_sid < 2 ^ 63 }
        ensures answer { result ≢ Reply.NoMemory
            → outcome result self.new ≡ applied self.old (state_added_if_room self.old.shown (is_that one.now) spec.now) }
        ensures memory { result ≡ Reply.NoMemory → self.new ≡ self.old }
        ensures settled { is_contended result ≡ false }
    {
        if self.states.len() >= self.max_states as usize {
            return Reply::Full {
                live: self.states.len() as u32,
                waiting: 0,
            };
        }
        match self.put_state(one, spec) {
            Ok(sid) => Reply::DoneSid(sid),
            Err(_) => Reply::NoMemory,
        }
    }

    #[inline(never)]
    pub(super) fn state_add(&mut self, spec: &SaSpec) -> Reply
        requires { self.old.shown.next_sid < 2 ^ 63 }
        ensures answer { result ≢ Reply.NoMemory
            → outcome result self.new ≡ applied self.old (state_add self.old.shown spec.now) }
        ensures memory { result ≡ Reply.NoMemory → self.new ≡ self.old }
        ensures settled { is_contended result ≡ false }
    {
        let replaced = self.states.larval_replaced(spec);
        match self.states.latest_but(&replaced, &id_of(spec)) {
            Some(old) => Reply::StateExists(old.sid),
            None => self.add_if_room(&replaced, spec),
        }
    }

    /// Updates the state at a place.
    fn update_at(&mut self, place: usize, spec: &SaSpec) -> Reply
        requires sids { self.old.shown.next_sid < 2 ^ 63 }
        requires within { place < length self.old.shown.states }
        ensures answer { result ≢ Reply.NoMemory → outcome result self.new
            ≡ applied self.old (state_updated self.old.shown spec.now (slice_get self.old.shown.states place)) }
        ensures memory { result ≡ Reply.NoMemory → self.new ≡ self.old }
        ensures settled { is_contended result ≡ false }
    {
        let old = *self.states.state(place);
        if old.larval {
            return self.add_if_room(&Some(old), spec);
        }
        self.states.refresh(place, spec);
        Reply::DoneSid(old.sid)
    }

    #[inline(never)]
    pub(super) fn state_update(&mut self, spec: &SaSpec) -> Reply
        requires { self.old.shown.next_sid < 2 ^ 63 }
        ensures answer { result ≢ Reply.NoMemory
            → outcome result self.new ≡ applied self.old (state_update self.old.shown spec.now) }
        ensures memory { result ≡ Reply.NoMemory → self.new ≡ self.old }
        ensures settled { is_contended result ≡ false }
    {
        match self.states.place_of(&id_of(spec)) {
            None => Reply::NoState,
            Some(place) => self.update_at(place, spec),
        }
    }

    #[inline(never)]
    pub(super) fn state_delete(&mut self, id: &SaId) -> Reply
        ensures answer { outcome result self.new ≡ applied self.old (state_delete self.old.shown id.now) }
        ensures memory { result ≢ Reply.NoMemory }
        ensures settled { is_contended result ≡ false }
    {
        match self.states.latest(id) {
            None => Reply::NoState,
            Some(old) => {
                let sid = old.sid;
                self.states.remove(sid);
                Reply::DoneSid(sid)
            }
        }
    }

    #[inline(never)]
    pub(super) fn state_get(&self, id: &SaId) -> Reply
        ensures answer { outcome result self.now ≡ applied self.now (state_get self.now.shown id.now) }
        ensures memory { result ≢ Reply.NoMemory }
        ensures settled { is_contended result ≡ false }
    {
        match self.states.latest(id) {
            None => Reply::NoState,
            Some(state) => Reply::StateShown(*state),
        }
    }

    #[inline(never)]
    pub(super) fn state_deleteall(&mut self, filter: &SaFilter) -> Reply
        ensures answer { outcome result self.new ≡ applied self.old (state_deleteall self.old.shown filter.now) }
        ensures memory { result ≢ Reply.NoMemory }
        ensures settled { is_contended result ≡ false }
    {
        let count = self.states.count_admitted(filter);
        self.states.remove_admitted(filter);
        Reply::Removed(count as u32)
    }

    #[inline(never)]
    pub(super) fn state_list(&self, filter: &SaFilter) -> Reply
        ensures answer { result ≢ Reply.NoMemory
            → outcome result self.now ≡ applied self.now (state_list self.now.shown filter.now) }
        ensures settled { is_contended result ≡ false }
    {
        match self.states.list_admitted(filter) {
            Ok(admitted) => Reply::StateList(Sas::new(admitted)),
            Err(_) => Reply::NoMemory,
        }
    }

    #[inline(never)]
    pub(super) fn state_flush(&mut self, proto: Option<Proto>) -> Reply
        ensures answer { outcome result self.new ≡ applied self.old (state_flush self.old.shown proto) }
        ensures memory { result ≢ Reply.NoMemory }
        ensures settled { is_contended result ≡ false }
    {
        let count = self.states.count_of_proto(proto);
        self.states.remove_of_proto(proto);
        Reply::Removed(count as u32)
    }

    #[inline(never)]
    pub(super) fn state_count(&self) -> Reply
        ensures answer { outcome result self.now ≡ applied self.now (state_count self.now.shown) }
        ensures memory { result ≢ Reply.NoMemory }
        ensures settled { is_contended result ≡ false }
    {
        Reply::StateCount(self.states.len() as u32)
    }

    #[inline(never)]
    pub(super) fn packet(&mut self, packet: &Packet) -> Reply
        ensures answer { outcome result self.new ≡ on_found self.old NoState (packet_at packet.now)
            (latest_match self.old.shown.states (id_of_packet packet.now)) }
        ensures memory { result ≢ Reply.NoMemory }
        ensures settled { is_contended result ≡ false }
    {
        match self.states.place_of(&id_of_packet(packet)) {
            None => Reply::NoState,
            Some(place) => self.states.receive(place, packet, self.time),
        }
    }

    #[inline(never)]
    pub(super) fn output(&mut self, sid: u64, len: u32) -> Reply
        ensures answer { outcome result self.new ≡ on_found self.old Stale (output_at len)
            (find (has_sid sid) self.old.shown.states) }
        ensures memory { result ≢ Reply.NoMemory }
        ensures settled { is_contended result ≡ false }
    {
        match self.states.place_of_sid(sid) {
            None => Reply::Stale,
            Some(place) => self.states.send(place, len, self.time),
        }
    }
}
