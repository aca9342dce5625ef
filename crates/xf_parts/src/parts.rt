//! The values of the slots, beside the words.
ghost use Rattle.std.specs.Prelude.{◌≡◌, ℕ, ◌<◌, Bool, true, false, ◌==◌, ◌||◌, length};
ghost use Rattle.xf_image.specs.Frames.{Frame};
ghost use Rattle.xf_local.specs.Alone.{Inward, Outward};
ghost use Rattle.xf_local.specs.Answering.{Settles, inward_shown, outward_shown};
ghost use Rattle.xf_local.specs.View.{LocalView, Dead, aged, event_of};
ghost use Rattle.xf_rows.specs.Values.{Beside, at, value_put};

use xf_cells::{Cells, Load};
use xf_local::{Inbound, Local, Outbound};
use xf_types::{Event, Packet};

/// Words with one value for each slot of the states. A slot's value may be asked, changed or taken once the slot's turn is held; who
/// has begun to store holds the turns that it needs already.
pub trait Parts: Cells {
    /// Which slots' turns are held, and the values.
    ghost beside: { Self → Beside };

    /// Words below this place are the implementor's own.
    ghost hidden: { Self → ℕ };

    /// Whether a slot's turn is held.
    fn holds(&self, slot: u32) -> bool
        requires slot { slot < length (beside self.now).values }
        ensures { result ≡ (beside self.now).held slot };

    /// Takes a slot's turn, where it isn't held.
    fn enter(&mut self, slot: u32)
        requires slot { slot < length (beside self.old).values }
        requires early { Self.begun self.old ≡ true → (beside self.old).held slot ≡ true }
        ensures size { Self.size self.new ≡ Self.size self.old }
        ensures begun { Self.begun self.new ≡ Self.begun self.old }
        ensures words { Self.words self.new ≡ Self.words self.old }
        ensures hidden { hidden self.new ≡ hidden self.old }
        ensures count { length (beside self.new).values ≡ length (beside self.old).values }
        ensures held { (other : ℕ) → (beside self.new).held other ≡ ((other == slot) || (beside self.old).held other) }
        ensures at { (other : ℕ) → (beside self.old).held other ≡ true → at (beside self.new) other ≡ at (beside self.old) other }
        ensures again { (beside self.old).held slot ≡ true → Self.rest self.new ≡ Self.rest self.old };

    /// Takes a slot's value out, and leaves a dead one.
    fn take(&mut self, slot: u32) -> Local
        requires slot { slot < length (beside self.old).values }
        requires held { (beside self.old).held slot ≡ true }
        ensures size { Self.size self.new ≡ Self.size self.old }
        ensures begun { Self.begun self.new ≡ Self.begun self.old }
        ensures words { Self.words self.new ≡ Self.words self.old }
        ensures hidden { hidden self.new ≡ hidden self.old }
        ensures value { result ≡ at (beside self.old) slot }
        ensures beside { beside self.new ≡ value_put (beside self.old) slot Dead };

    /// Puts a value into a slot; the old one goes.
    fn put(&mut self, slot: u32, value: Local)
        requires slot { slot < length (beside self.old).values }
        requires held { (beside self.old).held slot ≡ true }
        ensures size { Self.size self.new ≡ Self.size self.old }
        ensures begun { Self.begun self.new ≡ Self.begun self.old }
        ensures words { Self.words self.new ≡ Self.words self.old }
        ensures hidden { hidden self.new ≡ hidden self.old }
        ensures beside { beside self.new ≡ value_put (beside self.old) slot value };

    /// A packet to a slot's value, under the database's turn.
    fn receive(&mut self, slot: u32, packet: &Packet) -> Inbound
        requires slot { slot < length (beside self.old).values }
        requires held { (beside self.old).held slot ≡ true }
        ensures size { Self.size self.new ≡ Self.size self.old }
        ensures begun { Self.begun self.new ≡ Self.begun self.old }
        ensures words { Self.words self.new ≡ Self.words self.old }
        ensures hidden { hidden self.new ≡ hidden self.old }
        ensures settles { Settles (inward_shown result) (at (beside self.old) slot) (at (beside self.new) slot) (Inward packet.now) }
        ensures beside { beside self.new ≡ value_put (beside self.old) slot (at (beside self.new) slot) };

    /// An output of so many bytes from a slot's value, under the database's turn.
    fn send(&mut self, slot: u32, len: u32) -> Outbound
        requires slot { slot < length (beside self.old).values }
        requires held { (beside self.old).held slot ≡ true }
        ensures size { Self.size self.new ≡ Self.size self.old }
        ensures begun { Self.begun self.new ≡ Self.begun self.old }
        ensures words { Self.words self.new ≡ Self.words self.old }
        ensures hidden { hidden self.new ≡ hidden self.old }
        ensures settles { Settles (outward_shown result) (at (beside self.old) slot) (at (beside self.new) slot) (Outward len) }
        ensures beside { beside self.new ≡ value_put (beside self.old) slot (at (beside self.new) slot) };

    /// What a tick to this time, in seconds, reports of a slot's state.
    fn event(&mut self, slot: u32, now: u64) -> Option<Event>
        requires slot { slot < length (beside self.old).values }
        requires held { (beside self.old).held slot ≡ true }
        ensures size { Self.size self.new ≡ Self.size self.old }
        ensures begun { Self.begun self.new ≡ Self.begun self.old }
        ensures rest { Self.rest self.new ≡ Self.rest self.old }
        ensures words { Self.words self.new ≡ Self.words self.old }
        ensures hidden { hidden self.new ≡ hidden self.old }
        ensures beside { beside self.new ≡ beside self.old }
        ensures event { result ≡ event_of now (at (beside self.old) slot) };

    /// A slot's value at a later time, in seconds: one that time ends is dead.
    fn age(&mut self, slot: u32, now: u64)
        requires slot { slot < length (beside self.old).values }
        requires held { (beside self.old).held slot ≡ true }
        ensures size { Self.size self.new ≡ Self.size self.old }
        ensures begun { Self.begun self.new ≡ Self.begun self.old }
        ensures words { Self.words self.new ≡ Self.words self.old }
        ensures hidden { hidden self.new ≡ hidden self.old }
        ensures beside { beside self.new ≡ value_put (beside self.old) slot (aged now (at (beside self.old) slot)) };

    /// The state in a slot left the list. Nothing else need be done; words that are the implementor's own may change.
    fn state_freed(&mut self, slot: u32)
        requires slot { slot < length (beside self.old).values }
        requires begun { Self.begun self.old ≡ true }
        ensures size { Self.size self.new ≡ Self.size self.old }
        ensures begun { Self.begun self.new ≡ true }
        ensures hidden { hidden self.new ≡ hidden self.old }
        ensures frame { Frame 0 (hidden self.old) (Self.words self.old) (Self.words self.new) }
        ensures beside { beside self.new ≡ beside self.old };

    ghost kept: { (x y : Self) → Self.Load.rest x ≡ Self.Load.rest y → beside x ≡ beside y };

    ghost kept_hidden: { (x y : Self) → Self.Load.rest x ≡ Self.Load.rest y → hidden x ≡ hidden y };
}
