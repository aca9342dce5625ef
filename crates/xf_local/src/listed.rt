//! A listed state with its time, and what a packet or an output does to it.
ghost use Rattle.std.specs.Prelude.{◌≡◌, ℕ};
ghost use Rattle.xf_local.specs.Alone.{Inward, Outward, step_of};
ghost use Rattle.xf_local.specs.Answering.{Treats};
ghost use Rattle.xf_local.specs.Shown.{live_of};

use xf_held::{Held, Treatment, has_id, id_of_packet};
use xf_types::{Packet, Reply};

/// A listed state, and the time that it was told last, in seconds.
#[derive(Debug, Drop)]
pub(crate) struct Listed {
    pub(crate) held: Held,
    pub(crate) time: u64,
}

impl Listed {
    /// What a packet would be answered.
    pub(crate) fn foresee_packet(&self, packet: &Packet) -> Reply
        ensures { result ≡ (step_of (live_of self.now) (Inward packet.now)).reply }
    {
        if !has_id(&id_of_packet(packet), self.held.state()) {
            return Reply::NoState;
        }
        self.held.foresee_packet(packet, self.time)
    }

    /// What an output would be answered, at each length.
    pub(crate) fn foresee_output(&self) -> Reply
        ensures { (len : ℕ) → result ≡ (step_of (live_of self.now) (Outward len)).reply }
    {
        self.held.foresee_output(self.time)
    }

    /// A packet, which is perhaps another state's.
    pub(crate) fn receive(&mut self, packet: &Packet) -> Treatment
        ensures { Treats result (live_of self.old) (live_of self.new) (Inward packet.now) }
    {
        if !has_id(&id_of_packet(packet), self.held.state()) {
            return Treatment {
                reply: Reply::NoState,
                ends: false,
            };
        }
        self.held.receive(packet, self.time)
    }

    /// An output of so many bytes.
    pub(crate) fn send(&mut self, len: u32) -> Treatment
        ensures { Treats result (live_of self.old) (live_of self.new) (Outward len) }
    {
        self.held.send(len, self.time)
    }
}
