//! Packets and outputs.
ghost use Rattle.std.specs.Prelude.{◌≡◌, ℕ};
ghost use Rattle.xf_local.specs.Alone.{Inward, Outward};
ghost use Rattle.xf_local.specs.Answering.{Settles, Tries, inward_shown, outward_shown, tried_answer, waits};

use crate::answer::{Inbound, Outbound, needs_turn};
use crate::local::Local;
use xf_types::Packet;

impl Local {
    /// What `inbound` would answer.
    pub fn would(&self, packet: &Packet) -> Inbound
        ensures { inward_shown result ≡ tried_answer self.now (Inward packet.now) }
    {
        let Some(live) = &self.live else {
            return Inbound::Dead;
        };
        let reply = live.foresee_packet(packet);
        if needs_turn(&reply) {
            Inbound::NeedsTurn
        } else {
            Inbound::Answer(reply)
        }
    }

    /// Whether the reply to a packet needs the database's turn.
    fn waits_for(&self, packet: &Packet) -> bool
        ensures { result ≡ waits self.now (Inward packet.now) }
    {
        match &self.live {
            None => false,
            Some(live) => needs_turn(&live.foresee_packet(packet)),
        }
    }

    /// Whether the reply to an output needs the database's turn.
    fn waits_to_send(&self) -> bool
        ensures { (len : ℕ) → result ≡ waits self.now (Outward len) }
    {
        match &self.live {
            None => false,
            Some(live) => needs_turn(&live.foresee_output()),
        }
    }

    /// A packet that came in, answered without the database's turn where this may be.
    pub fn inbound(&mut self, packet: &Packet) -> Inbound
        ensures { Tries (inward_shown result) self.old self.new (Inward packet.now) }
    {
        if self.waits_for(packet) {
            return Inbound::NeedsTurn;
        }
        self.inbound_settled(packet)
    }

    /// A packet that came in, answered under the database's turn.
    pub fn inbound_settled(&mut self, packet: &Packet) -> Inbound
        ensures { Settles (inward_shown result) self.old self.new (Inward packet.now) }
    {
        match &mut self.live {
            None => Inbound::Dead,
            Some(live) => {
                let did = live.receive(packet);
                if did.ends {
                    self.live = None;
                }
                Inbound::Answer(did.reply)
            }
        }
    }

    /// An output of so many bytes, answered without the database's turn where this may be.
    pub fn outbound(&mut self, len: u32) -> Outbound
        ensures { Tries (outward_shown result) self.old self.new (Outward len) }
    {
        if self.waits_to_send() {
            return Outbound::NeedsTurn;
        }
        self.outbound_settled(len)
    }

    /// An output of so many bytes, answered under the database's turn.
    pub fn outbound_settled(&mut self, len: u32) -> Outbound
        ensures { Settles (outward_shown result) self.old self.new (Outward len) }
    {
        match &mut self.live {
            None => Outbound::Dead,
            Some(live) => {
                let did = live.send(len);
                if did.ends {
                    self.live = None;
                }
                Outbound::Answer(did.reply)
            }
        }
    }
}
