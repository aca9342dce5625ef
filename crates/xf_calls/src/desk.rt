//! What the calls are written over, in memory and on one thread.
ghost use Rattle.std.specs.Prelude.{List, refl};
ghost use Rattle.std.proofs.Common.{ap};
ghost use Rattle.xf_local.specs.View.{LocalView};
ghost use Rattle.xf_parts.specs.Held.{all_held};

use xf_cells::{Cells, Load};
use xf_local::{Inbound, Local, Outbound};
use xf_parts::{Memory, Parts};
use xf_policies::PolicySlots;
use xf_ticking::AllParts;
use xf_types::{Event, Packet};

/// Words and values in memory, for the calls on policies and those on states. Nobody is told of the slots that they leave.
#[derive(Drop)]
pub(crate) struct Desk {
    pub(crate) memory: Memory,
}

impl Load for Desk {
    ghost size = { λ d. ⟦<Memory as Load>⟧.size d.memory };

    ghost loads = { λ d. ⟦<Memory as Load>⟧.loads d.memory };

    ghost begun = { λ d. ⟦<Memory as Load>⟧.begun d.memory };

    ghost Rest = { List LocalView };

    ghost rest = { λ d. ⟦<Memory as Load>⟧.rest d.memory };

    ghost agrees = { λ d image. ⟦<Memory as Load>⟧.agrees d.memory image };

    fn size(&self) -> u32 {
        self.memory.size()
    }

    fn load(&mut self, place: u32) -> u64 {
        self.memory.load(place)
    }
}

impl Cells for Desk {
    ghost words = { λ d. ⟦<Memory as Cells>⟧.words d.memory };

    fn begin(&mut self) {
        self.memory.begin()
    }

    fn store(&mut self, place: u32, value: u64) {
        self.memory.store(place, value)
    }

    ghost own = { λ d. refl };

    ghost only = { λ d image is. is };

    ghost all = { λ d. refl };
}

impl Parts for Desk {
    ghost beside = { λ d. ⟦<Memory as Parts>⟧.beside d.memory };

    ghost hidden = { λ d. 0 };

    fn holds(&self, slot: u32) -> bool {
        self.memory.holds(slot)
    }

    fn enter(&mut self, slot: u32) {
        self.memory.enter(slot)
    }

    fn take(&mut self, slot: u32) -> Local {
        self.memory.take(slot)
    }

    fn put(&mut self, slot: u32, value: Local) {
        self.memory.put(slot, value)
    }

    fn receive(&mut self, slot: u32, packet: &Packet) -> Inbound {
        self.memory.receive(slot, packet)
    }

    fn send(&mut self, slot: u32, len: u32) -> Outbound {
        self.memory.send(slot, len)
    }

    fn event(&mut self, slot: u32, now: u64) -> Option<Event> {
        self.memory.event(slot, now)
    }

    fn age(&mut self, slot: u32, now: u64) {
        self.memory.age(slot, now)
    }

    fn state_freed(&mut self, slot: u32) {
        self.memory.state_freed(slot)
    }

    ghost kept = { λ x y same. ap all_held same };

    ghost kept_hidden = { λ x y same. refl };
}

impl PolicySlots for Desk {
    ghost hidden = { λ d. 0 };

    fn policy_freed(&mut self, _slot: u32) {}

    ghost kept = { λ x y same. refl };
}

impl AllParts for Desk {
    ghost same_hidden = { λ x. refl };
}
