//! Words and values of a pass that has the database's turn.
ghost use Rattle.std.specs.Prelude.{◌≡◌, ℕ, List, Option, ◌+◌, ◌<◌, ◌≤◌, Bool, true, false, Some, length, refl};
ghost use Rattle.std.proofs.Common.{ap};
ghost use Rattle.xf_local.specs.View.{LocalView};
ghost use Rattle.xf_rows.specs.Values.{at, value_put};
ghost use Rattle.xf_live.specs.Passes.{IsHere, holding};
ghost use Rattle.xf_live.specs.Values.{with_home, home_at, holds};
ghost use Rattle.xf_desk.specs.Lending.{AreSlots, IsLent};
ghost use Rattle.xf_desk.specs.Values.{beside_of};

use crate::lent::From;
use std::marker::PhantomData;
use std::sync::Wait;
use xf_cells::{Cells, Load};
use xf_live::{Live, Pass};
use xf_local::{Inbound, Local, Outbound};
use xf_parts::Parts;
use xf_policies::PolicySlots;
use xf_types::{Event, Packet};
use xf_values::StateValue;

/// The words of a table, and the values of the slots whose turns its pass has.
#[derive(Drop)]
pub struct Desk<'a, R, B: From> {
    pub live: &'a Live<StateValue>,
    pub rt: &'a R,
    pub pass: Pass<StateValue>,
    pub policies: u32,
    pub states: u32,
    /// Whether storing began.
    pub writing: bool,
    pub from: PhantomData<B>,
    pub ghost table: { live.now ≡ B.live },
    pub ghost here: { IsHere B.live pass },
    pub ghost slots: { AreSlots B.live policies states },
    pub ghost size: { length pass.view.image.words ≡ B.live.count },
    pub ghost lent: { IsLent B.live.start.policies B.pass pass writing },
}

impl<'a, R, B: From> Load for Desk<'a, R, B> {
    ghost use Rattle.xf_rows.specs.Values.{Beside};

    ghost size = { λ d. B.live.count };

    ghost loads = { λ d. d.pass.loads };

    ghost begun = { λ d. d.writing };

    ghost Rest = { Beside };

    ghost rest = { λ d. beside_of B.live.start d.pass.values };

    ghost agrees = { λ d image. image ≡ d.pass.view.image.words };

    fn size(&self) -> u32 {
        self.live.size()
    }

    fn load(&mut self, place: u32) -> u64 {
        self.live.load(&mut self.pass, place)
    }
}

impl<'a, R, B: From> Cells for Desk<'a, R, B> {
    ghost words = { λ d. d.pass.view.image.words };

    fn begin(&mut self) {
        if !self.writing {
            self.live.begin(&mut self.pass);
            self.writing = true;
        }
    }

    fn store(&mut self, place: u32, value: u64) {
        self.live.store(&mut self.pass, place, value);
    }

    ghost own = { λ d. refl };

    ghost only = { λ d image is. is };

    ghost all = { λ d. d.size };
}

impl<'a, R, B: From> PolicySlots for Desk<'a, R, B> {
    ghost hidden = { λ d. 0 };

    fn policy_freed(&mut self, _slot: u32) {}

    ghost kept = { λ x y same. refl };
}

impl<'a, R, B: From> Desk<'a, R, B> {
    /// Where a slot of the states is among all of the table.
    #[tactic(auto, using(crate::proofs::Besides::below))]
    fn place(&self, slot: u32) -> u32
        requires slot { slot < length (beside_of B.live.start self.now.pass.values).values }
        ensures { result ≡ B.live.start.policies + slot }
    {
        self.policies + slot
    }

    /// The value of a slot whose turn is held, with another one in its place.
    fn replace(&mut self, slot: u32, value: Local) -> Local
        requires slot { slot < length (beside_of B.live.start self.old.pass.values).values }
        requires held { holds self.old.pass.values (B.live.start.policies + slot) ≡ true }
        ensures pass { self.new.pass ≡ holding self.old.pass (with_home self.old.pass.values (B.live.start.policies + slot) (Some (record { local = value }))) }
        ensures writing { self.new.writing ≡ self.old.writing }
        ensures value { result ≡ at (beside_of B.live.start self.old.pass.values) slot }
        ensures beside { beside_of B.live.start self.new.pass.values ≡ value_put (beside_of B.live.start self.old.pass.values) slot value }
    {
        let place = self.place(slot);
        let StateValue { local } = self.live.value_out(&mut self.pass, place);
        self.live
            .value_in(&mut self.pass, place, StateValue { local: value });
        local
    }
}

impl<'a, R: Wait, B: From> Parts for Desk<'a, R, B> {
    ghost beside = { λ d. beside_of B.live.start d.pass.values };

    ghost hidden = { λ d. 0 };

    fn holds(&self, slot: u32) -> bool {
        self.pass.has_turn(self.place(slot))
    }

    fn enter(&mut self, slot: u32) {
        let place = self.place(slot);
        if !self.pass.has_turn(place) {
            self.live.enter_slot(self.rt, &mut self.pass, place);
        }
    }

    fn take(&mut self, slot: u32) -> Local {
        self.replace(slot, Local::dead())
    }

    fn put(&mut self, slot: u32, value: Local) {
        self.replace(slot, value);
    }

    fn receive(&mut self, slot: u32, packet: &Packet) -> Inbound {
        let mut local = self.replace(slot, Local::dead());
        let answer = local.inbound_settled(packet);
        self.replace(slot, local);
        answer
    }

    fn send(&mut self, slot: u32, len: u32) -> Outbound {
        let mut local = self.replace(slot, Local::dead());
        let answer = local.outbound_settled(len);
        self.replace(slot, local);
        answer
    }

    fn event(&mut self, slot: u32, now: u64) -> Option<Event> {
        let local = self.replace(slot, Local::dead());
        let event = local.event(now);
        self.replace(slot, local);
        event
    }

    fn age(&mut self, slot: u32, now: u64) {
        let mut local = self.replace(slot, Local::dead());
        local.age(now);
        self.replace(slot, local);
    }

    fn state_freed(&mut self, _slot: u32) {}

    ghost kept = { λ x y same. same };

    ghost kept_hidden = { λ x y same. refl };
}
