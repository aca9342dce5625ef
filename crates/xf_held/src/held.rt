//! A state with what it keeps for itself.
ghost use Rattle.std.specs.Prelude.{◌≡◌, IfOk};
ghost use Rattle.xf_life.specs.Shown.{shown};
ghost use Rattle.xf_held.specs.View.{new_held};
ghost use Rattle.xf_types.specs.TrafficRules.{verdict_at, charged};
ghost use Rattle.xf_types.specs.StateRules.{refreshed_record};

use std::alloc::Global;
use std::marker::Model;
use xf_life::{Verdict, verdict};
use xf_replay::{Own, Window};
use xf_types::{NoMemory, Sa, SaSpec};

/// A state as it is listed, and its own part.
#[derive(Debug, Drop)]
pub struct Held {
    pub(crate) state: Sa,
    pub(crate) own: Own,
}

impl Model for Held {
    ghost use Rattle.std.specs.Prelude.{◌≡◌};
    ghost use Rattle.xf_held.specs.View.{HeldView, held, own_shown, FitsRecord};

    ghost Value = { HeldView };

    ghost view = { λ h. held h.state (own_shown h.own) };

    ghost invariant = { λ h. FitsRecord h.state h.own };
}

impl Held {
    ghost use Rattle.xf_held.specs.View.{held};

    /// A new state in use, which has accepted and sent the numbers that the request gives.
    pub fn new(alloc: Global, sid: u64, added: u64, spec: &SaSpec) -> Result<Held, NoMemory>
        ensures { IfOk result (λ h. h ≡ new_held sid added spec.now) }
    {
        let window = match Window::new(alloc, spec.window, spec.in_seq) {
            Ok(window) => window,
            Err(_) => return Err(NoMemory),
        };
        Ok(Held {
            state: Sa {
                sid,
                added,
                larval: false,
                dying: false,
                spec: *spec,
            },
            own: Own {
                window,
                out: spec.out_seq,
                packets: 0,
                bytes: 0,
                first: None,
            },
        })
    }

    /// The state's record.
    pub fn state(&self) -> &Sa
        ensures { result.now ≡ self.now.state }
    {
        &self.state
    }

    /// What the state's limits say of it.
    pub fn verdict(&self, now: u64) -> Verdict
        ensures { shown result ≡ verdict_at now self.now.state self.now.own }
    {
        let own = &self.own;
        verdict(
            &self.state.spec.limits,
            self.state.added,
            own.first,
            own.packets,
            own.bytes,
            now,
        )
    }

    /// Counts a packet of so many bytes. The counts stop at their greatest number.
    pub fn charge(&mut self, len: u32, now: u64)
        ensures { self.new ≡ held self.old.state (charged len now self.old.own) }
    {
        let own = &mut self.own;
        own.packets = own.packets.saturating_add(1);
        own.bytes = own.bytes.saturating_add(u64::from(len));
        if own.first.is_none() {
            own.first = Some(now);
        }
    }

    /// Takes over the limits of the request, and its selector where it has one.
    pub fn refresh(&mut self, spec: &SaSpec)
        ensures { self.new ≡ held (refreshed_record spec.now self.old.state) self.old.own }
    {
        self.state.refresh(spec);
    }
}
