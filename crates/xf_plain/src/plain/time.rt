//! The passing of time.
ghost use Rattle.std.specs.Prelude.{◌≡◌, ◌≢◌, IfOk, false};

use super::Plain;
use crate::aging;
use xf_types::{Event, Events, NoMemory, Reply};

impl Plain {
    ghost use Rattle.xf_types.specs.Machine.{outcome};
    ghost use Rattle.xf_types.specs.History.{is_contended};
    ghost use Rattle.xf_types.specs.TickRules.{events_at, tick};

    /// What is reported at a time: policies first, then states.
    fn events_at(&self, now: u64) -> Result<Vec<Event>, NoMemory>
        ensures { IfOk result (λ v. v.items ≡ events_at self.now now) }
    {
        let mut events = Vec::new(*self.policies.allocator());
        aging::report_policies(&self.policies, now, &mut events)?;
        self.states.report(now, &mut events)?;
        Ok(events)
    }

    #[inline(never)]
    pub(super) fn tick(&mut self, given: u64) -> Reply
        ensures answer { result ≢ Reply.NoMemory → outcome result self.new ≡ tick self.old given }
        ensures memory { result ≡ Reply.NoMemory → self.new ≡ self.old }
        ensures settled { is_contended result ≡ false }
    {
        let now = self.time.max(given);
        match self.events_at(now) {
            Err(_) => Reply::NoMemory,
            Ok(events) => {
                aging::age_policies(&mut self.policies, now);
                self.states.age(now);
                self.time = now;
                Reply::Ticked {
                    now,
                    events: Events::new(events),
                }
            }
        }
    }
}
