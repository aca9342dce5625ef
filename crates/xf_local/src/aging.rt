//! What the passing of time does to a value. Times are in seconds.
ghost use Rattle.std.specs.Prelude.{◌≡◌};
ghost use Rattle.xf_local.specs.View.{aged, event_of};

use crate::local::Local;
use xf_types::Event;

impl Local {
    /// What a tick to this time reports of the state.
    pub fn event(&self, now: u64) -> Option<Event>
        ensures { result ≡ event_of now self.now }
    {
        match &self.live {
            None => None,
            Some(live) => live.held.event(now),
        }
    }

    /// What a tick to this time makes of the value.
    pub fn age(&mut self, now: u64)
        ensures { self.new ≡ aged now self.old }
    {
        match &mut self.live {
            None => {}
            Some(live) => {
                if live.held.ends(now) {
                    self.live = None;
                } else {
                    live.held.age(now);
                    live.time = now;
                }
            }
        }
    }
}
