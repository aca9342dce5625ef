//! A state taken from its parts, read, and given a new record.
ghost use Rattle.std.specs.Prelude.{◌≡◌, IfOk};
ghost use Rattle.xf_held.specs.View.{held, own_shown, FitsRecord, KeepsNumbers};
ghost use Rattle.xf_life.specs.Shown.{shown};
ghost use Rattle.xf_types.specs.Lifetime.{by_time};

use crate::held::Held;
use xf_life::Verdict;
use xf_replay::Own;
use xf_types::{NoMemory, Sa};

impl Held {
    /// The state with this record and this own part.
    pub fn from_parts(state: &Sa, own: Own) -> Held
        requires { FitsRecord state.now own }
        ensures { result ≡ held state.now (own_shown own) }
    {
        Held { state: *state, own }
    }

    /// A second state with the same record and own part.
    pub fn copy(&self) -> Result<Held, NoMemory>
        ensures { IfOk result (λ h. h ≡ self.now) }
    {
        let window = match self.own.window.copy() {
            Ok(window) => window,
            Err(_) => return Err(NoMemory),
        };
        Ok(Held {
            state: self.state,
            own: Own {
                window,
                out: self.own.out,
                packets: self.own.packets,
                bytes: self.own.bytes,
                first: self.own.first,
            },
        })
    }

    /// The state's own part.
    pub fn own(&self) -> &Own
        ensures part { own_shown result.now ≡ self.now.own }
        ensures fits { FitsRecord self.now.state result.now }
    {
        &self.own
    }

    /// Replaces the record. Its window and its kind of numbers stay.
    pub fn renew(&mut self, state: &Sa)
        requires { KeepsNumbers self.old.state state.now }
        ensures { self.new ≡ held state.now self.old.own }
    {
        self.state = *state;
    }

    /// What the state's limits of time and use say of it.
    pub fn due(&self, now: u64) -> Verdict
        ensures { shown result ≡ by_time self.now.state.spec.limits self.now.state.added self.now.own.first_use now }
    {
        xf_life::by_time(
            &self.state.spec.limits,
            self.state.added,
            self.own.first,
            now,
        )
    }
}
