//! One state's changing part.
ghost use Rattle.std.specs.Prelude.{◌≡◌, ◌≤◌, IfSome, IsTrue, Some, option_copied};
ghost use Rattle.std.specs.Option.{option_map};
ghost use Rattle.xf_held.specs.View.{own_shown};
ghost use Rattle.xf_life.specs.Shown.{shown};
ghost use Rattle.xf_local.specs.View.{Dead, Live, is_live, new_live, renewed, at_time, MayHave, FitsValue, own_part, due_of};

use crate::listed::Listed;
use std::marker::Model;
use xf_held::Held;
use xf_life::Verdict;
use xf_replay::{Own, Window};
use xf_types::{Sa, Stands};

/// One state's changing part with a copy of its record, or a dead one: that of a state that isn't listed.
#[derive(Debug, Drop)]
pub struct Local {
    pub(crate) live: Option<Listed>,
}

impl Model for Local {
    ghost use Rattle.xf_local.specs.View.{LocalView};
    ghost use Rattle.xf_local.specs.Shown.{local_of};

    ghost Value = { LocalView };

    ghost view = { λ l. local_of l.live };
}

impl Stands for Local {
    ghost use Rattle.xf_local.specs.View.{standing_of};

    ghost standing = { standing_of };
}

impl Local {
    /// A dead value.
    pub fn dead() -> Local
        ensures { result ≡ Dead }
    {
        Local { live: None }
    }

    /// The value of a state that carried nothing yet, at this time.
    pub fn new(state: &Sa, window: Window, now: u64) -> Local
        requires { window.size ≡ state.now.spec.window }
        ensures { result ≡ Live (new_live state.now window.accepted now) }
    {
        let own = Own {
            window,
            out: state.spec.out_seq,
            packets: 0,
            bytes: 0,
            first: None,
        };
        Local {
            live: Some(Listed {
                held: Held::from_parts(state, own),
                time: now,
            }),
        }
    }

    /// Replaces the copy of the record.
    pub fn renew(&mut self, state: &Sa)
        requires { MayHave self.old state.now }
        ensures { self.new ≡ renewed state.now self.old }
    {
        match &mut self.live {
            None => unreachable!(),
            Some(live) => live.held.renew(state),
        }
    }

    /// Sets the time.
    pub fn set_now(&mut self, now: u64)
        requires { IsTrue (is_live self.old) }
        ensures { self.new ≡ at_time now self.old }
    {
        match &mut self.live {
            None => unreachable!(),
            Some(live) => live.time = now,
        }
    }

    /// What the state's limits of time and use say of it at its time.
    pub fn due(&self) -> Verdict
        requires { IsTrue (is_live self.now) }
        ensures { Some (shown result) ≡ due_of self.now }
    {
        match &self.live {
            None => unreachable!(),
            Some(live) => live.held.due(live.time),
        }
    }

    /// The state's own part; none where the value is dead.
    pub fn own(&self) -> Option<&Own>
        ensures part { option_map own_shown (option_copied result) ≡ own_part self.now }
        ensures fits { IfSome result (λ own. FitsValue self.now own.now) }
    {
        match &self.live {
            None => None,
            Some(live) => Some(live.held.own()),
        }
    }
}
