//! A pass that has the database's turn, lent to a desk.
ghost use Rattle.std.specs.Prelude.{◌≡◌, false};
ghost use Rattle.xf_live.specs.Passes.{IsHere};
ghost use Rattle.xf_desk.specs.Lending.{AreSlots, IsLent, MayLend};

use crate::desk::Desk;
use std::marker::{Brand, PhantomData};
use xf_live::{Live, Pass};
use xf_values::StateValue;

/// Which table it is, and what the pass was when it was lent. Only proofs name it: a desk that comes back from a call is tied to its pass by it.
pub trait From {
    ghost use Rattle.xf_live.specs.Passes.{LiveView, PassView};
    ghost use Rattle.xf_values.specs.declared.state_value.StateValue.{StateValue};

    ghost live: { LiveView };

    ghost pass: { PassView StateValue };
}

impl From for Brand {
    ghost use Rattle.xf_desk.specs.Nothing.{no_live, no_pass};

    ghost live = { no_live };

    ghost pass = { no_pass };
}

/// Lends a pass that has the turn, with the numbers of slots of both lists.
pub fn lend<'a, R, B: From>(
    live: &'a Live<StateValue>,
    rt: &'a R,
    pass: Pass<StateValue>,
    policies: u32,
    states: u32,
) -> Desk<'a, R, B>
    requires said { (B.live ≡ live.now) × (B.pass ≡ pass) }
    requires slots { AreSlots live.now policies states }
    requires lent { MayLend live.now pass }
    ensures pass { result.pass ≡ pass }
    ensures shut { result.writing ≡ false }
{
    Desk {
        live,
        rt,
        pass,
        policies,
        states,
        writing: false,
        from: PhantomData,
    }
}

impl<'a, R, B: From> Desk<'a, R, B> {
    /// The pass, back from the desk.
    pub fn end(self) -> Pass<StateValue>
        ensures pass { result ≡ self.entry.pass }
        ensures here { IsHere B.live result }
        ensures lent { IsLent B.live.start.policies B.pass result self.entry.writing }
    {
        self.pass
    }
}
