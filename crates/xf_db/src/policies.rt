//! Calls that change the policies. Each records one receipt, or nothing where the pass has drawn too often.
ghost use Rattle.std.specs.Prelude.{◌≤◌};
ghost use Rattle.xf_types.specs.declared.call.Call.TheVariants as call;
ghost use Rattle.xf_db.specs.Calls.{Calls};
ghost use Rattle.xf_db.specs.Passes.{IsOf};

use crate::database::{MOST, Worn, Xfrm};
use crate::pass::Pass;
use std::sync::Wait;
use xf_opening::Sizes;
use xf_types::{Place, PolicySpec, Thresholds};

impl Xfrm {
    /// Sets the thresholds.
    #[tactic(auto, using(crate::proofs::Runs::table_of, crate::proofs::Runs::rests_from, crate::proofs::Runs::rests_again, crate::proofs::Runs::records))]
    pub fn policy_set<R: Wait>(
        &self,
        rt: &R,
        pass: &mut Pass,
        at: Place,
        thresholds: Thresholds,
    ) -> Result<(), Worn>
        requires is_of { IsOf self.now pass.old }
        requires spare { 1 ≤ pass.old.spare }
        ensures { Calls at (call.PolicySet thresholds) pass.old pass.new result }
    {
        if pass.drawn() >= MOST {
            return Err(Worn);
        }
        let Some(seat) = pass.seat.take() else {
            unreachable!()
        };
        let Sizes { policies, states } = self.sizes;
        pass.seat = Some(xf_serve::policy_set(
            &self.live, rt, seat, policies, states, at, thresholds,
        ));
        Ok(())
    }

    /// Adds a policy.
    #[tactic(auto, using(crate::proofs::Runs::table_of, crate::proofs::Runs::rests_from, crate::proofs::Runs::rests_again, crate::proofs::Runs::records))]
    pub fn policy_add<R: Wait>(
        &self,
        rt: &R,
        pass: &mut Pass,
        at: Place,
        spec: PolicySpec,
    ) -> Result<(), Worn>
        requires is_of { IsOf self.now pass.old }
        requires spare { 1 ≤ pass.old.spare }
        ensures { Calls at (call.PolicyAdd spec) pass.old pass.new result }
    {
        if pass.drawn() >= MOST {
            return Err(Worn);
        }
        let Some(seat) = pass.seat.take() else {
            unreachable!()
        };
        let Sizes { policies, states } = self.sizes;
        pass.seat = Some(xf_serve::policy_add(&self.live, rt, seat, policies, states, at, spec));
        Ok(())
    }
}
