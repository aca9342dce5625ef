//! A database that threads share.
ghost use Rattle.std.specs.Prelude.{◌≡◌, ◌≤◌, OnOk};
ghost use Rattle.xf_db.specs.Calls.{Calls};
ghost use Rattle.xf_db.specs.Passes.{HasRoom, IsOf};
ghost use Rattle.xf_serve.specs.Reading.{OnlyReads};

use crate::pass::Pass;
use std::alloc::Global;
use std::marker::Model;
use std::sync::Wait;
use xf_live::Live;
use xf_opening::Sizes;
use xf_serve::read;
use xf_types::{Call, NoMemory, Place};
use xf_values::StateValue;

/// The pass has drawn too often.
#[derive(Clone, Copy, PartialEq, Eq, Debug)]
pub struct Worn;

/// How many numbers and tickets a pass may have drawn before a call.
pub(crate) const MOST: u64 = 1 << 40;

/// A database that is open. A contract sees which one it is, the image that it was opened over, and how many passes it has.
pub struct Xfrm {
    pub(crate) live: Live<StateValue>,
    pub(crate) sizes: Sizes,
    // The room for the table's passes at the end.
    pub(crate) room: Vec<xf_live::Pass<StateValue>>,
}

impl Model for Xfrm {
    ghost use Rattle.std.specs.Prelude.{◌≡◌, ◌≤◌, [], vec_capacity};
    ghost use Rattle.xf_db.specs.Passes.{DatabaseView, IsBase, database_over};

    ghost Value = { DatabaseView };

    ghost view = { λ d. database_over d.live };

    ghost invariant = { λ d. IsBase d.sizes.policies d.sizes.states d.live
        × (d.room.items ≡ []) × (d.live.start.seats ≤ vec_capacity d.room) };
}

impl Xfrm {
    /// Makes room for so many receipts.
    pub fn reserve(&self, pass: &mut Pass, places: u32) -> Result<(), NoMemory>
        requires { IsOf self.now pass.old }
        ensures room { OnOk result (HasRoom places pass.old pass.new) }
        ensures stays { pass.new ≡ record pass.old { spare = pass.new.spare } }
        ensures grows { pass.old.spare ≤ pass.new.spare }
    {
        let Some(seat) = &mut pass.seat else {
            unreachable!()
        };
        self.live.reserve(seat, places)
    }

    /// Makes a call that only reads, and records its receipt. Nothing is recorded where the pass has drawn too often.
    #[tactic(auto, using(crate::proofs::Runs::table_of, crate::proofs::Runs::rests_from, crate::proofs::Runs::rests_again, crate::proofs::Runs::records))]
    pub fn read<R: Wait>(
        &self,
        rt: &R,
        alloc: Global,
        pass: &mut Pass,
        at: Place,
        call: Call,
    ) -> Result<(), Worn>
        requires is_of { IsOf self.now pass.old }
        requires spare { 1 ≤ pass.old.spare }
        requires reads { OnlyReads call }
        ensures { Calls at call pass.old pass.new result }
    {
        if pass.drawn() >= MOST {
            return Err(Worn);
        }
        let Some(seat) = pass.seat.take() else {
            unreachable!()
        };
        let Sizes { policies, states } = self.sizes;
        pass.seat = Some(read(alloc, &self.live, rt, seat, policies, states, at, call));
        Ok(())
    }
}
