//! Numbers of the draw word, and the receipts that come to stand at them.
ghost use Rattle.std.specs.Prelude.{◌≡◌, ℕ, ◌+◌, ◌<◌, [], ◌∷◌, ◌++◌, length, vec_len, vec_capacity};
ghost use Rattle.xf_views.specs.Log.{receipt};
ghost use Rattle.xf_table.specs.Rows.{MayMove, MayStay, IsHonestMove, IsHonestStay};
ghost use Rattle.xf_table.specs.Plays.{Moved, Stayed};
ghost use Rattle.xf_live.specs.Passes.{IsHere, IsKept, me_of};

use crate::live::Live;
use crate::pass::Pass;
use std::marker::Brand;
use xf_seats::Meaning;
use xf_table as steps;
use xf_types::Receipt;
use xf_views::Entry;

impl<T: Meaning> Live<T> {
    /// Draws and records a call that changed the image. Its number is greater than those of all moves before it.
    pub fn draw_moving(&self, pass: &mut Pass<T>, entry: Entry) -> u64
        requires table { IsHere self.now pass.old }
        requires row { MayMove pass.old.view entry }
        requires honest { IsHonestMove T.bucket_of T.good T.lists pass.old.view entry }
        requires spare { length pass.old.view.knows.mine < pass.old.room }
        ensures table { IsHere self.now pass.new × IsKept pass.old pass.new }
        ensures row { Moved T.good T.lists entry result (me_of pass.old) (me_of pass.new) }
    {
        let number = steps::draw_moving::<T, Brand>(&self.table, &mut pass.seat, &entry);
        pass.drawn += 1;
        note(&mut pass.receipts, number, pass.number, entry);
        number
    }

    /// Draws and records a call that leaves the image as it is.
    pub fn draw_still(&self, pass: &mut Pass<T>, entry: Entry) -> u64
        requires table { IsHere self.now pass.old }
        requires row { MayStay pass.old.view entry }
        requires honest { IsHonestStay T.bucket_of T.good T.lists pass.old.view entry }
        requires spare { length pass.old.view.knows.mine < pass.old.room }
        ensures table { IsHere self.now pass.new × IsKept pass.old pass.new }
        ensures row { Stayed T.good T.lists entry result (me_of pass.old) (me_of pass.new) }
    {
        let number = steps::draw_still::<T, Brand>(&self.table, &mut pass.seat, &entry);
        pass.drawn += 1;
        note(&mut pass.receipts, number, pass.number, entry);
        number
    }
}

/// Keeps a receipt.
fn note(receipts: &mut Vec<Receipt>, number: u64, worker: u32, entry: Entry)
    requires { vec_len receipts.old < vec_capacity receipts.old }
    ensures items { receipts.new.items ≡ receipts.old.items ++ receipt number worker entry ∷ [] }
    ensures room { vec_capacity receipts.new ≡ vec_capacity receipts.old }
{
    let Entry { at, call, reply } = entry;
    receipts.push_reserved(Receipt {
        number,
        worker,
        at,
        call,
        reply,
    });
}
