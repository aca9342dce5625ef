//! The turn of the database, and the image words under it.
ghost use Rattle.std.specs.Prelude.{◌≡◌, ℕ, ◌+◌, ◌%◌, ◌^◌, ◌<◌, ◌≤◌, true, false, length, slice_index, OnOk};
ghost use Rattle.xf_views.specs.Views.{view_after_ticket, view_after_leave, view_after_begin, view_after_finish, view_after_store};
ghost use Rattle.xf_seats.specs.Opened.{slots_of};
ghost use Rattle.xf_table.specs.Rows.{MayTicket, MayLook, IsShut, IsOpen, IsDrawn};
ghost use Rattle.xf_live.specs.Passes.{IsHere, IsKept, knowing, me_of};
ghost use Rattle.xf_table.specs.Plays.{Looked};
ghost use Rattle.xf_live.specs.Calls.{Entered, loading};

use crate::live::Live;
use crate::pass::Pass;
use crossbeam_utils::Backoff;
use std::sync::Wait;
use xf_seats::Meaning;
use xf_table as steps;
use xf_types::NoMemory;

impl<T: Meaning> Live<T> {
    /// Room for so many receipts more.
    pub fn reserve(&self, pass: &mut Pass<T>, places: u32) -> Result<(), NoMemory>
        requires table { IsHere self.now pass.old }
        ensures table { IsHere self.now pass.new }
        ensures stays { pass.new ≡ record pass.old { room = pass.new.room } }
        ensures grows { pass.old.room ≤ pass.new.room }
        ensures room { OnOk result (length pass.new.view.knows.mine + places ≤ pass.new.room) }
    {
        pass.widen(places)
    }

    /// Draws a ticket of the turn.
    fn draw_ticket(&self, pass: &mut Pass<T>) -> u64
        requires table { IsHere self.now pass.old }
        requires row { MayTicket pass.old.view }
        ensures table { IsHere self.now pass.new }
        ensures row { pass.new ≡ knowing pass.old (view_after_ticket pass.old.view result) }
    {
        let ticket = steps::take_ticket(&self.table, &mut pass.seat);
        pass.drawn += 1;
        ticket
    }

    /// The ticket that is served: who holds it has the turn from now on.
    fn look_serving(&self, pass: &mut Pass<T>) -> u64
        requires table { IsHere self.now pass.old }
        requires row { MayLook pass.old.view }
        ensures table { IsHere self.now pass.new × IsKept pass.old pass.new }
        ensures row { Looked T.good T.lists result (me_of pass.old) (me_of pass.new) }
    {
        steps::look_serving(&self.table, &mut pass.seat)
    }

    /// Waits for the turn.
    #[tactic(auto, using(crate::proofs::Entering::waits))]
    pub fn enter_turn<R: Wait>(&self, rt: &R, pass: &mut Pass<T>)
        requires table { IsHere self.now pass.old }
        requires free { pass.old.view.hand.has_turn ≡ false }
        requires row { MayTicket pass.old.view }
        ensures table { IsHere self.now pass.new }
        ensures row { Entered T.good T.lists pass.old pass.new }
    {
        let ticket = self.draw_ticket(pass);
        let backoff = Backoff::new();
        for _ in rt.forever() {
            if self.look_serving(pass) == ticket {
                return;
            }
            backoff.snooze();
        }
        unreachable!()
    }

    /// Gives the turn back.
    pub fn leave_turn(&self, pass: &mut Pass<T>)
        requires table { IsHere self.now pass.old }
        requires row { IsShut pass.old.view }
        ensures table { IsHere self.now pass.new }
        ensures row { pass.new ≡ knowing pass.old (view_after_leave pass.old.view) }
    {
        steps::leave(&self.table, &mut pass.seat);
    }

    /// Begins to change the image: the generation gets odd. Gives the generation that it made.
    pub fn begin(&self, pass: &mut Pass<T>) -> u64
        requires table { IsHere self.now pass.old }
        requires row { IsShut pass.old.view }
        ensures table { IsHere self.now pass.new }
        ensures row { pass.new ≡ knowing pass.old (view_after_begin pass.old.view) }
        ensures generation { (result % 2 ≡ 1) × (result < 2 ^ 62) }
    {
        steps::begin(&self.table, &mut pass.seat)
    }

    /// Ends the change, whose number was drawn: the generation gets even.
    pub fn finish(&self, pass: &mut Pass<T>)
        requires table { IsHere self.now pass.old }
        requires row { IsDrawn pass.old.view }
        ensures table { IsHere self.now pass.new }
        ensures row { pass.new ≡ knowing pass.old (view_after_finish pass.old.view) }
    {
        steps::finish(&self.table, &mut pass.seat);
    }

    /// Replaces an image word.
    pub fn store(&self, pass: &mut Pass<T>, place: u32, value: u64)
        requires table { IsHere self.now pass.old }
        requires place { place < self.now.count }
        requires row { IsOpen pass.old.view }
        ensures table { IsHere self.now pass.new }
        ensures row { pass.new ≡ knowing pass.old (view_after_store (slots_of self.now.start) pass.old.view place value) }
    {
        steps::store(&self.table, &mut pass.seat, place as usize, value);
    }

    /// An image word. With the turn it is that of the image that the pass knows.
    pub fn load(&self, pass: &mut Pass<T>, place: u32) -> u64
        requires table { IsHere self.now pass.old }
        requires place { place < self.now.count }
        ensures table { IsHere self.now pass.new }
        ensures row { pass.new ≡ loading pass.old place result }
        ensures turn { pass.old.view.hand.has_turn ≡ true → result ≡ slice_index pass.old.view.image.words place }
    {
        pass.loads = pass.loads.saturating_add(1);
        steps::load(&self.table, &mut pass.seat, place as usize)
    }
}
