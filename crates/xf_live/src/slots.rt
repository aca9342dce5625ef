//! Slots' turns, and the values under them.
ghost use Rattle.std.specs.Prelude.{◌≡◌, ℕ, ◌+◌, ◌-◌, ◌<◌, ◌≤◌, true, Some, None, ◌∷◌, length, MatchBool, slice_index, vec_len, vec_capacity};
ghost use Rattle.xf_views.specs.Views.{view_after_miss, view_after_give};
ghost use Rattle.xf_seats.specs.Opened.{slots_of};
ghost use Rattle.xf_live.specs.Passes.{IsHere, knowing, holding};
ghost use Rattle.xf_live.specs.Calls.{Took, MayTake, Returns};
ghost use Rattle.xf_cells.specs.Frees.{is_among};
ghost use Rattle.xf_live.specs.Values.{home_at, rotated, with_home, without};

use crate::front::put_first;
use crate::live::Live;
use crate::pass::Pass;
use crossbeam_utils::Backoff;
use std::sync::Wait;
use xf_seats::Meaning;
use xf_table as steps;
use xf_table::Place;

impl<T: Meaning> Live<T> {
    /// Takes a slot's turn, and its value with it. False where another pass has it.
    pub fn take_turn(&self, pass: &mut Pass<T>, slot: u32) -> bool
        requires table { IsHere self.now pass.old }
        requires row { MayTake (slots_of self.now.start) pass.old slot }
        ensures table { IsHere self.now pass.new }
        ensures row { MatchBool result (Took T.good T.lists T.standing pass.old slot pass.new) (pass.new ≡ knowing pass.old (view_after_miss pass.old.view)) }
    {
        let worker = pass.number;
        if !steps::take_turn(&self.table, &mut pass.seat, slot as usize, worker) {
            return false;
        }
        put_first(&mut pass.held, slot);
        true
    }

    /// Waits for a slot's turn.
    pub fn enter_slot<R: Wait>(&self, rt: &R, pass: &mut Pass<T>, slot: u32)
        requires table { IsHere self.now pass.old }
        requires row { MayTake (slots_of self.now.start) pass.old slot }
        ensures table { IsHere self.now pass.new }
        ensures row { Took T.good T.lists T.standing pass.old slot pass.new }
    {
        let backoff = Backoff::new();
        for _ in rt.forever() {
            if self.take_turn(pass, slot) {
                return;
            }
            backoff.snooze();
        }
        unreachable!()
    }

    /// Gives a slot's turn back, with its value.
    pub fn give_turn(&self, pass: &mut Pass<T>, slot: u32)
        requires table { IsHere self.now pass.old }
        requires row { Returns T.standing pass.old slot }
        ensures table { IsHere self.now pass.new }
        ensures row { pass.new ≡ record pass.old { view = view_after_give pass.old.view slot; values = without pass.old.values slot } }
    {
        let place = place_of(pass.held.as_slice(), slot);
        turn_round(&mut pass.seat, place);
        steps::give_turn(&self.table, &mut pass.seat, slot as usize);
        pass.held.remove(place);
        turn_round(&mut pass.seat, pass.held.len() - place);
    }

    /// The value out of a slot whose turn is held.
    pub fn value_out(&self, pass: &mut Pass<T>, slot: u32) -> T
        requires table { IsHere self.now pass.old }
        requires home { (value : T) × (home_at pass.old.values slot ≡ Some (Some value)) }
        ensures table { IsHere self.now pass.new }
        ensures value { home_at pass.old.values slot ≡ Some (Some result) }
        ensures row { pass.new ≡ holding pass.old (with_home pass.old.values slot None) }
    {
        let place = place_of(pass.held.as_slice(), slot);
        turn_round(&mut pass.seat, place);
        let value = steps::value_out(&self.table, &mut pass.seat, slot as usize);
        turn_round(&mut pass.seat, pass.held.len() - place);
        value
    }

    /// A value into a slot whose turn is held and whose value is out.
    pub fn value_in(&self, pass: &mut Pass<T>, slot: u32, value: T)
        requires table { IsHere self.now pass.old }
        requires out { home_at pass.old.values slot ≡ Some None }
        ensures table { IsHere self.now pass.new }
        ensures row { pass.new ≡ holding pass.old (with_home pass.old.values slot (Some value)) }
    {
        let place = place_of(pass.held.as_slice(), slot);
        turn_round(&mut pass.seat, place);
        steps::value_in(&self.table, &mut pass.seat, slot as usize, value);
        turn_round(&mut pass.seat, pass.held.len() - place);
    }
}

/// The place at which a slot stands in the list.
#[tactic(auto, using(crate::proofs::Parting::further_on, crate::proofs::Parting::none_behind))]
fn place_of(held: &[u32], slot: u32) -> usize
    requires { is_among slot held.now ≡ true }
    ensures { (result < length held.now) × (slice_index held.now result ≡ slot) }
{
    for (place, other) in held.iter().enumerate() {
        if *other == slot {
            return place;
        }
    }
    unreachable!()
}

/// The first slots of a seat go behind its others. That is for the proof alone: a seat has no bytes.
#[tactic(auto, using(crate::proofs::Rounds::turned_once))]
fn turn_round<T>(seat: &mut Place<T>, count: usize)
    requires { count ≤ length seat.old.me.1 }
    ensures seat { (seat.new.table_id ≡ seat.old.table_id) × (seat.new.id ≡ seat.old.id) }
    ensures me { seat.new.me ≡ (seat.old.me.0, rotated count seat.old.me.1) }
{
    let mut i = 0;
    while i < count {
        seat.turn();
        i += 1;
    }
}
