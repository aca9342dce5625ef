//! The state list as a whole: made of its parts, copied, and what another list lacks of it.
ghost use Rattle.std.specs.Prelude.{◌≡◌, ◌≢◌, ◌<◌, ◌≤◌, ◌∷◌, ◌++◌, [], not, AllPairs, IfOk, count_by, length, map, vec_capacity};
ghost use Rattle.std.specs.List.{AllZip, list_any};
ghost use Rattle.xf_held.specs.View.{FitsRecord, held as held_of, own_shown};
ghost use Rattle.xf_states.specs.Table.{zipped};
ghost use Rattle.xf_types.specs.StateList.{has_sid};

use crate::StateTable;
use std::alloc::Global;
use xf_held::Held;
use xf_replay::Own;
use xf_types::{NoMemory, Sa};

impl StateTable {
    /// The states with these records and own parts, in the room.
    pub fn of(states: &[Sa], own: Vec<Own>, room: Vec<Held>) -> StateTable
        requires empty { room.items ≡ [] }
        requires room { length states.now ≤ vec_capacity room }
        requires apart { AllPairs (λ x y. x.sid ≢ y.sid) states.now }
        requires fits { AllZip FitsRecord states.now own.items }
        ensures { result ≡ record { states = states.now; own = map own_shown own.items } }
    {
        let mut held = room;
        join(&mut held, states, own);
        StateTable { held }
    }

    /// The same states.
    pub fn copy(&self) -> Result<StateTable, NoMemory>
        ensures { IfOk result (λ t. t ≡ self.now) }
    {
        Ok(StateTable {
            held: copies(*self.held.allocator(), &self.held)?,
        })
    }

    /// Whether a state has this state id.
    pub fn has_sid(&self, sid: u64) -> bool
        ensures { result ≡ list_any (has_sid sid) self.now.states }
    {
        any_has_sid(&self.held, sid)
    }

    /// How many of the states have no state id of the other list.
    pub fn count_gone(&self, later: &StateTable) -> usize
        ensures { result ≡ count_by (λ s. not (list_any (has_sid s.sid) later.now.states)) self.now.states }
    {
        self.held
            .iter()
            .filter(|h| !later.has_sid(h.state().sid))
            .count()
    }
}

/// Puts the states with these records and own parts behind those so far.
fn join(held: &mut Vec<Held>, states: &[Sa], own: Vec<Own>)
    requires empty { held.old.items ≡ [] }
    requires room { length states.now ≤ vec_capacity held.old }
    requires fits { AllZip FitsRecord states.now own.items }
    ensures { held.new.items ≡ zipped states.now own.items }
{
    for own in own {
        let state = &states[held.len()];
        put(held, state, own);
    }
}

/// Puts the state with this record and own part behind those so far.
fn put(held: &mut Vec<Held>, state: &Sa, own: Own)
    requires room { length held.old.items < vec_capacity held.old }
    requires fits { FitsRecord state.now own }
    ensures items { held.new.items ≡ held.old.items ++ held_of state.now (own_shown own) ∷ [] }
    ensures capacity { vec_capacity held.old ≤ vec_capacity held.new }
{
    match held.push(Held::from_parts(state, own)) {
        Ok(()) => {}
        Err(_) => unreachable!(),
    }
}

/// The same states once more.
fn copies(alloc: Global, held: &[Held]) -> Result<Vec<Held>, NoMemory>
    ensures { IfOk result (λ v. v.items ≡ held.now) }
{
    let mut copies = Vec::new(alloc);
    for one in held {
        if copies.push(one.copy()?).is_err() {
            return Err(NoMemory);
        }
    }
    Ok(copies)
}

fn any_has_sid(held: &[Held], sid: u64) -> bool
    ensures { result ≡ list_any (λ h. has_sid sid h.state) held.now }
{
    held.iter().any(|h| h.state().sid == sid)
}
