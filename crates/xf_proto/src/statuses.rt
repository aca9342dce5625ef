//! Which status a slot may get.
ghost use Rattle.std.specs.Prelude.{◌≡◌, ◌<◌, ◌==◌, drop, find, option_copied, length};
ghost use Rattle.xf_proto.specs.Statuses.{is_clear, are_clear, may_become, may_store};
ghost use Rattle.xf_views.specs.Hands.{loaded_before, loaded_since};

use crate::seat::Seat;
use crate::state::State;

impl State {
    /// Whether this word may be stored.
    pub(crate) fn may_store(&self, seat: &Seat, place: u32, value: u64) -> bool
        requires { place < length self.now.words }
        ensures { result ≡ may_store self.now seat.now.hand place value }
    {
        if (place as usize) < self.turns.len() {
            self.may_become(seat, place as u64, self.words[place as usize], value)
        } else {
            true
        }
    }

    /// Whether the status of a slot may become this.
    fn may_become(&self, seat: &Seat, slot: u64, old: u64, new: u64) -> bool
        ensures { result ≡ may_become self.now seat.now.hand slot old new }
    {
        match old {
            0 => new == 1,
            1 => self.generation < u64::MAX && new == self.generation + 1,
            _ => new == 1 && are_clear(old, seat.loaded_since(slot), self.seats.len()),
        }
    }
}

impl Seat {
    /// The pin words loaded in this turn and since the slot was retired.
    fn loaded_since(&self, slot: u64) -> &[(u64, u64)]
        ensures { result.now ≡ loaded_since slot self.now.hand }
    {
        since(self.loaded.as_slice(), self.loaded_before(slot))
    }

    fn loaded_before(&self, slot: u64) -> u64
        ensures { result ≡ loaded_before slot self.now.hand.retired }
    {
        match find_retired(self.retired.as_slice(), slot) {
            None => 0,
            Some(retired) => retired.1,
        }
    }
}

/// The last retirement of the slot in this turn.
fn find_retired(retired: &[(u64, u64)], slot: u64) -> Option<&(u64, u64)>
    ensures { option_copied result ≡ find (λ m. m.0 == slot) retired.now }
{
    retired.iter().find(|one| one.0 == slot)
}

/// The rest of the list from this place on.
fn since(loaded: &[(u64, u64)], start: u64) -> &[(u64, u64)]
    ensures { result.now ≡ drop start loaded.now }
{
    if start <= loaded.len() as u64 {
        &loaded[start as usize..]
    } else {
        &loaded[loaded.len()..]
    }
}

/// Whether one of each seat below this number is clear.
fn are_clear(retired: u64, pins: &[(u64, u64)], seats: usize) -> bool
    ensures { result ≡ are_clear retired pins.now seats }
{
    if seats == 0 {
        return true;
    }
    is_clear(retired, pins, seats as u64 - 1) && are_clear(retired, pins, seats - 1)
}

/// Whether a pin word of this seat is among them that is 0 or later than the retirement.
fn is_clear(retired: u64, pins: &[(u64, u64)], seat: u64) -> bool
    ensures { result ≡ is_clear retired pins.now seat }
{
    pins.iter()
        .any(|pin| pin.0 == seat && (pin.1 == 0 || retired < pin.1))
}
