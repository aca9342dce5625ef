//! The table with its sizes.
ghost use Rattle.std.specs.Prelude.{◌≡◌, ◌+◌, ◌≤◌, ◌<◌, ◌^◌, length};

use crate::rule::Base;
use xf_seats::Meaning;

/// An atomic table of four numbers, a pin word for each seat, image words, and a turn word and a value for each slot.
pub struct Table<T: Meaning> {
    pub base: Base<T>,
    pub seats: usize,
    pub count: usize,
    pub slots: usize,
    pub ghost seats_are: { base.shared.key.seats ≡ seats },
    pub ghost count_is: { length base.shared.key.words.value.items ≡ count },
    pub ghost slots_are: { base.shared.key.policies + base.shared.key.states ≡ slots },
    pub ghost words_are: { base.shared.table_id.words ≡ ((slots + count) + seats) + 4 },
    pub ghost values_are: { base.shared.table_id.slots ≡ slots },
    pub ghost fits: { ((slots + count) + seats) + 4 < 2 ^ 63 },
}
