//! The table.
ghost use Rattle.std.specs.Prelude.{◌≡◌, ℕ, ◌+◌, ◌≤◌, List, [], length, vec_capacity};

use std::marker::Model;
use xf_seats::Meaning;
use xf_table::Table;
use xf_types::Receipt;

/// Four numbers, a pin word for each seat, image words, and a turn and a value for each slot, shared by its passes. The slots of policies
/// come first.
pub struct Live<T: Meaning> {
    pub(crate) table: Table<T>,
    pub(crate) seats: u32,
    pub(crate) count: u32,
    pub(crate) slots: u32,
    // The room for what `close` gives.
    pub(crate) words: Vec<u64>,
    pub(crate) values: Vec<T>,
    pub(crate) lists: Vec<Vec<Receipt>>,
    ghost seats_are: { table.seats ≡ seats },
    ghost count_is: { table.count ≡ count },
    ghost slots_are: { table.slots ≡ slots },
    ghost some_seat: { 1 ≤ seats },
    ghost empty: { (words.items ≡ []) × (values.items ≡ []) × (lists.items ≡ []) },
    ghost rooms: { (count ≤ vec_capacity words) × (slots ≤ vec_capacity values) × (seats ≤ vec_capacity lists) },
}

impl<T: Meaning> Model for Live<T> {
    ghost use Rattle.xf_live.specs.Passes.{LiveView};

    ghost Value = { LiveView };

    ghost use Rattle.xf_table.specs.Tables.{id_of, first_of};

    ghost view = { λ l. record { table = id_of l.table; start = first_of T.standing l.table; count = l.count } };
}

impl<T: Meaning> Live<T> {
    /// How many image words there are.
    pub fn size(&self) -> u32
        ensures { result ≡ self.now.count }
    {
        self.count
    }
}
