ghost use Rattle.std.specs.Prelude.{◌≡◌, ◌<◌};
ghost use Rattle.xf_image.specs.Layout as layout;

use xf_chain::{Column, Family};

/// The words of the policies: their first place, and how many policies they have room for.
#[derive(Clone, Copy, Debug, PartialEq, Eq)]
pub struct PolicyArea {
    pub base: u32,
    pub slots: u32,
}

impl PolicyArea {
    /// Where the index counter stands, less 1.
    pub fn next_index_place(&self) -> u32
        requires { layout.IsArea self.now }
        ensures { result ≡ layout.next_index_place self.now }
    {
        self.base
    }

    /// Where the number of the next policy stands, less 1.
    pub fn next_number_place(&self) -> u32
        requires { layout.IsArea self.now }
        ensures { result ≡ layout.next_number_place self.now }
    {
        self.base + 1
    }

    /// The first of the four places where the thresholds stand, as what they lack to a whole address.
    pub fn thresholds_place(&self) -> u32
        requires { layout.IsArea self.now }
        ensures { result ≡ layout.thresholds_place self.now }
    {
        self.base + 2
    }

    /// Where it stands how many policies are listed.
    pub fn count_place(&self) -> u32
        requires { layout.IsArea self.now }
        ensures { result ≡ layout.count_place self.now }
    {
        self.base + 6
    }

    /// The chain of all policies.
    pub fn order(&self) -> Family
        requires { layout.IsArea self.now }
        ensures { result ≡ layout.order_of self.now }
    {
        Family {
            heads: self.base + 7,
            count: 1,
            links: self.base + 8,
            slots: self.slots,
        }
    }

    /// The chain of all policies, the last first.
    pub fn back(&self) -> Family
        requires { layout.IsArea self.now }
        ensures { result ≡ layout.back_of self.now }
    {
        Family {
            heads: self.base + 8 + self.slots,
            count: 1,
            links: self.base + 9 + self.slots,
            slots: self.slots,
        }
    }

    /// The chains of the policies that are found by exact match, by their hash.
    pub fn exact(&self) -> Family
        requires { layout.IsArea self.now }
        ensures { result ≡ layout.exact_of self.now }
    {
        Family {
            heads: self.base + 9 + 2 * self.slots,
            count: 1024,
            links: self.base + 1033 + 2 * self.slots,
            slots: self.slots,
        }
    }

    /// The chains of the policies by their index.
    pub fn indices(&self) -> Family
        requires { layout.IsArea self.now }
        ensures { result ≡ layout.indices_of self.now }
    {
        Family {
            heads: self.base + 1033 + 3 * self.slots,
            count: 1024,
            links: self.base + 2057 + 3 * self.slots,
            slots: self.slots,
        }
    }

    /// The priorities of the policies, each at its slot.
    pub fn priorities(&self) -> Column
        requires { layout.IsArea self.now }
        ensures { result ≡ layout.priorities_of self.now }
    {
        Column {
            start: self.base + 2057 + 4 * self.slots,
            slots: self.slots,
        }
    }

    /// The numbers of the policies, each at its slot.
    pub fn numbers(&self) -> Column
        requires { layout.IsArea self.now }
        ensures { result ≡ layout.numbers_of self.now }
    {
        Column {
            start: self.base + 2057 + 5 * self.slots,
            slots: self.slots,
        }
    }

    /// Where the priority of the policy in a slot stands.
    pub fn priority_place(&self, slot: u32) -> u32
        requires area { layout.IsArea self.now }
        requires slot { slot < self.now.slots }
        ensures { result ≡ layout.priority_place self.now slot }
    {
        self.base + 2057 + 4 * self.slots + slot
    }

    /// Where the number of the policy in a slot stands.
    pub fn number_place(&self, slot: u32) -> u32
        requires area { layout.IsArea self.now }
        requires slot { slot < self.now.slots }
        ensures { result ≡ layout.number_place self.now slot }
    {
        self.base + 2057 + 5 * self.slots + slot
    }

    /// Where the record of the policy in a slot begins.
    pub fn record_place(&self, slot: u32) -> u32
        requires area { layout.IsArea self.now }
        requires slot { slot < self.now.slots }
        ensures { result ≡ layout.record_place self.now slot }
    {
        self.base + 2057 + 6 * self.slots + 104 * slot
    }

    /// The first place behind these words.
    pub fn end(&self) -> u32
        requires { layout.IsArea self.now }
        ensures { result ≡ layout.end_of self.now }
    {
        self.base + 2057 + 110 * self.slots
    }
}
