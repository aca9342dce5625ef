ghost use Rattle.std.specs.Prelude.{◌≡◌, ◌<◌};
ghost use Rattle.xf_sadidx.specs.Layout as layout;

use crate::kind::Kind;
use xf_chain::Family;

/// The words of the states: their first place, and how many states they have room for.
#[derive(Clone, Copy, Debug, PartialEq, Eq)]
pub struct StateArea {
    pub base: u32,
    pub slots: u32,
}

impl StateArea {
    /// Where the acquire counter stands, less 1.
    pub fn next_seq_place(&self) -> u32
        requires { layout.IsArea self.now }
        ensures { result ≡ layout.next_seq_place self.now }
    {
        self.base
    }

    /// Where the id of the next state stands, less 1.
    pub fn next_sid_place(&self) -> u32
        requires { layout.IsArea self.now }
        ensures { result ≡ layout.next_sid_place self.now }
    {
        self.base + 1
    }

    /// Where it stands how many states are listed.
    pub fn count_place(&self) -> u32
        requires { layout.IsArea self.now }
        ensures { result ≡ layout.count_place self.now }
    {
        self.base + 2
    }

    /// The first of the two places where it stands how far the heads are doubled.
    pub fn doubling_place(&self) -> u32
        requires { layout.IsArea self.now }
        ensures { result ≡ layout.doubling_place self.now }
    {
        self.base + 5 + 2 * self.slots
    }

    /// The chain of all states, in the order of adding.
    pub fn order(&self) -> Family
        requires { layout.IsArea self.now }
        ensures { result ≡ layout.order_of self.now }
    {
        Family {
            heads: self.base + 3,
            count: 1,
            links: self.base + 4,
            slots: self.slots,
        }
    }

    /// The chain of all states, the last first.
    pub fn back(&self) -> Family
        requires { layout.IsArea self.now }
        ensures { result ≡ layout.back_of self.now }
    {
        Family {
            heads: self.base + 4 + self.slots,
            count: 1,
            links: self.base + 5 + self.slots,
            slots: self.slots,
        }
    }

    /// The chains of a kind.
    pub fn chains(&self, kind: Kind) -> Family
        requires { layout.IsArea self.now }
        ensures { result ≡ layout.chains_of self.now kind }
    {
        let (heads, links) = match kind {
            Kind::Spi => (7 + 2 * self.slots, 4103 + 2 * self.slots),
            Kind::Route => (4103 + 3 * self.slots, 8199 + 3 * self.slots),
            Kind::Seq => (8199 + 4 * self.slots, 12295 + 4 * self.slots),
        };
        Family {
            heads: self.base + heads,
            count: 4096,
            links: self.base + links,
            slots: self.slots,
        }
    }

    /// Where the record of the state in a slot begins.
    pub fn record_place(&self, slot: u32) -> u32
        requires area { layout.IsArea self.now }
        requires slot { slot < self.now.slots }
        ensures { result ≡ layout.record_place self.now slot }
    {
        self.base + 12295 + 5 * self.slots + 48 * slot
    }

    /// The first place behind these words.
    pub fn end(&self) -> u32
        requires { layout.IsArea self.now }
        ensures { result ≡ layout.end_of self.now }
    {
        self.base + 12295 + 53 * self.slots
    }
}
