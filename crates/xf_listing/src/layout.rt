//! The families of chains of the database, and the places of a slot's words.
ghost use Rattle.std.specs.Prelude.{◌≡◌, ◌+◌, ◌<◌, ◌≤◌};
ghost use Rattle.xf_chain.specs.Families.{Lays};
ghost use Rattle.xf_image.specs.Layout.{order_of, back_of, exact_of, indices_of, priority_place, number_place, record_place};
ghost use Rattle.xf_inexact.specs.Places.{chains_of};
ghost use Rattle.xf_inexact.specs.Whole.{WholeFits, trees_of};

use crate::listing::Listing;
use xf_chain::Family;
use xf_inexact::Inexact;

impl Listing {
    #[tactic(auto, using(crate::proofs::Wholes::list_fits))]
    pub(crate) fn order(&self, size: u32) -> Family
        requires { WholeFits self.now.area size }
        ensures is { result ≡ order_of self.now.area }
        ensures lays { Lays result size }
    {
        self.area.order()
    }

    #[tactic(auto, using(crate::proofs::Wholes::list_fits))]
    pub(crate) fn back(&self, size: u32) -> Family
        requires { WholeFits self.now.area size }
        ensures is { result ≡ back_of self.now.area }
        ensures lays { Lays result size }
    {
        self.area.back()
    }

    #[tactic(auto, using(crate::proofs::Wholes::list_fits))]
    pub(crate) fn exact(&self, size: u32) -> Family
        requires { WholeFits self.now.area size }
        ensures is { result ≡ exact_of self.now.area }
        ensures lays { Lays result size }
    {
        self.area.exact()
    }

    #[tactic(auto, using(crate::proofs::Wholes::list_fits))]
    pub(crate) fn indices(&self, size: u32) -> Family
        requires { WholeFits self.now.area size }
        ensures is { result ≡ indices_of self.now.area }
        ensures lays { Lays result size }
    {
        self.area.indices()
    }

    /// The chains of the nodes.
    pub(crate) fn chains(&self, size: u32) -> Family
        requires { WholeFits self.now.area size }
        ensures is { result ≡ chains_of (trees_of self.now.area) }
        ensures lays { Lays result size }
    {
        Inexact::behind(self.area).chains()
    }

    /// The place of a slot's priority.
    #[tactic(auto, using(crate::proofs::Wholes::list_fits))]
    pub(crate) fn priority(&self, slot: u32, size: u32) -> u32
        requires fits { WholeFits self.now.area size }
        requires slot { slot < self.now.area.slots }
        ensures is { result ≡ priority_place self.now.area slot }
        ensures lies { result < size }
    {
        self.area.priority_place(slot)
    }

    /// The place of a slot's number.
    #[tactic(auto, using(crate::proofs::Wholes::list_fits))]
    pub(crate) fn number(&self, slot: u32, size: u32) -> u32
        requires fits { WholeFits self.now.area size }
        requires slot { slot < self.now.area.slots }
        ensures is { result ≡ number_place self.now.area slot }
        ensures lies { result < size }
    {
        self.area.number_place(slot)
    }

    /// The place of a slot's record.
    #[tactic(auto, using(crate::proofs::Wholes::list_fits))]
    pub(crate) fn record(&self, slot: u32, size: u32) -> u32
        requires fits { WholeFits self.now.area size }
        requires slot { slot < self.now.area.slots }
        ensures is { result ≡ record_place self.now.area slot }
        ensures lies { result + 104 ≤ size }
    {
        self.area.record_place(slot)
    }
}
