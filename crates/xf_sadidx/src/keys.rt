//! The hashes of the states in slots, by the words of their records.
ghost use Rattle.std.specs.Prelude.{◌≡◌, ℕ, ◌+◌, ◌<◌, ◌≤◌, ◌^◌, List, Some};
ghost use Rattle.xf_cells.specs.Words.{Narrows};
ghost use Rattle.xf_sadidx.specs.declared.kind.Kind.TheVariants.{Spi, Route};
ghost use Rattle.xf_sadidx.specs.Layout.{Fits, record_place};
ghost use Rattle.xf_sadidx.specs.Keys as words;

use crate::area::StateArea;
use crate::kind::{Kind, seq_hash};
use xf_cells::{Load, hash};
use xf_doubling::Keys;

/// The hash of what names the state at a place.
#[tactic(auto, unfolding(crate::specs::Keys::key_at))]
fn spi_at<L: Load>(l: &mut L, at: u32) -> u64
    requires lies { at + 48 ≤ L.size l.old }
    requires fits { at + 48 < 2 ^ 32 }
    ensures size { L.size l.new ≡ L.size l.old }
    ensures begun { L.begun l.new ≡ L.begun l.old }
    ensures rest { L.rest l.new ≡ L.rest l.old }
    ensures among { Narrows (L.agrees l.old) (L.agrees l.new) }
    ensures loads { L.loads l.new ≤ L.loads l.old + 5 }
    ensures answer { (image : List ℕ) → L.agrees l.new image → Some result ≡ words.key_at image at Spi }
{
    hash(&[
        l.load(at),
        l.load(at + 1),
        l.load(at + 2),
        l.load(at + 3),
        l.load(at + 4),
    ])
}

/// The hash of destination and request id of the state at a place.
#[tactic(auto, unfolding(crate::specs::Keys::key_at))]
fn route_at<L: Load>(l: &mut L, at: u32) -> u64
    requires lies { at + 48 ≤ L.size l.old }
    requires fits { at + 48 < 2 ^ 32 }
    ensures size { L.size l.new ≡ L.size l.old }
    ensures begun { L.begun l.new ≡ L.begun l.old }
    ensures rest { L.rest l.new ≡ L.rest l.old }
    ensures among { Narrows (L.agrees l.old) (L.agrees l.new) }
    ensures loads { L.loads l.new ≤ L.loads l.old + 4 }
    ensures answer { (image : List ℕ) → L.agrees l.new image → Some result ≡ words.key_at image at Route }
{
    hash(&[l.load(at), l.load(at + 1), l.load(at + 2), l.load(at + 7)])
}

/// The hash of a kind of the state at a place, where it has one.
#[tactic(auto, unfolding(crate::specs::Keys::key_at))]
fn key_at<L: Load>(l: &mut L, at: u32, kind: Kind) -> Option<u64>
    requires lies { at + 48 ≤ L.size l.old }
    requires fits { at + 48 < 2 ^ 32 }
    ensures size { L.size l.new ≡ L.size l.old }
    ensures begun { L.begun l.new ≡ L.begun l.old }
    ensures rest { L.rest l.new ≡ L.rest l.old }
    ensures among { Narrows (L.agrees l.old) (L.agrees l.new) }
    ensures loads { L.loads l.new ≤ L.loads l.old + 5 }
    ensures answer { (image : List ℕ) → L.agrees l.new image → result ≡ words.key_at image at kind }
{
    match kind {
        Kind::Spi => Some(spi_at(l, at)),
        Kind::Route => Some(route_at(l, at)),
        Kind::Seq => seq_hash(l.load(at + 18)),
    }
}

/// What the slots of an area stand in the chains of a kind by.
#[derive(Clone, Copy, Debug, PartialEq, Eq)]
pub struct StateKeys {
    pub area: StateArea,
    pub kind: Kind,
}

impl Keys for StateKeys {
    ghost key = { λ k image slot. words.key_at image (record_place k.area slot) k.kind };

    ghost slots = { λ k. k.area.slots };

    ghost lies = { λ k size. Fits k.area size };

    ghost cost = { λ k. 5 };

    fn key_at<L: Load>(&self, l: &mut L, slot: u32) -> Option<u64> {
        key_at(l, self.area.record_place(slot), self.kind)
    }
}
