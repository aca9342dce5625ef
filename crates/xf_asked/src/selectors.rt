//! Tests of a selector.
ghost use Rattle.std.specs.Prelude.{◌≡◌, ℕ, ◌+◌, ◌<◌, ◌≤◌, ◌^◌, List};
ghost use Rattle.xf_cells.specs.Words.{Narrows};
ghost use Rattle.xf_asked.specs.Asked as asked;

use crate::words::{has_port_at, has_proto_at};
use xf_cells::Load;
use xf_records::prefix_in;
use xf_types::{Addr, Flow};

// Whether the prefix at a place, of the family given, holds the address.
#[tactic(auto, unfolding(crate::specs::Asked::holds_at))]
fn holds_at<L: Load>(l: &mut L, at: u32, family: u64, addr: &Addr) -> bool
    requires lies { at + 3 ≤ L.size l.old }
    requires fits { at + 3 < 2 ^ 32 }
    ensures size { L.size l.new ≡ L.size l.old }
    ensures begun { L.begun l.new ≡ L.begun l.old }
    ensures rest { L.rest l.new ≡ L.rest l.old }
    ensures among { Narrows (L.agrees l.old) (L.agrees l.new) }
    ensures loads { L.loads l.new ≤ L.loads l.old + 3 }
    ensures answer { (image : List ℕ) → L.agrees l.new image → result ≡ asked.holds_at image at family addr.now }
{
    let high = l.load(at);
    let low = l.load(at + 1);
    let len = l.load(at + 2);
    prefix_in(family, high, low, len).holds(addr)
}

/// Whether the selector at a place matches the flow.
#[tactic(auto, unfolding(crate::specs::Asked::matches_at))]
pub(crate) fn matches_at<L: Load>(l: &mut L, at: u32, flow: &Flow) -> bool
    requires lies { at + 10 ≤ L.size l.old }
    requires fits { at + 10 < 2 ^ 32 }
    ensures size { L.size l.new ≡ L.size l.old }
    ensures begun { L.begun l.new ≡ L.begun l.old }
    ensures rest { L.rest l.new ≡ L.rest l.old }
    ensures among { Narrows (L.agrees l.old) (L.agrees l.new) }
    ensures loads { L.loads l.new ≤ L.loads l.old + 10 }
    ensures answer { (image : List ℕ) → L.agrees l.new image → result ≡ asked.matches_at image at flow.now }
{
    let family = l.load(at);
    holds_at(l, at + 1, family, &flow.src)
        && holds_at(l, at + 4, family, &flow.dst)
        && has_proto_at(l, at + 7, flow.proto)
        && has_port_at(l, at + 8, flow.sport)
        && has_port_at(l, at + 9, flow.dport)
}

/// Whether the selector at a place matches, where there is one.
#[tactic(auto, unfolding(crate::specs::Asked::is_selected_at))]
pub(crate) fn is_selected_at<L: Load>(l: &mut L, at: u32, flow: &Flow) -> bool
    requires lies { at + 11 ≤ L.size l.old }
    requires fits { at + 11 < 2 ^ 32 }
    ensures size { L.size l.new ≡ L.size l.old }
    ensures begun { L.begun l.new ≡ L.begun l.old }
    ensures rest { L.rest l.new ≡ L.rest l.old }
    ensures among { Narrows (L.agrees l.old) (L.agrees l.new) }
    ensures loads { L.loads l.new ≤ L.loads l.old + 11 }
    ensures answer { (image : List ℕ) → L.agrees l.new image → result ≡ asked.is_selected_at image at flow.now }
{
    l.load(at) == 0 || matches_at(l, at + 1, flow)
}
