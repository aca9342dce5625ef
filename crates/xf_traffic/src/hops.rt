//! The path through the states in slots.
ghost use Rattle.std.specs.Prelude.{◌≡◌, ℕ, ◌+◌, ◌*◌, ◌<◌, ◌≤◌, List, length};
ghost use Rattle.xf_types.specs.Resolution as rule;
ghost use Rattle.xf_cells.specs.Words.{Narrows};
ghost use Rattle.xf_chain.specs.Lists.{Within};
ghost use Rattle.xf_sadidx.specs.Layout.{Fits};
ghost use Rattle.xf_traffic.specs.Paths.{hop_in, hops_in};

use arrayvec::ArrayVec;
use xf_cells::Load;
use xf_records::get_state;
use xf_sadidx::StateArea;
use xf_types::{Addr, Hop, Path, Proto, Sa};

/// The step of a path through a state.
fn hop_of(state: &Sa) -> Hop
    ensures { result ≡ rule.hop_of state.now }
{
    Hop {
        sid: state.sid,
        proto: state.spec.proto,
        spi: state.spec.spi,
        dst: state.spec.dst,
    }
}

/// The step of a path through the state in a slot, all 0 where none stands there.
fn hop_at<L: Load>(area: &StateArea, l: &mut L, slot: u32) -> Hop
    requires fits { Fits area.now (L.size l.old) }
    requires slot { slot < area.now.slots }
    ensures size { L.size l.new ≡ L.size l.old }
    ensures begun { L.begun l.new ≡ L.begun l.old }
    ensures rest { L.rest l.new ≡ L.rest l.old }
    ensures among { Narrows (L.agrees l.old) (L.agrees l.new) }
    ensures loads { L.loads l.new ≤ L.loads l.old + 46 }
    ensures answer { (image : List ℕ) → L.agrees l.new image → result ≡ hop_in area.now image slot }
{
    match get_state(l, area.record_place(slot)) {
        None => Hop {
            sid: 0,
            proto: Proto::Esp,
            spi: 0,
            dst: Addr::V4(0),
        },
        Some(state) => hop_of(&state),
    }
}

/// The path through the states in slots, in order.
pub(crate) fn path_through<L: Load>(area: &StateArea, l: &mut L, slots: &[u32]) -> Path
    requires fits { Fits area.now (L.size l.old) }
    requires within { Within area.now.slots slots.now }
    requires few { length slots.now ≤ 6 }
    ensures size { L.size l.new ≡ L.size l.old }
    ensures begun { L.begun l.new ≡ L.begun l.old }
    ensures rest { L.rest l.new ≡ L.rest l.old }
    ensures among { Narrows (L.agrees l.old) (L.agrees l.new) }
    ensures loads { L.loads l.new ≤ L.loads l.old + 276 }
    ensures answer { (image : List ℕ) → L.agrees l.new image → result ≡ hops_in area.now image slots.now }
{
    let mut hops = ArrayVec::new();
    'path: for slot in slots {
        let hop = hop_at(area, l, *slot);
        hops.push(hop);
    }
    Path { items: hops }
}
