//! What a walk asks of a state's record: each test loads the words that it names and stops at the first that fails.
ghost use Rattle.std.specs.Prelude.{◌≡◌, ℕ, ◌+◌, ◌<◌, ◌≤◌, ◌^◌, List};
ghost use Rattle.xf_cells.specs.Words.{Narrows};
ghost use Rattle.xf_asked.specs.Asked as asked;

use crate::selectors::is_selected_at;
use crate::words::{
    has_mark_at, has_spi_at, is_addr_at, is_mode_at, is_off_at, is_proto_at, is_source_at,
    is_word_at,
};
use xf_cells::Load;
use xf_types::{Addr, Flow, SaId, Template};

/// Whether the state at a place is named by the id.
#[tactic(auto, unfolding(crate::specs::Asked::has_id_at))]
pub fn has_id_at<L: Load>(l: &mut L, at: u32, id: &SaId) -> bool
    requires lies { at + 7 ≤ L.size l.old }
    requires fits { at + 7 < 2 ^ 32 }
    ensures size { L.size l.new ≡ L.size l.old }
    ensures begun { L.begun l.new ≡ L.begun l.old }
    ensures rest { L.rest l.new ≡ L.rest l.old }
    ensures among { Narrows (L.agrees l.old) (L.agrees l.new) }
    ensures loads { L.loads l.new ≤ L.loads l.old + 7 }
    ensures answer { (image : List ℕ) → L.agrees l.new image → result ≡ asked.has_id_at image at id.now }
{
    is_addr_at(l, at, &id.dst)
        && is_word_at(l, at + 3, id.spi)
        && is_proto_at(l, at + 4, id.proto)
        && has_mark_at(l, at + 5, id.mark)
}

// Whether request, mode, protocol and interface at a place are those of the template and the flow.
#[tactic(auto, unfolding(crate::specs::Asked::is_request_at))]
fn is_request_at<L: Load>(l: &mut L, at: u32, t: &Template, flow: &Flow) -> bool
    requires lies { at + 10 ≤ L.size l.old }
    requires fits { at + 10 < 2 ^ 32 }
    ensures size { L.size l.new ≡ L.size l.old }
    ensures begun { L.begun l.new ≡ L.begun l.old }
    ensures rest { L.rest l.new ≡ L.rest l.old }
    ensures among { Narrows (L.agrees l.old) (L.agrees l.new) }
    ensures loads { L.loads l.new ≤ L.loads l.old + 4 }
    ensures answer { (image : List ℕ) → L.agrees l.new image → result ≡ asked.is_request_at image at t.now flow.now }
{
    is_word_at(l, at + 7, t.reqid)
        && is_mode_at(l, at + 8, t.mode)
        && is_proto_at(l, at + 4, t.proto)
        && is_word_at(l, at + 9, flow.if_id)
}

// Whether addresses and SPI at a place are those that the template is used with.
#[tactic(auto, unfolding(crate::specs::Asked::is_used_at))]
fn is_used_at<L: Load>(l: &mut L, at: u32, t: &Template, src: &Addr, dst: &Addr) -> bool
    requires lies { at + 13 ≤ L.size l.old }
    requires fits { at + 13 < 2 ^ 32 }
    ensures size { L.size l.new ≡ L.size l.old }
    ensures begun { L.begun l.new ≡ L.begun l.old }
    ensures rest { L.rest l.new ≡ L.rest l.old }
    ensures among { Narrows (L.agrees l.old) (L.agrees l.new) }
    ensures loads { L.loads l.new ≤ L.loads l.old + 7 }
    ensures answer { (image : List ℕ) → L.agrees l.new image → result ≡ asked.is_used_at image at t.now src.now dst.now }
{
    is_addr_at(l, at, dst) && has_spi_at(l, at + 3, t.spi) && is_source_at(l, at + 10, src)
}

// Whether mark and selector at a place fit the flow, and the state may send.
#[tactic(auto, unfolding(crate::specs::Asked::is_fit_at))]
fn is_fit_at<L: Load>(l: &mut L, at: u32, flow: &Flow) -> bool
    requires lies { at + 30 ≤ L.size l.old }
    requires fits { at + 30 < 2 ^ 32 }
    ensures size { L.size l.new ≡ L.size l.old }
    ensures begun { L.begun l.new ≡ L.begun l.old }
    ensures rest { L.rest l.new ≡ L.rest l.old }
    ensures among { Narrows (L.agrees l.old) (L.agrees l.new) }
    ensures loads { L.loads l.new ≤ L.loads l.old + 14 }
    ensures answer { (image : List ℕ) → L.agrees l.new image → result ≡ asked.is_fit_at image at flow.now }
{
    has_mark_at(l, at + 5, flow.mark) && is_selected_at(l, at + 19, flow) && is_off_at(l, at + 13)
}

/// Whether the state at a place suits a template that is used with these addresses.
#[tactic(auto, unfolding(crate::specs::Asked::suits_at))]
pub fn suits_at<L: Load>(
    l: &mut L,
    at: u32,
    t: &Template,
    flow: &Flow,
    src: &Addr,
    dst: &Addr,
) -> bool
    requires lies { at + 30 ≤ L.size l.old }
    requires fits { at + 30 < 2 ^ 32 }
    ensures size { L.size l.new ≡ L.size l.old }
    ensures begun { L.begun l.new ≡ L.begun l.old }
    ensures rest { L.rest l.new ≡ L.rest l.old }
    ensures among { Narrows (L.agrees l.old) (L.agrees l.new) }
    ensures loads { L.loads l.new ≤ L.loads l.old + 25 }
    ensures answer { (image : List ℕ) → L.agrees l.new image → result ≡ asked.suits_at image at t.now flow.now src.now dst.now }
{
    is_request_at(l, at, t, flow) && is_used_at(l, at, t, src, dst) && is_fit_at(l, at, flow)
}
