//! What is asked of a state.
ghost use Rattle.std.specs.Prelude.{◌≡◌, ℕ, ◌+◌, ◌<◌, ◌≤◌, ◌^◌, List, Bool};
ghost use Rattle.xf_cells.specs.Words.{Narrows};
ghost use Rattle.xf_types.specs.Same as same;
ghost use Rattle.xf_sadidx.specs.Layout.{Fits};
ghost use Rattle.xf_sadidx.specs.Queries as queries;

use crate::area::StateArea;
use xf_asked::{has_id_at, larval_at, sid_at, suits_at};
use xf_cells::Load;
use xf_records::{get_state, proto_word};
use xf_types::{Addr, Flow, Proto, Sa, SaId, Template, same_addr};

/// What is asked of a state.
#[derive(Clone, Copy, Debug)]
pub enum StateQuery {
    /// The id names it.
    Named {
        id: SaId,
    },

    /// The id names it, and it isn't the one with this state id.
    Beside {
        id: SaId,
        sid: u64,
    },

    /// It suits the template that is used with these addresses, and isn't larval.
    Candidate {
        t: Template,
        flow: Flow,
        src: Addr,
        dst: Addr,
    },

    /// It suits the template that is used with these addresses, and is larval.
    Larval {
        t: Template,
        flow: Flow,
        src: Addr,
        dst: Addr,
    },

    /// It is larval and has these.
    Replaced {
        seq: u32,
        proto: Proto,
        dst: Addr,
    },

    /// It has this SPI, destination and protocol, whatever its mark.
    Number {
        dst: Addr,
        proto: Proto,
        spi: u32,
    },

    /// It has this sequence number.
    Numbered {
        seq: u32,
    },
}

/// Whether two protocols are equal.
fn same_proto(a: Proto, b: Proto) -> bool
    ensures { result ≡ same.same_proto a b }
{
    proto_word(a) == proto_word(b)
}

/// Whether a state is larval and has these.
fn is_larval(s: &Sa, seq: u32, proto: Proto, dst: &Addr) -> bool
    ensures { result ≡ queries.is_larval seq proto dst.now s.now }
{
    s.larval && s.spec.seq == seq && same_proto(s.spec.proto, proto) && same_addr(&s.spec.dst, dst)
}

/// Whether a state has this destination, protocol and SPI.
fn has_number(s: &Sa, dst: &Addr, proto: Proto, spi: u32) -> bool
    ensures { result ≡ queries.has_number dst.now proto spi s.now }
{
    same_addr(&s.spec.dst, dst) && s.spec.spi == spi && same_proto(s.spec.proto, proto)
}

/// Whether there is a state with a record at a place, and it is larval and has these.
fn is_larval_at<L: Load>(l: &mut L, at: u32, seq: u32, proto: Proto, dst: &Addr) -> bool
    requires lies { at + 48 ≤ L.size l.old }
    requires fits { at + 48 < 2 ^ 32 }
    ensures size { L.size l.new ≡ L.size l.old }
    ensures begun { L.begun l.new ≡ L.begun l.old }
    ensures rest { L.rest l.new ≡ L.rest l.old }
    ensures among { Narrows (L.agrees l.old) (L.agrees l.new) }
    ensures loads { L.loads l.new ≤ L.loads l.old + 46 }
    ensures answer { (image : List ℕ) → L.agrees l.new image → result ≡ queries.is_larval_at image at seq proto dst.now }
{
    match get_state(l, at) {
        None => false,
        Some(s) => is_larval(&s, seq, proto, dst),
    }
}

/// Whether there is a state with a record at a place, and it has this destination, protocol and SPI.
fn has_number_at<L: Load>(l: &mut L, at: u32, dst: &Addr, proto: Proto, spi: u32) -> bool
    requires lies { at + 48 ≤ L.size l.old }
    requires fits { at + 48 < 2 ^ 32 }
    ensures size { L.size l.new ≡ L.size l.old }
    ensures begun { L.begun l.new ≡ L.begun l.old }
    ensures rest { L.rest l.new ≡ L.rest l.old }
    ensures among { Narrows (L.agrees l.old) (L.agrees l.new) }
    ensures loads { L.loads l.new ≤ L.loads l.old + 46 }
    ensures answer { (image : List ℕ) → L.agrees l.new image → result ≡ queries.has_number_at image at dst.now proto spi }
{
    match get_state(l, at) {
        None => false,
        Some(s) => has_number(&s, dst, proto, spi),
    }
}

/// Whether there is a state with a record at a place, and it has this sequence number.
fn has_seq_at<L: Load>(l: &mut L, at: u32, seq: u32) -> bool
    requires lies { at + 48 ≤ L.size l.old }
    requires fits { at + 48 < 2 ^ 32 }
    ensures size { L.size l.new ≡ L.size l.old }
    ensures begun { L.begun l.new ≡ L.begun l.old }
    ensures rest { L.rest l.new ≡ L.rest l.old }
    ensures among { Narrows (L.agrees l.old) (L.agrees l.new) }
    ensures loads { L.loads l.new ≤ L.loads l.old + 46 }
    ensures answer { (image : List ℕ) → L.agrees l.new image → result ≡ queries.has_seq_at image at seq }
{
    match get_state(l, at) {
        None => false,
        Some(s) => s.spec.seq == seq,
    }
}

/// Whether the state at a place is what is asked for.
#[tactic(auto, unfolding(crate::specs::Queries::meets_at))]
fn meets_at<L: Load>(l: &mut L, at: u32, query: &StateQuery) -> bool
    requires lies { at + 48 ≤ L.size l.old }
    requires fits { at + 48 < 2 ^ 32 }
    ensures size { L.size l.new ≡ L.size l.old }
    ensures begun { L.begun l.new ≡ L.begun l.old }
    ensures rest { L.rest l.new ≡ L.rest l.old }
    ensures among { Narrows (L.agrees l.old) (L.agrees l.new) }
    ensures loads { L.loads l.new ≤ L.loads l.old + 46 }
    ensures answer { (image : List ℕ) → L.agrees l.new image → result ≡ queries.meets_at image at query.now }
{
    match query {
        StateQuery::Named { id } => has_id_at(l, at, id),
        StateQuery::Beside { id, sid } => has_id_at(l, at, id) && sid_at(l, at) != *sid,
        StateQuery::Candidate { t, flow, src, dst } => {
            suits_at(l, at, t, flow, src, dst) && !larval_at(l, at)
        }
        StateQuery::Larval { t, flow, src, dst } => {
            suits_at(l, at, t, flow, src, dst) && larval_at(l, at)
        }
        StateQuery::Replaced { seq, proto, dst } => is_larval_at(l, at, *seq, *proto, dst),
        StateQuery::Number { dst, proto, spi } => has_number_at(l, at, dst, *proto, *spi),
        StateQuery::Numbered { seq } => has_seq_at(l, at, *seq),
    }
}

/// Whether the state in a slot is what is asked for.
#[tactic(auto, unfolding(crate::specs::Queries::meets_in))]
pub(crate) fn meets_in<L: Load>(area: &StateArea, l: &mut L, query: &StateQuery, slot: u32) -> bool
    requires fits { Fits area.now (L.size l.old) }
    requires slot { slot < area.now.slots }
    ensures size { L.size l.new ≡ L.size l.old }
    ensures begun { L.begun l.new ≡ L.begun l.old }
    ensures rest { L.rest l.new ≡ L.rest l.old }
    ensures among { Narrows (L.agrees l.old) (L.agrees l.new) }
    ensures loads { L.loads l.new ≤ L.loads l.old + 46 }
    ensures answer { (image : List ℕ) → L.agrees l.new image → result ≡ queries.meets_in area.now image query.now slot }
{
    meets_at(l, area.record_place(slot), query)
}
