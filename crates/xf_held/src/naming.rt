//! Which states a request names.
ghost use Rattle.std.specs.Prelude.{◌≡◌, ◌==◌};
ghost use Rattle.xf_types.specs.Same as test;
ghost use Rattle.xf_types.specs.StateList as list;
ghost use Rattle.xf_types.specs.PolicyList.{has_mark};
ghost use Rattle.xf_types.specs.TrafficRules as traffic;

use xf_types::{Addr, Mark, Mode, Packet, Proto, Sa, SaFilter, SaId, SaSpec, same_addr};

/// Whether a mark, masked, is the wanted value.
pub fn has_mark(mark: u32, of: &Mark) -> bool
    ensures { result ≡ has_mark mark of.now }
{
    (mark & of.mask) == of.value
}

/// Whether the id names the state.
pub fn has_id(id: &SaId, state: &Sa) -> bool
    ensures { result ≡ list.has_id id.now state.now }
{
    let spec = &state.spec;
    same_addr(&spec.dst, &id.dst)
        && spec.spi == id.spi
        && spec.proto == id.proto
        && has_mark(id.mark, &spec.mark)
}

/// What a new state is looked for under.
pub fn id_of(spec: &SaSpec) -> SaId
    ensures { result ≡ list.id_of spec.now }
{
    SaId {
        dst: spec.dst,
        proto: spec.proto,
        spi: spec.spi,
        mark: spec.mark.value & spec.mark.mask,
    }
}

/// Whether the state waits for the one that is asked for.
pub fn is_larval_of(spec: &SaSpec, state: &Sa) -> bool
    ensures { result ≡ list.is_larval_of spec.now state.now }
{
    state.larval
        && state.spec.seq == spec.seq
        && state.spec.proto == spec.proto
        && same_addr(&state.spec.dst, &spec.dst)
}

/// Whether the state is that one, where there is one.
pub fn is_that(one: &Option<Sa>, state: &Sa) -> bool
    ensures { result ≡ list.is_that one.now state.now }
{
    match one {
        None => false,
        Some(one) => state.sid == one.sid,
    }
}

fn meets_addr(wanted: &Option<Addr>, addr: &Addr) -> bool
    ensures { result ≡ test.meets_one test.same_addr wanted.now addr.now }
{
    match wanted {
        None => true,
        Some(wanted) => same_addr(wanted, addr),
    }
}

/// Whether the state is of this protocol, or of any.
pub fn meets_proto(wanted: Option<Proto>, proto: Proto) -> bool
    ensures { result ≡ test.meets_one test.same_proto wanted proto }
{
    match wanted {
        None => true,
        Some(wanted) => wanted == proto,
    }
}

fn meets_mode(wanted: Option<Mode>, mode: Mode) -> bool
    ensures { result ≡ test.meets_one test.same_mode wanted mode }
{
    match wanted {
        None => true,
        Some(wanted) => wanted == mode,
    }
}

fn meets_number(wanted: Option<u32>, number: u32) -> bool
    ensures { result ≡ test.meets_one ◌==◌ wanted number }
{
    match wanted {
        None => true,
        Some(wanted) => wanted == number,
    }
}

/// Whether the state meets each condition that is given.
pub fn admits(filter: &SaFilter, state: &Sa) -> bool
    ensures { result ≡ list.state_meets filter.now state.now }
{
    let spec = &state.spec;
    meets_addr(&filter.src, &spec.src)
        && meets_addr(&filter.dst, &spec.dst)
        && meets_proto(filter.proto, spec.proto)
        && meets_number(filter.spi, spec.spi)
        && meets_mode(filter.mode, spec.mode)
        && meets_number(filter.reqid, spec.reqid)
}

/// The state that a packet is for.
pub fn id_of_packet(packet: &Packet) -> SaId
    ensures { result ≡ traffic.id_of_packet packet.now }
{
    SaId {
        dst: packet.dst,
        proto: packet.proto,
        spi: packet.spi,
        mark: packet.mark,
    }
}
