//! From the fields of a group to selectors: ports and types, families, and what each protocol may have.
ghost use Rattle.std.specs.Prelude.{◌≡◌, Ok};
ghost use Rattle.std.specs.Option.{option_map};
ghost use Rattle.xf_types.specs.Facts.{IsSelector};
ghost use Rattle.xf_read.specs.Selectors as rule;

use xf_grammar::{Fields, Slot, Value, has_in_group, prefix_in_group, u8_in_group, u16_in_group};
use xf_types::{Addr, Prefix, Reason, Selector};

fn one_of(port: Option<u16>, other: Option<u16>) -> Result<Option<u16>, Reason>
    ensures { result ≡ rule.one_of port other }
{
    match (port, other) {
        (None, other) => Ok(other),
        (Some(port), None) => Ok(Some(port)),
        (Some(_), Some(_)) => Err(Reason::Mixed),
    }
}

/// The source port, or the ICMP type in its place.
pub(crate) fn source_port(fields: &Fields, group: u32) -> Result<Option<u16>, Reason>
    ensures { result ≡ rule.source_port group fields.now }
{
    one_of(
        u16_in_group(fields, group, Slot::SourcePort),
        u16_in_group(fields, group, Slot::IcmpType),
    )
}

/// The destination port, or the ICMP code in its place.
pub(crate) fn dest_port(fields: &Fields, group: u32) -> Result<Option<u16>, Reason>
    ensures { result ≡ rule.dest_port group fields.now }
{
    one_of(
        u16_in_group(fields, group, Slot::DestPort),
        u16_in_group(fields, group, Slot::IcmpCode),
    )
}

fn carries_ports(proto: u8) -> bool
    ensures { result ≡ rule.carries_ports proto }
{
    proto == 6 || proto == 17 || proto == 33 || proto == 132
}

fn carries_types(proto: u8) -> bool
    ensures { result ≡ rule.carries_types proto }
{
    proto == 1 || proto == 58 || proto == 135
}

/// The protocol, 0 where it isn't given.
pub(crate) fn proto_of(fields: &Fields, group: u32) -> u8
    ensures { result ≡ rule.proto_of group fields.now }
{
    u8_in_group(fields, group, Slot::Proto).unwrap_or(0)
}

fn has_port(fields: &Fields, group: u32) -> bool
    ensures { result ≡ rule.has_port group fields.now }
{
    has_in_group(fields, group, Slot::SourcePort) || has_in_group(fields, group, Slot::DestPort)
}

fn has_type(fields: &Fields, group: u32) -> bool
    ensures { result ≡ rule.has_type group fields.now }
{
    has_in_group(fields, group, Slot::IcmpType) || has_in_group(fields, group, Slot::IcmpCode)
}

/// Whether what is given fits the protocol.
pub(crate) fn judge_ports(fields: &Fields, group: u32) -> Result<(), Reason>
    ensures { result ≡ rule.judged_ports group fields.now }
{
    let proto = proto_of(fields, group);
    if has_port(fields, group) && !carries_ports(proto)
        || has_type(fields, group) && !carries_types(proto)
    {
        Err(Reason::Ports)
    } else {
        Ok(())
    }
}

/// The zero address of the same family.
pub(crate) fn zero_of(addr: &Addr) -> Addr
    ensures { result ≡ rule.zero_of addr.now }
{
    match addr {
        Addr::V4(_) => Addr::V4(0),
        Addr::V6(_) => Addr::V6(0),
    }
}

fn zero_like(prefix: &Option<Prefix>) -> Addr
    ensures { result ≡ rule.zero_like prefix.now }
{
    match prefix {
        None => Addr::V4(0),
        Some(prefix) => zero_of(&prefix.addr),
    }
}

/// The prefix, or the one of length 0 of the other's family.
fn end_or(prefix: Option<Prefix>, other: Option<Prefix>) -> Prefix
    ensures { result ≡ rule.end_or prefix other }
{
    match prefix {
        None => Prefix::new(zero_like(&other), 0),
        Some(prefix) => prefix,
    }
}

/// Whether two addresses have one family.
pub(crate) fn judge_family(a: &Addr, b: &Addr) -> Result<(), Reason>
    ensures { result ≡ rule.judged_family a.now b.now }
{
    match (a, b) {
        (Addr::V4(_), Addr::V4(_)) => Ok(()),
        (Addr::V6(_), Addr::V6(_)) => Ok(()),
        _ => Err(Reason::Family),
    }
}

pub(crate) fn judge_ends(a: &Option<Addr>, b: &Option<Addr>) -> Result<(), Reason>
    ensures { result ≡ rule.judged_ends a.now b.now }
{
    match (a, b) {
        (Some(a), Some(b)) => judge_family(a, b),
        _ => Ok(()),
    }
}

/// The source, or the zero address of the destination's family.
pub(crate) fn source_or_zero(src: Option<Addr>, dst: &Addr) -> Addr
    ensures { result ≡ rule.source_or_zero src dst.now }
{
    src.unwrap_or(zero_of(dst))
}

pub(crate) fn judge_families(a: &Option<Prefix>, b: &Option<Prefix>) -> Result<(), Reason>
    ensures { result ≡ rule.judged_families a.now b.now }
{
    match (a, b) {
        (Some(a), Some(b)) => judge_family(&a.addr, &b.addr),
        _ => Ok(()),
    }
}

/// A selector whose prefixes have one family.
fn selector_between(
    src: Prefix,
    dst: Prefix,
    proto: u8,
    sport: Option<u16>,
    dport: Option<u16>,
) -> Result<Selector, Reason>
    ensures { result ≡ rule.selector_between src dst proto sport dport }
{
    match judge_family(&src.addr, &dst.addr) {
        Ok(()) => Ok(Selector {
            src,
            dst,
            proto,
            sport,
            dport,
        }),
        Err(reason) => Err(reason),
    }
}

/// The source prefix of a group.
pub(crate) fn src_of(fields: &Fields, group: u32) -> Prefix
    ensures { result ≡ rule.src_of group fields.now }
{
    end_or(
        prefix_in_group(fields, group, Slot::Src),
        prefix_in_group(fields, group, Slot::Dst),
    )
}

fn dst_of(fields: &Fields, group: u32) -> Prefix
    ensures { result ≡ rule.dst_of group fields.now }
{
    end_or(
        prefix_in_group(fields, group, Slot::Dst),
        prefix_in_group(fields, group, Slot::Src),
    )
}

/// The selector of a group, once its ports are known.
#[tactic(auto, unfolding(crate::specs::Selectors::selector_with))]
pub(crate) fn selector_with(
    fields: &Fields,
    group: u32,
    sport: Option<u16>,
    dport: Option<u16>,
) -> Result<Selector, Reason>
    ensures { result ≡ rule.selector_with group sport dport fields.now }
{
    let sel = selector_between(
        src_of(fields, group),
        dst_of(fields, group),
        proto_of(fields, group),
        sport,
        dport,
    )?;
    judge_ports(fields, group)?;
    Ok(sel)
}

/// The selector of a group.
#[tactic(auto, unfolding(crate::specs::Selectors::selector_of))]
pub(crate) fn read_selector(fields: &Fields, group: u32) -> Result<Selector, Reason>
    ensures { result ≡ rule.selector_of group fields.now }
{
    let sport = source_port(fields, group)?;
    let dport = dest_port(fields, group)?;
    selector_with(fields, group, sport, dport)
}

/// A prefix that is a condition where it is given.
pub(crate) fn given_end(value: Option<Value>, other: Option<Prefix>) -> Option<Prefix>
    ensures { result ≡ rule.given_end value other }
{
    match value {
        None => None,
        Some(Value::Prefix(prefix)) => Some(prefix),
        Some(_) => Some(end_or(None, other)),
    }
}
