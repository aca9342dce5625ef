//! From fields to flows, and to what is sent along them.
ghost use Rattle.std.specs.Prelude.{◌≡◌};
ghost use Rattle.xf_read.specs.Flows as rule;

use crate::reader::Item;
use crate::selector::{dest_port, judge_family, judge_ports, proto_of, source_port};
use xf_grammar::{Fields, OWN, Slot, addr_at, u32_at};
use xf_types::{Dir, Flow, Reason};

/// The flow that a line asks for.
#[tactic(auto, unfolding(crate::specs::Flows::flow_of))]
pub(crate) fn read_flow(dir: Dir, fields: &Fields) -> Result<Flow, Reason>
    ensures { result ≡ rule.flow_of dir fields.now }
{
    let src = addr_at(fields, Slot::Src).ok_or(Reason::Missing)?;
    let dst = addr_at(fields, Slot::Dst).ok_or(Reason::Missing)?;
    let sport = source_port(fields, OWN)?;
    let dport = dest_port(fields, OWN)?;
    judge_family(&src, &dst)?;
    judge_ports(fields, OWN)?;
    Ok(Flow {
        dir,
        src,
        dst,
        proto: proto_of(fields, OWN),
        sport: sport.unwrap_or(0),
        dport: dport.unwrap_or(0),
        mark: u32_at(fields, Slot::Mark).unwrap_or(0),
        if_id: u32_at(fields, Slot::IfId).unwrap_or(0),
    })
}

/// The flow along which packets are sent, and their length.
#[tactic(auto, unfolding(crate::specs::Flows::send_of))]
#[inline(never)]
pub(crate) fn read_send(fields: &Fields) -> Result<Item, Reason>
    ensures { result ≡ rule.send_of fields.now }
{
    let flow = read_flow(Dir::Out, fields)?;
    Ok(Item::Send {
        flow,
        len: u32_at(fields, Slot::Len).unwrap_or(0),
    })
}
