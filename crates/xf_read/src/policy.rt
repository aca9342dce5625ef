//! From fields to policies: what is added, what is named, and what is filtered.
ghost use Rattle.std.specs.Prelude.{◌≡◌};
ghost use Rattle.xf_read.specs.Calls as rule;

use crate::limits::limits_of;
use crate::mark::mark_of;
use crate::selector::{
    dest_port, given_end, judge_families, judge_ports, read_selector, selector_with, source_port,
    src_of,
};
use crate::template::{judge_templates, read_templates};
use xf_grammar::{
    Fields, OWN, Slot, action_in, dir_in, has_any, prefix_at, ptype_in, u8_at, u32_at, value_at,
};
use xf_types::{
    Action, Dir, PolicyFilter, PolicyKey, PolicySpec, Ptype, Reason, Selector, Templates,
};

// What may not stand beside an index: it makes two policies the same.
pub(crate) static SAME_SLOTS: [Slot; 10] = [
    Slot::Src,
    Slot::Dst,
    Slot::Proto,
    Slot::SourcePort,
    Slot::DestPort,
    Slot::IcmpType,
    Slot::IcmpCode,
    Slot::Ptype,
    Slot::Mark,
    Slot::IfId,
];

/// A policy of this selector and these templates.
fn spec_with(dir: Dir, sel: Selector, templates: Templates, fields: &Fields) -> PolicySpec
    ensures { result ≡ rule.spec_with dir sel templates fields.now }
{
    PolicySpec {
        dir,
        ptype: ptype_in(fields).unwrap_or(Ptype::Main),
        sel,
        mark: mark_of(fields),
        if_id: u32_at(fields, Slot::IfId).unwrap_or(0),
        priority: u32_at(fields, Slot::Priority).unwrap_or(0),
        action: action_in(fields).unwrap_or(Action::Allow),
        index: u32_at(fields, Slot::Index).unwrap_or(0),
        limits: limits_of(fields),
        templates,
    }
}

/// The policy that a line asks for.
#[tactic(auto, unfolding(crate::specs::Calls::spec_of))]
pub(crate) fn read_spec(fields: &Fields) -> Result<PolicySpec, Reason>
    ensures { result ≡ rule.spec_of fields.now }
{
    let dir = dir_in(fields).ok_or(Reason::Missing)?;
    let templates = read_templates(fields, &src_of(fields, OWN).addr)?;
    let sport = source_port(fields, OWN)?;
    let dport = dest_port(fields, OWN)?;
    judge_templates(templates.as_slice())?;
    let sel = selector_with(fields, OWN, sport, dport)?;
    Ok(spec_with(dir, sel, templates, fields))
}

fn index_key(dir: Dir, index: u32, fields: &Fields) -> Result<PolicyKey, Reason>
    ensures { result ≡ rule.index_key dir index fields.now }
{
    if has_any(fields, &SAME_SLOTS) {
        return Err(Reason::Mixed);
    }
    Ok(PolicyKey::Index { dir, index })
}

#[tactic(auto, unfolding(crate::specs::Calls::same_key))]
fn same_key(dir: Dir, fields: &Fields) -> Result<PolicyKey, Reason>
    ensures { result ≡ rule.same_key dir fields.now }
{
    let sel = read_selector(fields, OWN)?;
    Ok(PolicyKey::Same {
        dir,
        ptype: ptype_in(fields).unwrap_or(Ptype::Main),
        sel,
        mark: mark_of(fields),
        if_id: u32_at(fields, Slot::IfId).unwrap_or(0),
    })
}

/// The policy that a line names.
#[tactic(auto, unfolding(crate::specs::Calls::key_of))]
pub(crate) fn read_key(fields: &Fields) -> Result<PolicyKey, Reason>
    ensures { result ≡ rule.key_of fields.now }
{
    let dir = dir_in(fields).ok_or(Reason::Missing)?;
    match u32_at(fields, Slot::Index) {
        Some(index) => index_key(dir, index, fields),
        None => same_key(dir, fields),
    }
}

/// The conditions that a line gives.
#[tactic(auto, unfolding(crate::specs::Calls::filter_of))]
pub(crate) fn read_filter(fields: &Fields) -> Result<PolicyFilter, Reason>
    ensures { result ≡ rule.filter_of fields.now }
{
    let sport = source_port(fields, OWN)?;
    let dport = dest_port(fields, OWN)?;
    let src = prefix_at(fields, Slot::Src);
    let dst = prefix_at(fields, Slot::Dst);
    judge_families(&src, &dst)?;
    judge_ports(fields, OWN)?;
    Ok(PolicyFilter {
        dir: dir_in(fields),
        ptype: ptype_in(fields),
        action: action_in(fields),
        priority: u32_at(fields, Slot::Priority),
        index: u32_at(fields, Slot::Index),
        src: given_end(value_at(fields, Slot::Src), dst),
        dst: given_end(value_at(fields, Slot::Dst), src),
        proto: u8_at(fields, Slot::Proto),
        sport,
        dport,
    })
}
