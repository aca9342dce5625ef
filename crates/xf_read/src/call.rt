//! From a head and fields to what a line asks for.
ghost use Rattle.std.specs.Prelude.{◌≡◌};
ghost use Rattle.xf_grammar.specs.declared.head.Head.TheVariants as head;
ghost use Rattle.xf_read.specs.Calls as rule;

use crate::alloc_spi::read_alloc;
use crate::flow::{read_flow, read_send};
use crate::packet::read_packet;
use crate::policy::{read_filter, read_key, read_spec};
use crate::reader::Item;
use crate::state::{read_sa, read_sa_filter, read_sa_id};
use crate::thresholds::read_thresholds;
use crate::tick::read_tick;
use crate::worker::read_worker;
use xf_grammar::{Fields, Head, ipsec_in, ptype_in};
use xf_types::{Call, Dir, Reason};

// Each kind of call has a function of its own that isn't inlined: a function clears all its locals where it begins, and a line
// pays for those of its own kind alone.

#[inline(never)]
#[tactic(auto, unfolding(crate::specs::Calls::asked_of))]
fn policy_add(fields: &Fields) -> Result<Item, Reason>
    ensures { result ≡ rule.asked_of head.PolicyAdd fields.now }
{
    Ok(Item::One(Call::PolicyAdd(read_spec(fields)?)))
}

#[inline(never)]
#[tactic(auto, unfolding(crate::specs::Calls::asked_of))]
fn policy_update(fields: &Fields) -> Result<Item, Reason>
    ensures { result ≡ rule.asked_of head.PolicyUpdate fields.now }
{
    Ok(Item::One(Call::PolicyUpdate(read_spec(fields)?)))
}

#[inline(never)]
#[tactic(auto, unfolding(crate::specs::Calls::asked_of))]
fn policy_delete(fields: &Fields) -> Result<Item, Reason>
    ensures { result ≡ rule.asked_of head.PolicyDelete fields.now }
{
    Ok(Item::One(Call::PolicyDelete(read_key(fields)?)))
}

#[inline(never)]
#[tactic(auto, unfolding(crate::specs::Calls::asked_of))]
fn policy_get(fields: &Fields) -> Result<Item, Reason>
    ensures { result ≡ rule.asked_of head.PolicyGet fields.now }
{
    Ok(Item::One(Call::PolicyGet(read_key(fields)?)))
}

#[inline(never)]
#[tactic(auto, unfolding(crate::specs::Calls::asked_of))]
fn policy_delete_all(fields: &Fields) -> Result<Item, Reason>
    ensures { result ≡ rule.asked_of head.PolicyDeleteAll fields.now }
{
    Ok(Item::One(Call::PolicyDeleteAll(read_filter(fields)?)))
}

#[inline(never)]
#[tactic(auto, unfolding(crate::specs::Calls::asked_of))]
fn policy_list(fields: &Fields) -> Result<Item, Reason>
    ensures { result ≡ rule.asked_of head.PolicyList fields.now }
{
    Ok(Item::One(Call::PolicyList(read_filter(fields)?)))
}

#[inline(never)]
#[tactic(auto, unfolding(crate::specs::Calls::asked_of))]
fn policy_set(fields: &Fields) -> Result<Item, Reason>
    ensures { result ≡ rule.asked_of head.PolicySet fields.now }
{
    Ok(Item::One(Call::PolicySet(read_thresholds(fields)?)))
}

#[inline(never)]
#[tactic(auto, unfolding(crate::specs::Calls::asked_of))]
fn state_add(fields: &Fields) -> Result<Item, Reason>
    ensures { result ≡ rule.asked_of head.StateAdd fields.now }
{
    Ok(Item::One(Call::StateAdd(read_sa(fields)?)))
}

#[inline(never)]
#[tactic(auto, unfolding(crate::specs::Calls::asked_of))]
fn state_update(fields: &Fields) -> Result<Item, Reason>
    ensures { result ≡ rule.asked_of head.StateUpdate fields.now }
{
    Ok(Item::One(Call::StateUpdate(read_sa(fields)?)))
}

#[inline(never)]
#[tactic(auto, unfolding(crate::specs::Calls::asked_of))]
fn state_delete(fields: &Fields) -> Result<Item, Reason>
    ensures { result ≡ rule.asked_of head.StateDelete fields.now }
{
    Ok(Item::One(Call::StateDelete(read_sa_id(fields)?)))
}

#[inline(never)]
#[tactic(auto, unfolding(crate::specs::Calls::asked_of))]
fn state_get(fields: &Fields) -> Result<Item, Reason>
    ensures { result ≡ rule.asked_of head.StateGet fields.now }
{
    Ok(Item::One(Call::StateGet(read_sa_id(fields)?)))
}

#[inline(never)]
#[tactic(auto, unfolding(crate::specs::Calls::asked_of))]
fn state_delete_all(fields: &Fields) -> Result<Item, Reason>
    ensures { result ≡ rule.asked_of head.StateDeleteAll fields.now }
{
    Ok(Item::One(Call::StateDeleteAll(read_sa_filter(fields)?)))
}

#[inline(never)]
#[tactic(auto, unfolding(crate::specs::Calls::asked_of))]
fn state_list(fields: &Fields) -> Result<Item, Reason>
    ensures { result ≡ rule.asked_of head.StateList fields.now }
{
    Ok(Item::One(Call::StateList(read_sa_filter(fields)?)))
}

#[inline(never)]
#[tactic(auto, unfolding(crate::specs::Calls::asked_of))]
fn alloc_spi(fields: &Fields) -> Result<Item, Reason>
    ensures { result ≡ rule.asked_of head.AllocSpi fields.now }
{
    Ok(Item::One(Call::AllocSpi(read_alloc(fields)?)))
}

#[inline(never)]
#[tactic(auto, unfolding(crate::specs::Calls::asked_of))]
fn packet(fields: &Fields) -> Result<Item, Reason>
    ensures { result ≡ rule.asked_of head.Packet fields.now }
{
    Ok(Item::One(Call::Packet(read_packet(fields)?)))
}

#[inline(never)]
#[tactic(auto, unfolding(crate::specs::Calls::asked_of))]
fn flow(dir: Dir, fields: &Fields) -> Result<Item, Reason>
    ensures { result ≡ rule.asked_of (head.Flow dir) fields.now }
{
    Ok(Item::One(Call::Flow(read_flow(dir, fields)?)))
}

/// What a line asks for, by its head and its fields.
#[tactic(auto, unfolding(crate::specs::Calls::asked_of))]
pub(crate) fn read_asked(head: Head, fields: &Fields) -> Result<Item, Reason>
    ensures { result ≡ rule.asked_of head fields.now }
{
    match head {
        Head::PolicyAdd => policy_add(fields),
        Head::PolicyUpdate => policy_update(fields),
        Head::PolicyDelete => policy_delete(fields),
        Head::PolicyGet => policy_get(fields),
        Head::PolicyDeleteAll => policy_delete_all(fields),
        Head::PolicyList => policy_list(fields),
        Head::PolicyFlush => Ok(Item::One(Call::PolicyFlush(ptype_in(fields)))),
        Head::PolicyCount => Ok(Item::One(Call::PolicyCount)),
        Head::PolicySet => policy_set(fields),
        Head::StateAdd => state_add(fields),
        Head::StateUpdate => state_update(fields),
        Head::StateDelete => state_delete(fields),
        Head::StateGet => state_get(fields),
        Head::StateDeleteAll => state_delete_all(fields),
        Head::StateList => state_list(fields),
        Head::StateFlush => Ok(Item::One(Call::StateFlush(ipsec_in(fields)))),
        Head::StateCount => Ok(Item::One(Call::StateCount)),
        Head::AllocSpi => alloc_spi(fields),
        Head::Flow(dir) => flow(dir, fields),
        Head::Send => read_send(fields),
        Head::Packet => packet(fields),
        Head::Tick => read_tick(fields),
        Head::Worker => read_worker(fields),
        Head::Sync => Ok(Item::Sync),
    }
}
