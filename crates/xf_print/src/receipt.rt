//! The lines of a receipt.
ghost use Rattle.std.specs.Prelude.{◌≡◌, ◌++◌, OnOk, OnErr, map};
ghost use Rattle.std.specs.List.{flat_map};
ghost use Rattle.xf_print.specs.Records.{policy_text, state_text};
ghost use Rattle.xf_print.specs.Replies.{event_text, further_texts};
ghost use Rattle.xf_print.specs.Receipts.{place_text, line_text, answer_text, receipt_text};

use crate::policy::put_policy;
use crate::put::{put, put_number};
use crate::reply::{put_event, put_reply};
use crate::state::put_state;
use xf_types::{Event, NoMemory, Place, Policy, Receipt, Reply, Sa};

#[tactic(auto, unfolding(crate::specs::Receipts::place_text))]
fn put_place(out: &mut Vec<u8>, at: Place) -> Result<(), NoMemory>
    ensures { OnOk result (out.new.items ≡ out.old.items ++ place_text at) }
{
    put_number(out, b"", at.line)?;
    if at.part != 0 {
        put_number(out, b".", u64::from(at.part))?;
    }
    put(out, b": ")
}

fn put_policies(out: &mut Vec<u8>, at: Place, policies: &[Policy]) -> Result<(), NoMemory>
    ensures { OnOk result
        (out.new.items ≡ out.old.items ++ flat_map (line_text at) (map policy_text policies.now)) }
{
    for policy in policies {
        put_place(out, at)?;
        put_policy(out, policy)?;
        put(out, b"\n")?;
    }
    Ok(())
}

fn put_states(out: &mut Vec<u8>, at: Place, states: &[Sa]) -> Result<(), NoMemory>
    ensures { OnOk result
        (out.new.items ≡ out.old.items ++ flat_map (line_text at) (map state_text states.now)) }
{
    for state in states {
        put_place(out, at)?;
        put_state(out, state)?;
        put(out, b"\n")?;
    }
    Ok(())
}

fn put_events(out: &mut Vec<u8>, at: Place, events: &[Event]) -> Result<(), NoMemory>
    ensures { OnOk result
        (out.new.items ≡ out.old.items ++ flat_map (line_text at) (map event_text events.now)) }
{
    for event in events {
        put_place(out, at)?;
        put_event(out, *event)?;
        put(out, b"\n")?;
    }
    Ok(())
}

#[tactic(auto, unfolding(crate::specs::Replies::further_texts))]
fn put_further(out: &mut Vec<u8>, at: Place, reply: &Reply) -> Result<(), NoMemory>
    ensures { OnOk result (out.new.items ≡ out.old.items ++ flat_map (line_text at) (further_texts reply.now)) }
{
    match reply {
        Reply::PolicyList(policies) => put_policies(out, at, policies.as_slice()),
        Reply::StateList(states) => put_states(out, at, states.as_slice()),
        Reply::Ticked { now: _, events } => put_events(out, at, events.as_slice()),
        _ => Ok(()),
    }
}

#[tactic(auto, unfolding(crate::specs::Receipts::answer_text))]
fn put_answer(out: &mut Vec<u8>, at: Place, reply: &Reply) -> Result<(), NoMemory>
    ensures { OnOk result (out.new.items ≡ out.old.items ++ answer_text at reply.now) }
{
    put_place(out, at)?;
    put_reply(out, reply)?;
    put(out, b"\n")?;
    put_further(out, at, reply)
}

/// Appends the lines of a reply to the call at a place. Each begins with `LINE: `, or `LINE.PART: ` for a part above 0, and ends
/// with a line feed.
pub fn print_answer(out: &mut Vec<u8>, at: Place, reply: &Reply) -> Result<(), NoMemory>
    ensures text { OnOk result (out.new.items ≡ out.old.items ++ answer_text at reply.now) }
    ensures memory { OnErr result (out.new.items ≡ out.old.items) }
{
    // The text is made aside, unless nothing stands in the list that could be spoilt.
    if out.is_empty() {
        match put_answer(out, at, reply) {
            Ok(()) => Ok(()),
            Err(e) => {
                out.clear();
                Err(e)
            }
        }
    } else {
        let mut text = Vec::new(*out.allocator());
        put_answer(&mut text, at, reply)?;
        put(out, &text)
    }
}

/// Appends the lines of a receipt.
pub fn print_receipt(out: &mut Vec<u8>, r: &Receipt) -> Result<(), NoMemory>
    ensures text { OnOk result (out.new.items ≡ out.old.items ++ receipt_text r.now) }
    ensures memory { OnErr result (out.new.items ≡ out.old.items) }
{
    print_answer(out, r.at, &r.reply)
}
