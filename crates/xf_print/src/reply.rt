//! The first line of a reply.
ghost use Rattle.std.specs.Prelude.{◌≡◌, ◌++◌, OnOk, codes, decimal};
ghost use Rattle.std.specs.List.{flat_map};
ghost use Rattle.xf_print.specs.Numbers.{hex_text};
ghost use Rattle.xf_print.specs.Words.{proto_text};
ghost use Rattle.xf_print.specs.Replies.{hop_text, event_text, soft_text, reply_text};

use crate::policy::put_policy;
use crate::put::{put, put_about, put_addr, put_flag, put_hex, put_number, put_two};
use crate::state::put_state;
use crate::words::proto_word;
use xf_types::{Event, Hop, NoMemory, Proto, Reply};

#[tactic(auto, unfolding(crate::specs::Replies::soft_text))]
fn put_soft(out: &mut Vec<u8>, soft: bool) -> Result<(), NoMemory>
    ensures { OnOk result (out.new.items ≡ out.old.items ++ soft_text soft) }
{
    put_flag(out, b" soft", soft)
}

#[tactic(auto, unfolding(crate::specs::Replies::hop_text))]
fn put_hop(out: &mut Vec<u8>, hop: &Hop) -> Result<(), NoMemory>
    ensures { OnOk result (out.new.items ≡ out.old.items ++ hop_text hop.now) }
{
    put(out, b" ")?;
    put(out, proto_word(hop.proto))?;
    put_hex(out, b" ", hop.spi)?;
    put_addr(out, b" ", &hop.dst)
}

fn put_hops(out: &mut Vec<u8>, hops: &[Hop]) -> Result<(), NoMemory>
    ensures { OnOk result (out.new.items ≡ out.old.items ++ flat_map hop_text hops.now) }
{
    for hop in hops {
        put_hop(out, hop)?;
    }
    Ok(())
}

fn put_allow(out: &mut Vec<u8>, index: u32, hops: &[Hop]) -> Result<(), NoMemory>
    ensures { OnOk result
        (out.new.items ≡ out.old.items ++ (codes "policy " ++ decimal index ++ codes " allow" ++ flat_map hop_text hops.now)) }
{
    put_about(out, b"policy ", u64::from(index), b" allow")?;
    put_hops(out, hops)
}

fn put_new_spi(out: &mut Vec<u8>, spi: u32, sid: u64) -> Result<(), NoMemory>
    ensures { OnOk result
        (out.new.items ≡ out.old.items ++ (codes "ok spi " ++ hex_text spi ++ codes " sid " ++ decimal sid)) }
{
    put_hex(out, b"ok spi ", spi)?;
    put_number(out, b" sid ", sid)
}

fn put_counts(out: &mut Vec<u8>, inward: u32, outward: u32, forward: u32) -> Result<(), NoMemory>
    ensures { OnOk result
        (out.new.items ≡ out.old.items ++ (codes "count in " ++ decimal inward ++ codes " out " ++ decimal outward
        ++ codes " fwd " ++ decimal forward)) }
{
    put_two(
        out,
        b"count in ",
        u64::from(inward),
        b" out ",
        u64::from(outward),
    )?;
    put_number(out, b" fwd ", u64::from(forward))
}

fn put_word(out: &mut Vec<u8>, word: &[u8], soft: bool) -> Result<(), NoMemory>
    ensures { OnOk result (out.new.items ≡ out.old.items ++ (word.now ++ soft_text soft)) }
{
    put(out, word)?;
    put_soft(out, soft)
}

fn put_top(out: &mut Vec<u8>, word: &[u8], top: u64, soft: bool) -> Result<(), NoMemory>
    ensures { OnOk result (out.new.items ≡ out.old.items ++ (word.now ++ decimal top ++ soft_text soft)) }
{
    put_number(out, word, top)?;
    put_soft(out, soft)
}

fn put_sent(out: &mut Vec<u8>, proto: Proto, spi: u32, seq: u64, soft: bool) -> Result<(), NoMemory>
    ensures { OnOk result
        (out.new.items ≡ out.old.items ++ (codes "sent " ++ proto_text proto ++ codes " " ++ hex_text spi
        ++ codes " seq " ++ decimal seq ++ soft_text soft)) }
{
    put(out, b"sent ")?;
    put(out, proto_word(proto))?;
    put_hex(out, b" ", spi)?;
    put_top(out, b" seq ", seq, soft)
}

#[tactic(auto, unfolding(crate::specs::Replies::reply_text))]
pub(crate) fn put_reply(out: &mut Vec<u8>, reply: &Reply) -> Result<(), NoMemory>
    ensures { OnOk result (out.new.items ≡ out.old.items ++ reply_text reply.now) }
{
    match reply {
        Reply::Done => put(out, b"ok"),
        Reply::DoneIndex(index) => put_number(out, b"ok index ", u64::from(*index)),
        Reply::DoneSid(sid) => put_number(out, b"ok sid ", *sid),
        Reply::DoneSpi { spi, sid } => put_new_spi(out, *spi, *sid),
        Reply::Removed(count) => put_number(out, b"ok removed ", u64::from(*count)),
        Reply::PolicyShown(policy) => put_policy(out, policy),
        Reply::PolicyList(policies) => put_number(out, b"list ", policies.as_slice().len() as u64),
        Reply::PolicyCount {
            inward,
            outward,
            forward,
        } => put_counts(out, *inward, *outward, *forward),
        Reply::StateShown(state) => put_state(out, state),
        Reply::StateList(states) => put_number(out, b"list ", states.as_slice().len() as u64),
        Reply::StateCount(count) => put_number(out, b"count ", u64::from(*count)),
        Reply::FlowNone => put(out, b"none"),
        Reply::FlowBlock(index) => put_about(out, b"policy ", u64::from(*index), b" block"),
        Reply::FlowAllow { index, path } => put_allow(out, *index, path.as_slice()),
        Reply::Waiting(seq) => put_number(out, b"waiting ", u64::from(*seq)),
        Reply::Acquire(seq) => put_number(out, b"acquire ", u64::from(*seq)),
        Reply::Wanting { index, template } => put_two(
            out,
            b"policy ",
            u64::from(*index),
            b" wants template ",
            u64::from(*template),
        ),
        Reply::Again(tries) => put_number(out, b"again ", u64::from(*tries)),
        Reply::Accepted { top, soft } => put_top(out, b"accepted top ", *top, *soft),
        Reply::Zero => put(out, b"zero"),
        Reply::Old { top } => put_number(out, b"old top ", *top),
        Reply::Seen { top } => put_number(out, b"seen top ", *top),
        Reply::Expired => put(out, b"expired"),
        Reply::Larval => put(out, b"larval"),
        Reply::BadIcv { soft } => put_word(out, b"icv", *soft),
        Reply::Sent {
            proto,
            spi,
            seq,
            soft,
        } => put_sent(out, *proto, *spi, *seq, *soft),
        Reply::Stale => put(out, b"stale"),
        Reply::Overflow { soft } => put_word(out, b"overflow", *soft),
        Reply::Ticked { now, events } => {
            put_two(
                out,
                b"now ",
                *now,
                b" events ",
                events.as_slice().len() as u64,
            )
        }
        Reply::PolicyExists(_) => put(out, b"RTNETLINK answers: File exists"),
        Reply::StateExists(_) => put(out, b"RTNETLINK answers: File exists"),
        Reply::NoEntry => put(out, b"RTNETLINK answers: No such file or directory"),
        Reply::NoState => put(out, b"RTNETLINK answers: No such process"),
        Reply::Invalid => put(out, b"RTNETLINK answers: Invalid argument"),
        Reply::Full { live, waiting } => {
            put_two(
                out,
                b"full live ",
                u64::from(*live),
                b" waiting ",
                u64::from(*waiting),
            )
        }
        Reply::NoSpi => put(out, b"no spi"),
        Reply::NoMemory => put(out, b"RTNETLINK answers: Cannot allocate memory"),
    }
}

#[tactic(auto, unfolding(crate::specs::Replies::event_text))]
pub(crate) fn put_event(out: &mut Vec<u8>, event: Event) -> Result<(), NoMemory>
    ensures { OnOk result (out.new.items ≡ out.old.items ++ event_text event) }
{
    match event {
        Event::PolicySoft(index) => put_about(out, b"policy ", u64::from(index), b" soft"),
        Event::PolicyExpired(index) => put_about(out, b"policy ", u64::from(index), b" expired"),
        Event::StateSoft(sid) => put_about(out, b"state ", sid, b" soft"),
        Event::StateExpired(sid) => put_about(out, b"state ", sid, b" expired"),
    }
}
