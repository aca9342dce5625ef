//! A state's words.
ghost use Rattle.std.specs.Prelude.{◌≡◌, ◌≤◌, min, Option};
ghost use Rattle.xf_records.specs.States as record_of;

use crate::addresses::{addr_in, family_word, high_word, low_word};
use crate::kinds::{mode_in, mode_word, proto_in, proto_word};
use crate::numbers::{
    byte_word, flag_in, flag_word, given_word, number_in, number_word, port_word, small_in,
    small_word,
};
use crate::parts::{limits_of, selector_of};
use xf_types::{Addr, Mark, Prefix, Sa, SaSpec, Selector};

// The selector, or that of every IPv4 flow.
fn sel_or(sel: Option<Selector>) -> Selector
    ensures { result ≡ record_of.sel_or sel }
{
    match sel {
        Some(sel) => sel,
        None => {
            let every = Prefix::new(Addr::V4(0), 0);
            Selector {
                src: every,
                dst: every,
                proto: 0,
                sport: None,
                dport: None,
            }
        }
    }
}

// Whether there is a selector.
fn sel_given(sel: Option<Selector>) -> bool
    ensures { result ≡ record_of.sel_given sel }
{
    sel.is_some()
}

// The selector, where there is one.
fn sel_by(given: bool, sel: Selector) -> Option<Selector>
    ensures { result ≡ record_of.sel_by given sel }
{
    if given { Some(sel) } else { None }
}

// A window of at most 4,096 numbers.
fn window_in(word: u64) -> u32
    ensures window { result ≡ min word 4096 }
    ensures fits { result ≤ 4096 }
{
    word.min(4096) as u32
}

/// A state's words.
#[tactic(auto, unfolding(crate::specs::States::state_words))]
pub(crate) fn state_words(state: &Sa) -> [u64; 46]
    ensures words { result ≡ record_of.state_words state.now }
    ensures fits { record_of.StateFits state.now }
{
    let spec = &state.spec;
    let sel = sel_or(spec.sel);
    [
        family_word(&spec.dst),
        high_word(&spec.dst),
        low_word(&spec.dst),
        small_word(spec.spi),
        proto_word(spec.proto),
        small_word(spec.mark.value),
        small_word(spec.mark.mask),
        small_word(spec.reqid),
        mode_word(spec.mode),
        small_word(spec.if_id),
        family_word(&spec.src),
        high_word(&spec.src),
        low_word(&spec.src),
        flag_word(spec.wildrecv),
        flag_word(state.larval),
        flag_word(state.dying),
        state.sid,
        state.added,
        small_word(spec.seq),
        flag_word(sel_given(spec.sel)),
        family_word(&sel.src.addr),
        high_word(&sel.src.addr),
        low_word(&sel.src.addr),
        byte_word(sel.src.len),
        high_word(&sel.dst.addr),
        low_word(&sel.dst.addr),
        byte_word(sel.dst.len),
        byte_word(sel.proto),
        port_word(sel.sport),
        port_word(sel.dport),
        u64::from(spec.window),
        spec.in_seq,
        spec.out_seq,
        flag_word(spec.esn),
        spec.limits.time_soft,
        spec.limits.time_hard,
        spec.limits.use_soft,
        spec.limits.use_hard,
        given_word(spec.limits.byte_soft),
        number_word(spec.limits.byte_soft),
        given_word(spec.limits.byte_hard),
        number_word(spec.limits.byte_hard),
        given_word(spec.limits.packet_soft),
        number_word(spec.limits.packet_soft),
        given_word(spec.limits.packet_hard),
        number_word(spec.limits.packet_hard),
    ]
}

/// The state that the words give.
#[tactic(auto, unfolding(crate::specs::States::state_of))]
pub(crate) fn state_of(words: &[u64; 46]) -> Sa
    ensures { result ≡ record_of.state_of words.now }
{
    let esn = flag_in(words[33]);
    Sa {
        sid: words[16],
        added: words[17],
        larval: flag_in(words[14]),
        dying: flag_in(words[15]),
        spec: SaSpec {
            src: addr_in(words[10], words[11], words[12]),
            dst: addr_in(words[0], words[1], words[2]),
            proto: proto_in(words[4]),
            spi: small_in(words[3]),
            mode: mode_in(words[8]),
            reqid: small_in(words[7]),
            seq: small_in(words[18]),
            mark: Mark {
                value: small_in(words[5]),
                mask: small_in(words[6]),
            },
            if_id: small_in(words[9]),
            sel: sel_by(flag_in(words[19]), selector_of(words, 20)),
            window: window_in(words[30]),
            in_seq: number_in(esn, words[31]),
            out_seq: number_in(esn, words[32]),
            wildrecv: flag_in(words[13]),
            esn,
            limits: limits_of(words, 34),
        },
    }
}
