//! The words of the parts that policies and states have in common.
ghost use Rattle.std.specs.Prelude.{◌≡◌, ◌+◌, ◌≤◌, min, length};
ghost use Rattle.xf_types.specs.Address.{width_of};
ghost use Rattle.xf_records.specs.Parts as part;

use crate::addresses::{addr_in, family_word, high_word, low_word};
use crate::kinds::{level_in, level_word, mode_in, mode_word, proto_in, proto_word};
use crate::numbers::{byte_in, limit_in, port_in, small_in, small_word};
use xf_types::{Addr, Limits, Prefix, Selector, Template};

// A length that fits the address's family.
fn len_in(addr: &Addr, word: u64) -> u8
    ensures len { result ≡ min word (width_of addr.now) }
    ensures fits { result ≤ width_of addr.now }
{
    match addr {
        Addr::V4(_) => word.min(32) as u8,
        Addr::V6(_) => word.min(128) as u8,
    }
}

/// The prefix that the words of an address and the word of a length give.
pub fn prefix_in(family: u64, high: u64, low: u64, len: u64) -> Prefix
    ensures { result ≡ part.prefix_in family high low len }
{
    let addr = addr_in(family, high, low);
    Prefix::new(addr, len_in(&addr, len))
}

/// The selector that ten words give, from a place on.
pub(crate) fn selector_of(words: &[u64], at: usize) -> Selector
    requires { at + 10 ≤ length words.now }
    ensures { result ≡ part.selector_of words.now at }
{
    let family = words[at];
    Selector {
        src: prefix_in(family, words[at + 1], words[at + 2], words[at + 3]),
        dst: prefix_in(family, words[at + 4], words[at + 5], words[at + 6]),
        proto: byte_in(words[at + 7]),
        sport: port_in(words[at + 8]),
        dport: port_in(words[at + 9]),
    }
}

/// The limits that twelve words give, from a place on.
pub(crate) fn limits_of(words: &[u64], at: usize) -> Limits
    requires { at + 12 ≤ length words.now }
    ensures { result ≡ part.limits_of words.now at }
{
    Limits {
        time_soft: words[at],
        time_hard: words[at + 1],
        use_soft: words[at + 2],
        use_hard: words[at + 3],
        byte_soft: limit_in(words[at + 4], words[at + 5]),
        byte_hard: limit_in(words[at + 6], words[at + 7]),
        packet_soft: limit_in(words[at + 8], words[at + 9]),
        packet_hard: limit_in(words[at + 10], words[at + 11]),
    }
}

/// A template's words.
#[tactic(auto, unfolding(crate::specs::Parts::template_words))]
pub(crate) fn template_words(t: &Template) -> [u64; 11]
    ensures words { result ≡ part.template_words t.now }
    ensures fits { part.TemplateFits t.now }
{
    [
        family_word(&t.src),
        high_word(&t.src),
        low_word(&t.src),
        family_word(&t.dst),
        high_word(&t.dst),
        low_word(&t.dst),
        proto_word(t.proto),
        small_word(t.spi),
        mode_word(t.mode),
        small_word(t.reqid),
        level_word(t.level),
    ]
}

/// The template that the words give.
#[tactic(auto, unfolding(crate::specs::Parts::template_of))]
pub(crate) fn template_of(words: &[u64; 11]) -> Template
    ensures { result ≡ part.template_of words.now }
{
    Template {
        src: addr_in(words[0], words[1], words[2]),
        dst: addr_in(words[3], words[4], words[5]),
        proto: proto_in(words[6]),
        spi: small_in(words[7]),
        mode: mode_in(words[8]),
        reqid: small_in(words[9]),
        level: level_in(words[10]),
    }
}
