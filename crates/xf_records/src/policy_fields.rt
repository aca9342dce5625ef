//! A policy's words before its templates.
ghost use Rattle.std.specs.Prelude.{◌≡◌, Option, Some, IfSome};
ghost use Rattle.xf_records.specs.Policies as record_of;

use crate::addresses::{family_word, high_word, low_word};
use crate::block::same_words;
use crate::kinds::{action_in, action_word, dir_in, dir_word, ptype_in, ptype_word};
use crate::numbers::{
    byte_word, flag_in, flag_word, given_word, number_word, port_word, small_in, small_word,
};
use crate::parts::{limits_of, selector_of};
use xf_types::{Mark, Policy, PolicySpec, Templates};

/// The words before the number of templates.
#[tactic(auto, unfolding(crate::specs::Policies::plain_words))]
pub(crate) fn plain_words(policy: &Policy) -> [u64; 34]
    ensures words { result ≡ record_of.plain_words policy.now }
    ensures fits { record_of.PlainFits policy.now }
{
    let spec = &policy.spec;
    [
        dir_word(spec.dir),
        ptype_word(spec.ptype),
        small_word(spec.if_id),
        family_word(&spec.sel.src.addr),
        high_word(&spec.sel.src.addr),
        low_word(&spec.sel.src.addr),
        byte_word(spec.sel.src.len),
        high_word(&spec.sel.dst.addr),
        low_word(&spec.sel.dst.addr),
        byte_word(spec.sel.dst.len),
        byte_word(spec.sel.proto),
        port_word(spec.sel.sport),
        port_word(spec.sel.dport),
        small_word(spec.mark.value),
        small_word(spec.mark.mask),
        small_word(spec.priority),
        policy.number,
        small_word(policy.index),
        small_word(spec.index),
        policy.added,
        action_word(spec.action),
        flag_word(policy.soft),
        spec.limits.time_soft,
        spec.limits.time_hard,
        spec.limits.use_soft,
        spec.limits.use_hard,
        given_word(spec.limits.byte_soft),
        number_word(spec.limits.byte_soft),
        given_word(spec.limits.byte_hard),
        number_word(spec.limits.byte_hard),
        given_word(spec.limits.packet_soft),
        number_word(spec.limits.packet_soft),
        given_word(spec.limits.packet_hard),
        number_word(spec.limits.packet_hard),
    ]
}

/// The policy that the words give, with these templates.
#[tactic(auto, unfolding(crate::specs::Policies::policy_of))]
fn policy_of(words: &[u64; 34], templates: Templates) -> Policy
    ensures words { result ≡ record_of.policy_of words.now templates }
    ensures templates { result.spec.templates ≡ templates }
{
    Policy {
        number: words[16],
        index: small_in(words[17]),
        added: words[19],
        soft: flag_in(words[21]),
        spec: PolicySpec {
            dir: dir_in(words[0]),
            ptype: ptype_in(words[1]),
            sel: selector_of(words, 3),
            mark: Mark {
                value: small_in(words[13]),
                mask: small_in(words[14]),
            },
            if_id: small_in(words[2]),
            priority: small_in(words[15]),
            action: action_in(words[20]),
            index: small_in(words[18]),
            limits: limits_of(words, 22),
            templates,
        },
    }
}

/// The policy of these words with these templates, where these are its words.
pub(crate) fn checked(words: &[u64; 34], templates: Templates) -> Option<Policy>
    ensures words { result ≡ record_of.checked words.now (Some templates) }
    ensures templates { IfSome result (λ p. p.spec.templates ≡ templates) }
{
    let policy = policy_of(words, templates);
    if same_words(&plain_words(&policy), words) {
        Some(policy)
    } else {
        None
    }
}
