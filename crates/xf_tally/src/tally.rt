//! A summary that grows by one reply after another.
ghost use Rattle.std.specs.Prelude.{◌≡◌, ℕ, ◌+◌, ◌<◌, ◌≤◌, ◌^◌, List, [], ◌∷◌, ◌++◌};
ghost use Rattle.xf_types.specs.declared.call.Receipt.{Receipt};
ghost use Rattle.xf_tally.specs.Summary.{Summary, counted, summary_of};

use crate::kinds::{has_none, has_policy, is_accepted, is_dropped, is_sent, mix_of};
use std::marker::Model;
use xf_types::Reply;

/// The numbers of a summary so far. A contract sees them as one `Summary`.
#[derive(Debug, Drop)]
pub struct Tally {
    lines: u64,
    calls: u64,
    policy: u64,
    none: u64,
    sent: u64,
    accepted: u64,
    dropped: u64,
    refused: u64,
    mix: u128,
}

impl Model for Tally {
    ghost use Rattle.xf_tally.specs.Summary.{Summary};
    ghost use Rattle.xf_tally.specs.Bounds.{IsCounted};

    ghost Value = { Summary };

    ghost view = { λ t. record {
      lines = t.lines;
      calls = t.calls;
      policy = t.policy;
      none = t.none;
      sent = t.sent;
      accepted = t.accepted;
      dropped = t.dropped;
      refused = t.refused;
      mix = t.mix;
    } };

    ghost invariant = { λ t. IsCounted t.calls t.policy t.none t.sent t.accepted t.dropped t.refused t.mix };
}

impl Tally {
    /// A tally of no lines and no receipts.
    #[tactic(auto, unfolding(crate::specs::Summary::summary_of))]
    pub fn new() -> Tally
        ensures summary { result ≡ summary_of 0 [] }
        ensures no_lines { result.lines ≡ 0 }
        ensures no_calls { result.calls ≡ 0 }
    {
        Tally {
            lines: 0,
            calls: 0,
            policy: 0,
            none: 0,
            sent: 0,
            accepted: 0,
            dropped: 0,
            refused: 0,
            mix: 0,
        }
    }

    /// Counts more call lines.
    pub fn add_lines(&mut self, count: u64)
        requires { self.old.lines + count < 2 ^ 64 }
        ensures lines { self.new ≡ record self.old { lines = self.old.lines + count } }
        ensures summary { (lines : ℕ) (h : List Receipt) → self.old ≡ summary_of lines h
            → self.new ≡ summary_of (lines + count) h }
    {
        self.lines += count;
    }

    /// Counts a reply to a call of this line.
    pub fn add(&mut self, line: u64, reply: &Reply)
        requires line { line ≤ 2 ^ 20 }
        requires room { self.old.calls < 2 ^ 40 }
        ensures counted { self.new ≡ counted self.old line reply.now }
        // Who has counted the receipts h has now counted these and one more.
        ensures summary { (lines : ℕ) (h : List Receipt) (r : Receipt)
            → r.at.line ≡ line → r.reply ≡ reply.now
            → self.old ≡ summary_of lines h → self.new ≡ summary_of lines (h ++ r ∷ []) }
    {
        self.calls += 1;
        self.policy += u64::from(has_policy(reply));
        self.none += u64::from(has_none(reply));
        self.sent += u64::from(is_sent(reply));
        self.accepted += u64::from(is_accepted(reply));
        self.dropped += u64::from(is_dropped(reply));
        self.refused += u64::from(reply.is_refusal());
        self.mix += mix_of(line, reply);
    }

    pub fn lines(&self) -> u64
        ensures { result ≡ self.now.lines }
    {
        self.lines
    }

    pub fn calls(&self) -> u64
        ensures { result ≡ self.now.calls }
    {
        self.calls
    }

    pub fn policy(&self) -> u64
        ensures { result ≡ self.now.policy }
    {
        self.policy
    }

    pub fn none(&self) -> u64
        ensures { result ≡ self.now.none }
    {
        self.none
    }

    pub fn sent(&self) -> u64
        ensures { result ≡ self.now.sent }
    {
        self.sent
    }

    pub fn accepted(&self) -> u64
        ensures { result ≡ self.now.accepted }
    {
        self.accepted
    }

    pub fn dropped(&self) -> u64
        ensures { result ≡ self.now.dropped }
    {
        self.dropped
    }

    pub fn refused(&self) -> u64
        ensures { result ≡ self.now.refused }
    {
        self.refused
    }

    pub fn mix(&self) -> u128
        ensures { result ≡ self.now.mix }
    {
        self.mix
    }
}
