//! Inputs that come in pieces, wherever they break.
ghost use Rattle.std.specs.Prelude.{None};

use super::{Case, POLICY, SYNC, bad, input, one, run_in_pieces};
use std::alloc::Global;
use std::process::Abort;
use std::sync::Wait;
use std::test::Fail;
use std::thread::Threads;
use xf_io::{Failed, MemSource, Source};
use xf_types::{Reason, Status};

/// Gives the bytes of a list in pieces: a read gives at most so many, the first and each further one.
#[derive(Drop)]
pub struct Pieces {
    source: MemSource,
    next: usize,
    further: usize,
}

impl Pieces {
    pub fn new(source: MemSource, first: usize, further: usize) -> Pieces {
        Pieces {
            source,
            next: first,
            further,
        }
    }
}

impl Source for Pieces {
    ghost left = { λ _. None };

    ghost faults = { λ s. s.source.faults };

    fn read(&mut self, buf: &mut [u8]) -> Result<usize, Failed> {
        let count = self.next.max(1).min(buf.len());
        self.next = self.further;
        self.source.read(&mut buf[..count])
    }
}

/// The batch has its text and status in two pieces, wherever they meet, and in pieces of each size.
fn breaks_anywhere<R: Threads + Wait + Abort>(
    rt: &R,
    alloc: Global,
    case: &Case<'_>,
) -> Result<(), Fail> {
    let count = input(alloc, case)?.len();
    for place in 1..count {
        for further in [count, place] {
            let (status, sink) = run_in_pieces(rt, alloc, case, place, further)?;
            assert_eq!(rt; status, case.status, "pieces of {place} and {further}");
            assert_eq!(rt; sink.text(), case.text, "pieces of {place} and {further}");
        }
    }
    Ok(())
}

// Joined parts within a word, a quote, an address and in a row; a backslash, a quote and any byte in a comment.
#[test]
fn phases_break_anywhere(rt: HostRuntime) -> Result<(), Fail> {
    let lines: [&[u8]; 15] = [
        b"xfrm policy add src 10.0.0.0/8 \\\n",
        b"  dst 0.0.0.0/0 dir out # all of it \\\n",
        b"flow 'out' src \"10.1.\\\n",
        b"2.3\" dst 192.0.2.1\n",
        b"# \xff 'no quote \\\n",
        b"sy\\\n",
        b"nc # the \"end\n",
        b"flow out src 10.1.2.3 dst '192.0.2.1' # no 'end\n",
        b"wor\\\n",
        b"ker '1\\\n",
        b"5'\n",
        b"sync\n",
        b"flow out src 10.1.2.3 dst 192.0.2.1 ma\\\n",
        b"\\\n",
        b"rk 7",
    ];
    let text = b"1: ok index 9\n3: policy 9 allow\n8: policy 9 allow\n13: policy 9 allow\n";
    breaks_anywhere(&rt, rt.alloc(), &one(&lines, text, Status::Done))
}

#[test]
fn bad_lines_break_anywhere(rt: HostRuntime) -> Result<(), Fail> {
    let ends: [(&[u8], &[u8], Reason); 6] = [
        (
            b"flow 'out\n",
            b"1: ok index 9\nbad line 3: quote\n",
            Reason::Quote,
        ),
        (
            b"flow 'out \\\n# src\n",
            b"1: ok index 9\nbad line 3: quote\n",
            Reason::Quote,
        ),
        (
            b"flow out \\",
            b"1: ok index 9\nbad line 3: cut\n",
            Reason::Cut,
        ),
        (
            b"flow out \\\n",
            b"1: ok index 9\nbad line 3: cut\n",
            Reason::Cut,
        ),
        (
            b"flow\x07 'out\n\xff",
            b"1: ok index 9\nbad line 3: byte\n",
            Reason::Byte,
        ),
        (
            b"sync \\\n'colour'\n",
            b"1: ok index 9\nbad line 3: word\n",
            Reason::Word,
        ),
    ];
    for (line, text, reason) in ends {
        let lines = [POLICY, SYNC, line];
        breaks_anywhere(&rt, rt.alloc(), &one(&lines, text, bad(3, reason)))?;
    }
    Ok(())
}
