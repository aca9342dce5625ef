//! Worked batches that are read and not run.
use super::{Case, FLOW, POLICY, SEND, SYNC, bad, check_all, check_whole, one, repeated};
use std::alloc::Global;
use std::process::Abort;
use std::sync::Wait;
use std::test::Fail;
use std::thread::Threads;
use xf_types::{Reason, Status};

/// A batch of `xfrm check` without faults.
fn checked<'a>(lines: &'a [&'a [u8]], text: &'a [u8], status: Status) -> Case<'a> {
    Case {
        words: &["check"],
        ..one(lines, text, status)
    }
}

#[test]
fn batches_that_are_only_read(rt: HostRuntime) -> Result<(), Fail> {
    let cases = [
        // no phase, and one
        checked(&[], b"phases 0 lines 0\n", Status::Done),
        checked(
            &[b"# nothing\n\n  \nworker 3\n"],
            b"phases 0 lines 0\n",
            Status::Done,
        ),
        checked(&[POLICY, FLOW], b"phases 1 lines 2\n", Status::Done),
        checked(&[b"tick now"], b"phases 1 lines 1\n", Status::Done),
        // two, the last one with and without a `sync` behind it
        checked(&[POLICY, SYNC, FLOW], b"phases 2 lines 2\n", Status::Done),
        checked(
            &[POLICY, SYNC, FLOW, FLOW, SYNC],
            b"phases 2 lines 3\n",
            Status::Done,
        ),
        // an empty phase counts where a `sync` ends it, and the last one where it has a call line
        checked(&[SYNC], b"phases 1 lines 0\n", Status::Done),
        checked(&[b"sync"], b"phases 1 lines 0\n", Status::Done),
        checked(&[SYNC, SYNC, SYNC], b"phases 3 lines 0\n", Status::Done),
        checked(&[SYNC, POLICY], b"phases 2 lines 1\n", Status::Done),
        checked(
            &[POLICY, SYNC, b"worker 1\n# nothing\n"],
            b"phases 1 lines 1\n",
            Status::Done,
        ),
        checked(&[POLICY, SYNC, SYNC], b"phases 2 lines 1\n", Status::Done),
        // the lines of all workers count, a send is one, and those of workers are none
        checked(
            &[
                POLICY,
                b"worker 3\n",
                FLOW,
                SEND,
                b"worker 15\n",
                FLOW,
                b"worker 0\n",
                SYNC,
                b"worker 3\n",
                FLOW,
            ],
            b"phases 2 lines 5\n",
            Status::Done,
        ),
        // nothing runs: no reply is a refusal
        checked(&[POLICY, POLICY], b"phases 1 lines 2\n", Status::Done),
        // the text of the first bad line alone, in whichever phase
        checked(
            &[POLICY, FLOW, b"colour\n", b"flow up\n"],
            b"bad line 3: word\n",
            bad(3, Reason::Word),
        ),
        checked(
            &[POLICY, SYNC, FLOW, SYNC, b"tick 01\n", SYNC],
            b"bad line 5: number\n",
            bad(5, Reason::Number),
        ),
        checked(
            &[POLICY, SYNC, FLOW, SYNC, b"flow \\"],
            b"bad line 5: cut\n",
            bad(5, Reason::Cut),
        ),
        // a source that fails: nothing is written, in the first phase or behind one
        Case {
            read_fails: &[1],
            ..checked(&[], b"", Status::ReadFault)
        },
        Case {
            read_fails: &[2],
            ..checked(&[POLICY, SYNC, FLOW], b"", Status::ReadFault)
        },
        // the end is read once
        Case {
            read_fails: &[3],
            ..checked(&[POLICY, SYNC, FLOW], b"phases 2 lines 2\n", Status::Done)
        },
        // a sink that fails, or has no room
        Case {
            write_fails: &[1],
            ..checked(&[POLICY], b"", Status::WriteFault)
        },
        Case {
            room: 16,
            ..checked(&[POLICY], b"", Status::WriteFault)
        },
        Case {
            write_fails: &[1],
            ..checked(&[POLICY, SYNC, b"colour\n"], b"", Status::WriteFault)
        },
        // one line is written, whole
        Case {
            write_fails: &[2],
            room: 17,
            ..checked(&[POLICY], b"phases 1 lines 1\n", Status::Done)
        },
    ];
    check_all(&rt, rt.alloc(), "check", &cases)
}

/// A large batch of `xfrm check` without faults has this text and status.
fn counts<R: Threads + Wait + Abort>(
    rt: &R,
    alloc: Global,
    lines: &[&[u8]],
    text: &[u8],
    status: Status,
) -> Result<(), Fail> {
    check_whole(rt, alloc, "counts", 0, &checked(lines, text, status))
}

// As many call lines as two phases may have, and one more.
#[test]
fn full_phases_are_counted(rt: HostRuntime) -> Result<(), Fail> {
    let flows = repeated(rt.alloc(), FLOW, 16_384)?;
    let lines = [flows.as_slice(), SYNC, &flows];
    let text = b"phases 2 lines 32768\n";
    counts(&rt, rt.alloc(), &lines, text, Status::Done)?;
    let lines = [flows.as_slice(), SYNC, &flows, FLOW];
    let text = b"bad line 32770: phase\n";
    counts(&rt, rt.alloc(), &lines, text, bad(32_770, Reason::Phase))
}
