//! Sources and sinks that fail.
use super::{
    Case, FLOW, LIST, POLICY, SEND, SYNC, bad, check_all, check_whole, one, padded, repeated,
};
use std::alloc::Global;
use std::process::Abort;
use std::sync::Wait;
use std::test::Fail;
use std::thread::Threads;
use xf_types::{Reason, Status};

#[test]
fn sources_that_fail(rt: HostRuntime) -> Result<(), Fail> {
    let cases = [
        // at the second read, which would find the end, and at once
        Case {
            read_fails: &[2],
            ..one(&[POLICY, FLOW], b"", Status::ReadFault)
        },
        Case {
            read_fails: &[1],
            ..one(&[], b"", Status::ReadFault)
        },
        // earlier phases stand written, and the one that is being read doesn't run
        Case {
            read_fails: &[2],
            ..one(
                &[POLICY, FLOW, SYNC, FLOW],
                b"1: ok index 9\n2: policy 9 allow\n",
                Status::ReadFault,
            )
        },
        Case {
            read_fails: &[2],
            ..one(
                &[POLICY, SYNC, FLOW, SYNC],
                b"1: ok index 9\n3: policy 9 allow\n",
                Status::ReadFault,
            )
        },
        // no `sync` is known to be whole before its line feed or the end
        Case {
            read_fails: &[2],
            ..one(&[POLICY, b"sync"], b"", Status::ReadFault)
        },
        // a bad line is found before the next read, where it is whole
        Case {
            read_fails: &[2],
            ..one(
                &[POLICY, SYNC, FLOW, b"colour\n", FLOW],
                b"1: ok index 9\nbad line 4: word\n",
                bad(4, Reason::Word),
            )
        },
        Case {
            read_fails: &[2],
            ..one(
                &[POLICY, SYNC, FLOW, b"colour"],
                b"1: ok index 9\n",
                Status::ReadFault,
            )
        },
        // the end that ends a `sync` is read once, and no phase is begun behind it
        Case {
            read_fails: &[3],
            ..one(&[POLICY, SYNC, b"sync"], b"1: ok index 9\n", Status::Done)
        },
        // a refusal in an earlier phase is no status of its own then
        Case {
            read_fails: &[2],
            ..one(
                &[POLICY, POLICY, SYNC, FLOW],
                b"1: ok index 9\n2: RTNETLINK answers: File exists\n",
                Status::ReadFault,
            )
        },
    ];
    check_all(&rt, rt.alloc(), "sources", &cases)
}

/// A batch whose source fails at these reads.
fn failing<'a>(
    read_fails: &'a [u64],
    lines: &'a [&'a [u8]],
    text: &'a [u8],
    status: Status,
) -> Case<'a> {
    Case {
        read_fails,
        ..one(lines, text, status)
    }
}

fn reads<R: Threads + Wait + Abort>(
    rt: &R,
    alloc: Global,
    read_fails: &[u64],
    lines: &[&[u8]],
    text: &[u8],
    status: Status,
) -> Result<(), Fail> {
    let case = failing(read_fails, lines, text, status);
    check_whole(rt, alloc, "reads", 0, &case)
}

// A read asks for 4,096 bytes, and comes only where no whole line is left.
#[test]
fn reads_come_as_needed(rt: HostRuntime) -> Result<(), Fail> {
    let alloc = rt.alloc();
    // the first phase takes the first read's bytes, or one more
    let within = padded(alloc, 4090)?;
    reads(
        &rt,
        alloc,
        &[2],
        &[&within, SYNC],
        b"1: none\n",
        Status::ReadFault,
    )?;
    let past = padded(alloc, 4091)?;
    reads(&rt, alloc, &[2], &[&past, SYNC], b"", Status::ReadFault)?;
    reads(
        &rt,
        alloc,
        &[3],
        &[&past, SYNC],
        b"1: none\n",
        Status::ReadFault,
    )?;
    reads(&rt, alloc, &[4], &[&past, SYNC], b"1: none\n", Status::Done)?;
    // a line that is long at the second read's first byte
    let long = repeated(alloc, b"a", 4097)?;
    reads(&rt, alloc, &[2], &[&long], b"", Status::ReadFault)?;
    let status = bad(1, Reason::Long);
    reads(&rt, alloc, &[3], &[&long], b"bad line 1: long\n", status)
}

#[test]
fn sinks_that_fail(rt: HostRuntime) -> Result<(), Fail> {
    let cases = [
        // at the second write, and with room for the first line and a half
        Case {
            write_fails: &[2],
            ..one(&[POLICY, FLOW], b"1: ok index 9\n", Status::WriteFault)
        },
        Case {
            room: 20,
            ..one(&[POLICY, FLOW], b"1: ok index 9\n", Status::WriteFault)
        },
        // a list is offered line by line, and a send's outputs are
        Case {
            write_fails: &[2],
            ..one(&[LIST, LIST], b"1: list 0\n", Status::WriteFault)
        },
        Case {
            write_fails: &[3],
            ..one(
                &[POLICY, LIST],
                b"1: ok index 9\n2: list 1\n",
                Status::WriteFault,
            )
        },
        Case {
            write_fails: &[2],
            ..one(&[POLICY, SEND], b"1: ok index 9\n", Status::WriteFault)
        },
        Case {
            write_fails: &[4],
            ..one(
                &[
                    b"xfrm policy add dir out tmpl proto esp reqid 7\n",
                    b"xfrm state add dst 192.0.2.1 proto esp spi 0x10 reqid 7\n",
                    SEND,
                    FLOW,
                ],
                b"1: ok index 9\n2: ok sid 1\n3: policy 9 allow esp 0x00000010 192.0.2.1\n",
                Status::WriteFault,
            )
        },
        // the text of a bad line
        Case {
            write_fails: &[1],
            ..one(&[b"nonsense"], b"", Status::WriteFault)
        },
        // in a later phase, at its first line and at the text of its bad line
        Case {
            write_fails: &[3],
            ..one(
                &[POLICY, FLOW, SYNC, FLOW, FLOW],
                b"1: ok index 9\n2: policy 9 allow\n",
                Status::WriteFault,
            )
        },
        Case {
            write_fails: &[2],
            ..one(
                &[POLICY, SYNC, FLOW, b"colour\n"],
                b"1: ok index 9\n",
                Status::WriteFault,
            )
        },
        // it comes before what would be read later
        Case {
            write_fails: &[1],
            read_fails: &[2],
            ..one(&[POLICY, SYNC, FLOW], b"", Status::WriteFault)
        },
        // a refusal that was written is no status of its own then
        Case {
            write_fails: &[3],
            ..one(
                &[POLICY, POLICY, SYNC, FLOW],
                b"1: ok index 9\n2: RTNETLINK answers: File exists\n",
                Status::WriteFault,
            )
        },
    ];
    check_all(&rt, rt.alloc(), "sinks", &cases)
}
