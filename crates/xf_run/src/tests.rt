//! Worked batches over memory: what is written, and the status. Each subject's table is a file of its own. A batch is run
//! once as its source gives as much as it is asked for and, but for the largest, once as it comes byte by byte.
ghost use Rattle.std.specs.Prelude.{◌<◌, ◌^◌};

mod checking;
mod commands;
mod extended;
mod faults;
mod lifetimes;
mod lines;
mod packets;
mod phases;
mod pieces;
mod policies;
mod sending;
mod sizes;
mod states;
mod tables;
mod uses;

use super::top;
use pieces::Pieces;
use std::alloc::{AllocError, Global};
use std::io::Write;
use std::process::Abort;
use std::sync::Wait;
use std::test::Fail;
use std::thread::Threads;
use xf_io::{ListClock, MemSink, MemSource, OpenGate, Source};
use xf_types::{Reason, Status};

const POLICY: &[u8] = b"xfrm policy add src 10.0.0.0/8 dst 0.0.0.0/0 dir out priority 10\n";

const FLOW: &[u8] = b"flow out src 10.1.2.3 dst 192.0.2.1\n";

const SEND: &[u8] = b"send src 10.1.2.3 dst 192.0.2.1 len 10\n";

const COUNT: &[u8] = b"xfrm policy count\n";

const LIST: &[u8] = b"xfrm policy list\n";

const SYNC: &[u8] = b"sync\n";

/// A batch with its words, the clock's answers and its faults, and what must come of it.
#[derive(Clone, Copy)]
struct Case<'a> {
    words: &'a [&'a str],
    lines: &'a [&'a [u8]],
    seconds: &'a [u64],
    read_fails: &'a [u64],
    write_fails: &'a [u64],
    room: usize,
    text: &'a [u8],
    status: Status,
}

/// A batch of `xfrm one` without faults.
fn one<'a>(lines: &'a [&'a [u8]], text: &'a [u8], status: Status) -> Case<'a> {
    Case {
        words: &["one"],
        lines,
        seconds: &[],
        read_fails: &[],
        write_fails: &[],
        room: 4096,
        text,
        status,
    }
}

fn bad(line: u64, reason: Reason) -> Status {
    Status::BadLine { line, reason }
}

/// All bytes of a batch.
fn input(alloc: Global, case: &Case<'_>) -> Result<Vec<u8>, AllocError> {
    let mut bytes = Vec::new(alloc);
    for line in case.lines {
        bytes.extend_from_slice(line)?;
    }
    Ok(bytes)
}

fn run_from<R: Threads + Wait, S: Source>(
    rt: &R,
    alloc: Global,
    case: &Case<'_>,
    src: &mut S,
) -> Result<(Status, MemSink), AllocError> {
    let mut words = Vec::new(alloc);
    for word in case.words {
        words.push(String::from_str(alloc, word)?)?;
    }
    let mut sink = MemSink::new(
        vec![in alloc; 0u8; case.room]?,
        Vec::from_slice(alloc, case.write_fails)?,
    );
    let mut clock = ListClock::new(Vec::from_slice(alloc, case.seconds)?);
    let status = top(rt, alloc, &words, src, &mut sink, &mut clock, &OpenGate);
    Ok((status, sink))
}

/// A batch whose source gives as much as it is asked for.
fn run<R: Threads + Wait>(
    rt: &R,
    alloc: Global,
    case: &Case<'_>,
) -> Result<(Status, MemSink), AllocError> {
    let fails = Vec::from_slice(alloc, case.read_fails)?;
    let mut src = MemSource::new(input(alloc, case)?, fails);
    run_from(rt, alloc, case, &mut src)
}

/// A batch without read faults whose source gives so many bytes at its first read, and at each further one.
fn run_in_pieces<R: Threads + Wait>(
    rt: &R,
    alloc: Global,
    case: &Case<'_>,
    first: usize,
    further: usize,
) -> Result<(Status, MemSink), AllocError> {
    let whole = MemSource::new(input(alloc, case)?, Vec::new(alloc));
    let mut src = Pieces::new(whole, first, further);
    run_from(rt, alloc, case, &mut src)
}

/// The case has its text and status where its source gives as much as it is asked for.
fn check_whole<R: Threads + Wait + Abort>(
    rt: &R,
    alloc: Global,
    table: &str,
    i: usize,
    case: &Case<'_>,
) -> Result<(), Fail> {
    let (status, sink) = run(rt, alloc, case)?;
    assert_eq!(rt; status, case.status, "{table} {i}");
    assert_eq!(rt; sink.text(), case.text, "{table} {i}");
    Ok(())
}

/// The case has its text and status, also where its bytes come one by one.
fn check_case<R: Threads + Wait + Abort>(
    rt: &R,
    alloc: Global,
    table: &str,
    i: usize,
    case: &Case<'_>,
) -> Result<(), Fail> {
    check_whole(rt, alloc, table, i, case)?;
    if case.read_fails.is_empty() {
        let (status, sink) = run_in_pieces(rt, alloc, case, 1, 1)?;
        assert_eq!(rt; status, case.status, "{table} {i}, byte by byte");
        assert_eq!(rt; sink.text(), case.text, "{table} {i}, byte by byte");
    }
    Ok(())
}

/// Each case has its text and status.
fn check_all<R: Threads + Wait + Abort>(
    rt: &R,
    alloc: Global,
    table: &str,
    cases: &[Case<'_>],
) -> Result<(), Fail> {
    for (i, case) in cases.iter().enumerate() {
        check_case(rt, alloc, table, i, case)?;
    }
    Ok(())
}

/// A batch of `xfrm one` without faults has this text and status, also where its bytes come one by one.
fn runs<R: Threads + Wait + Abort>(
    rt: &R,
    alloc: Global,
    table: &str,
    lines: &[&[u8]],
    text: &[u8],
    status: Status,
) -> Result<(), Fail> {
    check_case(rt, alloc, table, 0, &one(lines, text, status))
}

/// A large batch of `xfrm one` without faults has this text and status.
fn answers<R: Threads + Wait + Abort>(
    rt: &R,
    alloc: Global,
    lines: &[&[u8]],
    text: &[u8],
    status: Status,
) -> Result<(), Fail> {
    let case = Case {
        room: text.len(),
        ..one(lines, text, status)
    };
    check_whole(rt, alloc, "batch", 0, &case)
}

fn repeated(alloc: Global, line: &[u8], count: usize) -> Result<Vec<u8>, AllocError> {
    let mut lines = Vec::new(alloc);
    for _ in 0..count {
        lines.extend_from_slice(line)?;
    }
    Ok(lines)
}

/// The same reply to each of so many lines, from this number on.
fn numbered(text: &mut Vec<u8>, first: u64, count: u32, reply: &str) -> Result<(), Fail>
    requires { first < 2 ^ 32 }
{
    for i in 0..count {
        let line = first + u64::from(i);
        writeln!(text, "{line}: {reply}")?;
    }
    Ok(())
}

/// A flow line of so many bytes before its line feed.
fn padded(alloc: Global, count: usize) -> Result<Vec<u8>, Fail> {
    let flow = b"flow out src 10.1.2.3 dst 192.0.2.1";
    let mut line = Vec::from_slice(alloc, flow)?;
    for _ in flow.len()..count {
        line.push(b' ')?;
    }
    line.push(b'\n')?;
    Ok(line)
}

/// 4,096 policies, each for a host of its own, and one more that finds the list full; and what is answered.
fn full_list(alloc: Global) -> Result<(Vec<u8>, Vec<u8>), Fail> {
    let mut input = Vec::new(alloc);
    let mut text = Vec::new(alloc);
    for i in 0..4097u32 {
        let (third, fourth) = (i / 256, i % 256);
        writeln!(
            input,
            "xfrm policy add src 0.0.0.0/0 dst 10.0.{third}.{fourth}/32 dir out priority 0"
        )?;
        let (line, index) = (i + 1, 8 * (i + 1) + 1);
        if i < 4096 {
            writeln!(text, "{line}: ok index {index}")?;
        }
    }
    text.extend_from_slice(b"4097: full live 4096 waiting 0\n")?;
    Ok((input, text))
}

/// 8,192 states, each of a host of its own, and one more that finds the list full; and what is answered.
fn full_states(alloc: Global) -> Result<(Vec<u8>, Vec<u8>), Fail> {
    let mut input = Vec::new(alloc);
    let mut text = Vec::new(alloc);
    for i in 0..8193u32 {
        let (third, fourth, line) = (i / 256, i % 256, i + 1);
        writeln!(
            input,
            "xfrm state add dst 10.0.{third}.{fourth} proto esp spi 1"
        )?;
        if i < 8192 {
            writeln!(text, "{line}: ok sid {line}")?;
        }
    }
    text.extend_from_slice(b"8193: full live 8192 waiting 0\n")?;
    Ok((input, text))
}
