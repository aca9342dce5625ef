//! As many policies, states, call lines, `list` lines and bytes of a line as there may be, and one more.
use super::{
    COUNT, FLOW, LIST, POLICY, SEND, SYNC, answers, bad, full_list, full_states, numbered, padded,
    repeated, runs,
};
use std::test::Fail;
use xf_types::{Reason, Status};

#[test]
fn full_databases(rt: HostRuntime) -> Result<(), Fail> {
    let (full, text) = full_list(rt.alloc())?;
    answers(&rt, rt.alloc(), &[&full], &text, Status::Refusals)?;
    let (full, text) = full_states(rt.alloc())?;
    answers(&rt, rt.alloc(), &[&full], &text, Status::Refusals)
}

#[test]
fn full_phase(rt: HostRuntime) -> Result<(), Fail> {
    let counts = repeated(rt.alloc(), COUNT, 16_384)?;
    let mut text = Vec::new(rt.alloc());
    numbered(&mut text, 1, 16_384, "count in 0 out 0 fwd 0")?;
    // lines that are no call have room
    let behind = b"worker 3\n# one more\n\n";
    answers(&rt, rt.alloc(), &[&counts, behind], &text, Status::Done)?;
    // one more call line, which its own faults precede
    let rows: [(&[u8], &[u8], Reason); 5] = [
        (COUNT, b"bad line 16385: phase\n", Reason::Phase),
        (SEND, b"bad line 16385: phase\n", Reason::Phase),
        (b"tick now\n", b"bad line 16385: phase\n", Reason::Phase),
        (
            b"xfrm policy count colour\n",
            b"bad line 16385: word\n",
            Reason::Word,
        ),
        (b"worker 16\n", b"bad line 16385: range\n", Reason::Range),
    ];
    for (line, text, reason) in rows {
        let mut input = Vec::from_slice(rt.alloc(), &counts)?;
        input.extend_from_slice(line)?;
        answers(&rt, rt.alloc(), &[&input], text, bad(16_385, reason))?;
    }
    // also of another worker
    let lines = [counts.as_slice(), b"worker 1\n", COUNT];
    let text = b"bad line 16386: phase\n";
    let status = bad(16_386, Reason::Phase);
    answers(&rt, rt.alloc(), &lines, text, status)
}

// Each phase has room for as many call lines.
#[test]
fn two_full_phases(rt: HostRuntime) -> Result<(), Fail> {
    let counts = repeated(rt.alloc(), COUNT, 16_384)?;
    let mut text = Vec::new(rt.alloc());
    numbered(&mut text, 1, 16_384, "count in 0 out 0 fwd 0")?;
    let first = text.len();
    numbered(&mut text, 16_386, 16_384, "count in 0 out 0 fwd 0")?;
    let lines = [counts.as_slice(), SYNC, &counts];
    answers(&rt, rt.alloc(), &lines, &text, Status::Done)?;
    text.truncate(first);
    text.extend_from_slice(b"bad line 32770: phase\n")?;
    let lines = [counts.as_slice(), SYNC, &counts, COUNT];
    let status = bad(32_770, Reason::Phase);
    answers(&rt, rt.alloc(), &lines, &text, status)
}

#[test]
fn lists_of_a_phase(rt: HostRuntime) -> Result<(), Fail> {
    let lists = repeated(rt.alloc(), LIST, 128)?;
    let states = repeated(rt.alloc(), b"xfrm state list\n", 128)?;
    let mut text = Vec::new(rt.alloc());
    numbered(&mut text, 1, 256, "list 0")?;
    let first = text.len();
    // other lines have room, and so have the lists of the next phase
    text.extend_from_slice(b"257: none\n")?;
    numbered(&mut text, 259, 256, "list 0")?;
    let lines = [lists.as_slice(), &states, FLOW, SYNC, &lists, &states];
    answers(&rt, rt.alloc(), &lines, &text, Status::Done)?;
    // one more list, of policies or states, and of another worker
    let lines = [lists.as_slice(), &states, LIST];
    let bad_text = b"bad line 257: phase\n";
    answers(&rt, rt.alloc(), &lines, bad_text, bad(257, Reason::Phase))?;
    let lines = [
        lists.as_slice(),
        &states,
        b"worker 1\n",
        b"xfrm state list\n",
    ];
    let bad_text = b"bad line 258: phase\n";
    answers(&rt, rt.alloc(), &lines, bad_text, bad(258, Reason::Phase))?;
    // and in a later phase
    text.truncate(first);
    text.extend_from_slice(b"bad line 514: phase\n")?;
    let lines = [lists.as_slice(), &states, SYNC, &lists, &states, LIST];
    answers(&rt, rt.alloc(), &lines, &text, bad(514, Reason::Phase))
}

#[test]
fn bytes_of_a_line(rt: HostRuntime) -> Result<(), Fail> {
    let alloc = rt.alloc();
    let (line, more) = (padded(alloc, 4096)?, padded(alloc, 4097)?);
    let (none, long, cut) = (b"1: none\n", b"bad line 1: long\n", b"bad line 1: cut\n");
    let (is_long, is_cut) = (bad(1, Reason::Long), bad(1, Reason::Cut));
    runs(&rt, alloc, "whole", &[&line], none, Status::Done)?;
    // it comes before the line's other faults
    runs(&rt, alloc, "longer", &[&more, b"\x07"], long, is_long)?;
    // a backslash that joins doesn't count, nor does one at the end
    let mut front = padded(alloc, 4096)?;
    front.truncate(4096);
    runs(
        &rt,
        alloc,
        "joined",
        &[&front, b"\\\n\n"],
        none,
        Status::Done,
    )?;
    runs(
        &rt,
        alloc,
        "joined to nothing",
        &[&front, b"\\\n"],
        cut,
        is_cut,
    )?;
    runs(&rt, alloc, "cut off", &[&front, b"\\"], cut, is_cut)?;
    // any other byte does
    runs(
        &rt,
        alloc,
        "joined to more",
        &[&front, b"\\\n "],
        long,
        is_long,
    )?;
    runs(&rt, alloc, "backslash", &[&front, b"\\ "], long, is_long)?;
    runs(&rt, alloc, "comment", &[&front, b"#"], long, is_long)?;
    // in a later phase
    let text = b"1: ok index 9\nbad line 4: long\n";
    let status = bad(4, Reason::Long);
    runs(
        &rt,
        alloc,
        "later",
        &[POLICY, SYNC, &line, &more],
        text,
        status,
    )
}

// An input may have far more bytes than a line and a phase have room for; none of these reaches its limit.
#[test]
fn many_bytes(rt: HostRuntime) -> Result<(), Fail> {
    let feeds = repeated(rt.alloc(), b"\n", 1 << 20)?;
    let lines = [feeds.as_slice(), POLICY, SYNC, &feeds, FLOW];
    let text = b"1048577: ok index 9\n2097155: policy 9 allow\n";
    answers(&rt, rt.alloc(), &lines, text, Status::Done)
}
