//! Worked batches of several phases and workers.
use super::tables::check_table;
use super::{Case, FLOW, POLICY, SYNC, bad, check_all, one, repeated, runs};
use std::test::Fail;
use xf_types::{Reason, Status};

const PHASES: &[u8] = b"
# empty phases, and a `sync` at the end, with its line feed and without
> sync
= 0

> sync
> sync
> flow out src 10.1.2.3 dst 192.0.2.1
3: none
= 0

> xfrm policy add src 10.0.0.0/8 dst 0.0.0.0/0 dir out priority 10
> sync
1: ok index 9
= 0

# lines are numbered through all phases, by their first parts
> # a phase
> 
> sy\\
> nc  # its end
> flow out src 10.1.2.3 dst 192.0.2.1
> \t'sync' 
> flow out src 10.1.2.3 dst 192.0.2.1
5: none
7: none
= 0

# a refusal in any phase, the first or the last
> xfrm policy add src 10.0.0.0/8 dst 0.0.0.0/0 dir out priority 10
> xfrm policy add src 10.0.0.0/8 dst 0.0.0.0/0 dir out priority 10
> sync
> flow out src 10.1.2.3 dst 192.0.2.1
> sync
> flow out src 10.1.2.3 dst 192.0.2.1
1: ok index 9
2: RTNETLINK answers: File exists
4: policy 9 allow
6: policy 9 allow
= 1

> xfrm policy add src 10.0.0.0/8 dst 0.0.0.0/0 dir out priority 10
> sync
> flow out src 10.1.2.3 dst 192.0.2.1
> sync
> xfrm policy add src 10.0.0.0/8 dst 0.0.0.0/0 dir out priority 10
1: ok index 9
3: policy 9 allow
5: RTNETLINK answers: File exists
= 1

# under one thread the lines of all workers run in the order of the input
> worker 3
> flow out src 10.1.2.3 dst 192.0.2.1
> worker 1
> xfrm policy add src 10.0.0.0/8 dst 0.0.0.0/0 dir out priority 10
> flow out src 10.1.2.3 dst 192.0.2.1
> worker 15
> xfrm policy delete index 9 dir out
> worker 3
> flow out src 10.1.2.3 dst 192.0.2.1
> worker 0
> xfrm policy add src 10.0.0.0/8 dst 0.0.0.0/0 dir out priority 10
> sync
> flow out src 10.1.2.3 dst 192.0.2.1
> worker 2
> worker 3
> flow out src 10.1.2.3 dst 192.0.2.1
2: none
4: ok index 9
5: policy 9 allow
7: ok index 9
9: none
11: ok index 17
13: policy 17 allow
16: policy 17 allow
= 0
";

const DATABASES: &[u8] = b"
# policies and their indexes
> xfrm policy add src 10.0.0.0/8 dst 0.0.0.0/0 dir out priority 10
> sync
> flow out src 10.1.2.3 dst 192.0.2.1
> xfrm policy add src 11.0.0.0/8 dir out
> sync
> xfrm policy count
> xfrm policy delete index 9 dir out
> sync
> flow out src 10.1.2.3 dst 192.0.2.1
> xfrm policy add src 10.0.0.0/8 dst 0.0.0.0/0 dir out priority 10
1: ok index 9
3: policy 9 allow
4: ok index 17
6: count in 0 out 2 fwd 0
7: ok index 9
9: none
10: ok index 25
= 0

# states and their ids
> xfrm state add dst 192.0.2.2 proto esp spi 0x1000 replay-window 32
> xfrm state add dst 192.0.2.3 proto esp spi 0x1000
> sync
> xfrm state delete dst 192.0.2.3 proto esp spi 0x1000
> sync
> xfrm state add dst 192.0.2.3 proto esp spi 0x1000
> xfrm state add dst 192.0.2.2 proto esp spi 0x1000 replay-window 32
> sync
> xfrm state count
1: ok sid 1
2: ok sid 2
4: ok sid 2
6: ok sid 3
7: RTNETLINK answers: File exists
9: count 2
= 1

# a number that was accepted in one phase is seen in the next, and the window stays where it is
> xfrm state add dst 192.0.2.2 proto esp spi 0x1000 replay-window 32
> packet dst 192.0.2.2 proto esp spi 0x1000 seq 5
> sync
> packet dst 192.0.2.2 proto esp spi 0x1000 seq 5
> packet dst 192.0.2.2 proto esp spi 0x1000 seq 40
> sync
> packet dst 192.0.2.2 proto esp spi 0x1000 seq 8
> packet dst 192.0.2.2 proto esp spi 0x1000 seq 9
> packet dst 192.0.2.2 proto esp spi 0x1000 seq 40
> sync
> packet dst 192.0.2.2 proto esp spi 0x1000 seq 9
1: ok sid 1
2: accepted top 5
4: seen top 5
5: accepted top 40
7: old top 40
8: accepted top 40
9: seen top 40
11: seen top 40
= 0

# bytes and packets are counted on, and that a state is dying stays
> xfrm state add dst 192.0.2.2 proto esp spi 0x1000 replay-window 32 limit byte-soft 100 limit packet-hard 4
> packet dst 192.0.2.2 proto esp spi 0x1000 seq 1 len 60
> sync
> packet dst 192.0.2.2 proto esp spi 0x1000 seq 2 len 60
> sync
> packet dst 192.0.2.2 proto esp spi 0x1000 seq 3 len 60
> sync
> packet dst 192.0.2.2 proto esp spi 0x1000 seq 4 len 60
> sync
> packet dst 192.0.2.2 proto esp spi 0x1000 seq 5 len 60
> sync
> xfrm state count
1: ok sid 1
2: accepted top 1
4: accepted top 2
6: accepted top 3 soft
8: accepted top 4
10: expired
12: count 0
= 0

# a state is asked for, waited for, and then used; the next one that is asked for has the next number
> xfrm policy add src 10.0.0.0/8 dst 192.0.2.0/24 dir out tmpl proto esp reqid 7
> send src 10.1.2.3 dst 192.0.2.1 len 10
> sync
> send src 10.1.2.3 dst 192.0.2.1 len 10
> sync
> xfrm state add src 10.1.2.3 dst 192.0.2.1 proto esp spi 0x2000 reqid 7 seq 1
> send src 10.1.2.3 dst 192.0.2.1 len 10
> sync
> send src 10.1.2.3 dst 192.0.2.1 len 10
> flow out src 10.1.2.3 dst 192.0.2.2
1: ok index 9
2: acquire 1
4: waiting 1
6: ok sid 2
7: policy 9 allow esp 0x00002000 192.0.2.1
7.1: sent esp 0x00002000 seq 1
9: policy 9 allow esp 0x00002000 192.0.2.1
9.1: sent esp 0x00002000 seq 2
10: acquire 2
= 0

# time, when a state was added, and its first use
> tick 90
> xfrm state add dst 192.0.2.2 proto esp spi 0x1000 limit time-soft 12 limit time-use-hard 10
> sync
> tick 100
> packet dst 192.0.2.2 proto esp spi 0x1000 seq 1
> sync
> tick 102
> sync
> tick 109
> sync
> tick 110
1: now 90 events 0
2: ok sid 1
4: now 100 events 0
5: accepted top 1
7: now 102 events 1
7: state 1 soft
9: now 109 events 0
11: now 110 events 1
11: state 1 expired
= 0
";

#[test]
fn phases(rt: HostRuntime) -> Result<(), Fail> {
    let cases = [
        one(&[b"sync"], b"", Status::Done),
        one(&[POLICY, b"sync"], b"1: ok index 9\n", Status::Done),
        one(
            &[POLICY, SYNC, b"\nworker 2\n# nothing more"],
            b"1: ok index 9\n",
            Status::Done,
        ),
    ];
    check_all(&rt, rt.alloc(), "phases", &cases)?;
    check_table(&rt, rt.alloc(), "phases", PHASES)
}

#[test]
fn databases_live_on(rt: HostRuntime) -> Result<(), Fail> {
    check_table(&rt, rt.alloc(), "databases", DATABASES)
}

#[test]
fn clock_is_asked_once_for_a_phase(rt: HostRuntime) -> Result<(), Fail> {
    let cases = [
        // each phase has its own answer, also where the clock went back
        Case {
            seconds: &[7, 9, 20, 8, 21],
            ..one(
                &[
                    b"tick now\n",
                    SYNC,
                    b"tick now\ntick now\n",
                    SYNC,
                    b"tick now\n",
                    SYNC,
                    b"tick now\n",
                    SYNC,
                    b"tick now\n",
                ],
                b"1: now 7 events 0\n3: now 9 events 0\n4: now 9 events 0\n6: now 20 events 0\n8: now 20 events 0\n10: now 21 events 0\n",
                Status::Done,
            )
        },
        // so do those that are empty or have no use for it
        Case {
            seconds: &[7, 9, 20],
            ..one(
                &[SYNC, FLOW, SYNC, b"tick now\n"],
                b"2: none\n4: now 20 events 0\n",
                Status::Done,
            )
        },
    ];
    check_all(&rt, rt.alloc(), "clock", &cases)
}

// Earlier phases stand written, and nothing of the bad line's phase or of those behind it runs.
#[test]
fn bad_lines_of_a_phase(rt: HostRuntime) -> Result<(), Fail> {
    let cases = [
        one(
            &[POLICY, FLOW, b"colour\n", SYNC, FLOW],
            b"bad line 3: word\n",
            bad(3, Reason::Word),
        ),
        one(
            &[POLICY, SYNC, FLOW, b"colour\n", FLOW, SYNC, FLOW],
            b"1: ok index 9\nbad line 4: word\n",
            bad(4, Reason::Word),
        ),
        one(
            &[POLICY, POLICY, SYNC, FLOW, SYNC, FLOW, b"colour"],
            b"1: ok index 9\n2: RTNETLINK answers: File exists\n4: policy 9 allow\nbad line 7: word\n",
            bad(7, Reason::Word),
        ),
        // a `sync` that is bad ends no phase
        one(
            &[POLICY, b"sync now\n", FLOW],
            b"bad line 2: word\n",
            bad(2, Reason::Word),
        ),
        one(
            &[POLICY, SYNC, b"worker 16\n", FLOW],
            b"1: ok index 9\nbad line 3: range\n",
            bad(3, Reason::Range),
        ),
        // of two bad lines the first is named
        one(
            &[POLICY, SYNC, b"worker 16\n", SYNC, b"colour\n"],
            b"1: ok index 9\nbad line 3: range\n",
            bad(3, Reason::Range),
        ),
    ];
    check_all(&rt, rt.alloc(), "bad lines of a phase", &cases)
}

#[test]
fn bad_lines_behind_a_phase(rt: HostRuntime) -> Result<(), Fail> {
    let letters = repeated(rt.alloc(), b"a", 4097)?;
    let rows: [(&[u8], &[u8], Reason); 4] = [
        (
            &letters,
            b"1: ok index 9\n2: policy 9 allow\nbad line 4: long\n",
            Reason::Long,
        ),
        (
            b"xfrm policy add dir out colour 3",
            b"1: ok index 9\n2: policy 9 allow\nbad line 4: word\n",
            Reason::Word,
        ),
        (
            b"flow out \\",
            b"1: ok index 9\n2: policy 9 allow\nbad line 4: cut\n",
            Reason::Cut,
        ),
        (
            b"xfrm policy add dir out dev eth0",
            b"1: ok index 9\n2: policy 9 allow\nbad line 4: unsupported\n",
            Reason::Unsupported,
        ),
    ];
    for (line, text, reason) in rows {
        let mut input = repeated(rt.alloc(), POLICY, 1)?;
        for more in [FLOW, SYNC, line] {
            input.extend_from_slice(more)?;
        }
        let status = bad(4, reason);
        runs(
            &rt,
            rt.alloc(),
            "bad lines behind a phase",
            &[&input],
            text,
            status,
        )?;
    }
    Ok(())
}
