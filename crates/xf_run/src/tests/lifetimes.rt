//! Worked batches on limits and time.
use super::tables::check_table;
use super::{Case, check_all, one};
use std::test::Fail;
use xf_types::Status;

const LIMITS_AND_TIME: &[u8] = b"
# time never goes back
> tick 5
> tick 3
> tick 18446744073709551615
> tick 0
1: now 5 events 0
2: now 5 events 0
3: now 18446744073709551615 events 0
4: now 18446744073709551615 events 0
= 0

# what is added has the time of its adding
> tick 11
> xfrm policy add src 10.0.0.0/8 dir out
> xfrm policy get index 9 dir out
1: now 11 events 0
2: ok index 9
3: policy 9 dir out ptype main src 10.0.0.0/8 dst 0.0.0.0/0 proto 0 mark 0x00000000 mask 0x00000000 if_id 0 priority 0 action allow added 11
= 0

# a policy's time limits: the soft one is reported once, the hard one removes it
> xfrm policy add src 10.0.0.0/8 dir out limit time-soft 5 limit time-hard 10
> tick 4
> tick 5
> tick 9
> flow out src 10.1.2.3 dst 192.0.2.1
> tick 10
> flow out src 10.1.2.3 dst 192.0.2.1
1: ok index 9
2: now 4 events 0
3: now 5 events 1
3: policy 9 soft
4: now 9 events 0
5: policy 9 allow
6: now 10 events 1
6: policy 9 expired
7: none
= 0

# so too a state's
> xfrm state add dst 192.0.2.2 proto esp spi 0x1000 limit time-soft 5 limit time-hard 10
> tick 5
> tick 9
> tick 10
> xfrm state count
1: ok sid 1
2: now 5 events 1
2: state 1 soft
3: now 9 events 0
4: now 10 events 1
4: state 1 expired
5: count 0
= 0

# a hard limit ends the state at the packet that meets it; a limit of 0 bytes is one
> xfrm state add dst 192.0.2.2 proto esp spi 0x1000 replay-window 32 limit packet-hard 2
> packet dst 192.0.2.2 proto esp spi 0x1000 seq 1
> packet dst 192.0.2.2 proto esp spi 0x1000 seq 2
> packet dst 192.0.2.2 proto esp spi 0x1000 seq 3
> packet dst 192.0.2.2 proto esp spi 0x1000 seq 4
1: ok sid 1
2: accepted top 1
3: accepted top 2
4: expired
5: RTNETLINK answers: No such process
= 1

> xfrm state add dst 192.0.2.2 proto esp spi 0x1000 replay-window 32 limit byte-hard 0
> packet dst 192.0.2.2 proto esp spi 0x1000 seq 1
1: ok sid 1
2: expired
= 0

# a soft limit warns once
> xfrm state add dst 192.0.2.2 proto esp spi 0x1000 replay-window 32 limit byte-soft 100
> packet dst 192.0.2.2 proto esp spi 0x1000 seq 1 len 60
> packet dst 192.0.2.2 proto esp spi 0x1000 seq 2 len 60
> packet dst 192.0.2.2 proto esp spi 0x1000 seq 3 len 60
> packet dst 192.0.2.2 proto esp spi 0x1000 seq 4 len 60
> packet dst 192.0.2.2 proto esp spi 0x1000 seq 5 len 60 icv bad
> packet dst 192.0.2.2 proto esp spi 0x1000 seq 5 len 60
1: ok sid 1
2: accepted top 1
3: accepted top 2
4: accepted top 3 soft
5: accepted top 4
6: icv
7: accepted top 5
= 0

# a soft limit is newly met by a packet whose integrity is wrong
> xfrm state add dst 192.0.2.2 proto esp spi 0x1000 replay-window 32 limit packet-soft 1
> packet dst 192.0.2.2 proto esp spi 0x1000 seq 1
> packet dst 192.0.2.2 proto esp spi 0x1000 seq 2 icv bad
> packet dst 192.0.2.2 proto esp spi 0x1000 seq 2
1: ok sid 1
2: accepted top 1
3: icv soft
4: accepted top 2
= 0

# a state is updated while it lives
> xfrm state add dst 192.0.2.2 proto esp spi 0x1000 replay-window 32
> packet dst 192.0.2.2 proto esp spi 0x1000 seq 5
> xfrm state update dst 192.0.2.2 proto esp spi 0x1000 limit packet-hard 1
> packet dst 192.0.2.2 proto esp spi 0x1000 seq 6
1: ok sid 1
2: accepted top 5
3: ok sid 1
4: expired
= 0

# a limit of use begins with the first one
> xfrm state add dst 192.0.2.2 proto esp spi 0x1000 replay-window 32 limit time-use-hard 10
> tick 100
> packet dst 192.0.2.2 proto esp spi 0x1000 seq 1
> tick 109
> tick 110
1: ok sid 1
2: now 100 events 0
3: accepted top 1
4: now 109 events 0
5: now 110 events 1
5: state 1 expired
= 0

# sums stop at the greatest number
> tick 1
> xfrm state add dst 192.0.2.2 proto esp spi 0x1000 replay-window 32 limit time-hard 18446744073709551615
> tick 18446744073709551614
> tick 18446744073709551615
1: now 1 events 0
2: ok sid 1
3: now 18446744073709551614 events 0
4: now 18446744073709551615 events 1
4: state 1 expired
= 0

# what time does is told in the order of the lists, policies first
> xfrm policy add dir out priority 2 limit time-hard 3
> xfrm policy add src 10.0.0.0/8 dir out priority 1 limit time-soft 3
> xfrm state add dst 192.0.2.1 proto esp spi 1 limit time-soft 3
> xfrm state add dst 192.0.2.2 proto esp spi 2 limit time-hard 3
> tick 3
> tick 4
1: ok index 9
2: ok index 17
3: ok sid 1
4: ok sid 2
5: now 3 events 4
5: policy 17 soft
5: policy 9 expired
5: state 1 soft
5: state 2 expired
6: now 4 events 0
= 0
";

#[test]
fn limits_and_time(rt: HostRuntime) -> Result<(), Fail> {
    let cases = [
        // the clock is asked once for a phase, whatever it would say later
        Case {
            seconds: &[7, 9],
            ..one(
                &[b"tick 6\n", b"tick now\n", b"tick 8\n", b"tick now\n"],
                b"1: now 6 events 0\n2: now 7 events 0\n3: now 8 events 0\n4: now 8 events 0\n",
                Status::Done,
            )
        },
    ];
    check_all(&rt, rt.alloc(), "limits and time", &cases)?;
    check_table(&rt, rt.alloc(), "limits and time", LIMITS_AND_TIME)
}
