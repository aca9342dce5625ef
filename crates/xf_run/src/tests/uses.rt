//! Worked batches on limits by use, ends of time, templates that are skipped, and outputs that are counted.
use super::tables::check_table;
use std::test::Fail;

const LIMITS_BY_USE: &[u8] = b"
# a packet that isn't accepted is no first use; the soft limit is told once, and then the hard one ends the state
> xfrm state add dst 192.0.2.2 proto esp spi 0x1000 replay-window 32 limit time-use-soft 10 limit time-use-hard 20
> tick 100
> packet dst 192.0.2.2 proto esp spi 0x1000 seq 1 icv bad
> tick 110
> packet dst 192.0.2.2 proto esp spi 0x1000 seq 1
> tick 119
> tick 120
> packet dst 192.0.2.2 proto esp spi 0x1000 seq 2
> tick 130
1: ok sid 1
2: now 100 events 0
3: icv
4: now 110 events 0
5: accepted top 1
6: now 119 events 0
7: now 120 events 1
7: state 1 soft
8: accepted top 2
9: now 130 events 1
9: state 1 expired
= 0

# a limit that an update brings is met by the next packet of a state that was used
> xfrm state add dst 192.0.2.2 proto esp spi 0x1000 replay-window 32
> packet dst 192.0.2.2 proto esp spi 0x1000 seq 1
> tick 5
> xfrm state update dst 192.0.2.2 proto esp spi 0x1000 limit time-use-hard 5
> packet dst 192.0.2.2 proto esp spi 0x1000 seq 2
> xfrm state count
1: ok sid 1
2: accepted top 1
3: now 5 events 0
4: ok sid 1
5: expired
6: count 0
= 0

# and not by the first one of a state that wasn't
> xfrm state add dst 192.0.2.2 proto esp spi 0x1000 replay-window 32
> tick 5
> xfrm state update dst 192.0.2.2 proto esp spi 0x1000 limit time-use-hard 5
> packet dst 192.0.2.2 proto esp spi 0x1000 seq 1
> tick 9
> tick 10
1: ok sid 1
2: now 5 events 0
3: ok sid 1
4: accepted top 1
5: now 9 events 0
6: now 10 events 1
6: state 1 expired
= 0

# sums of uses and of waiting stop at the greatest number
> xfrm state add dst 192.0.2.2 proto esp spi 0x1000 limit time-use-hard 18446744073709551615
> tick 5
> packet dst 192.0.2.2 proto esp spi 0x1000 seq 1
> tick 18446744073709551614
> tick 18446744073709551615
1: ok sid 1
2: now 5 events 0
3: accepted top 1
4: now 18446744073709551614 events 0
5: now 18446744073709551615 events 1
5: state 1 expired
= 0

> xfrm policy add dir out tmpl proto esp reqid 7
> tick 18446744073709551610
> flow out src 10.0.0.1 dst 192.0.2.5
> tick 18446744073709551614
> tick 18446744073709551615
> flow out src 10.0.0.1 dst 192.0.2.5
1: ok index 9
2: now 18446744073709551610 events 0
3: acquire 1
4: now 18446744073709551614 events 0
5: now 18446744073709551615 events 1
5: state 1 expired
6: acquire 2
= 0
";

const TEMPLATES_AND_SENDS: &[u8] = b"
# a tunnel that is skipped leaves the flow's addresses to the template behind it; one that isn't gives its own
> xfrm policy add dir out tmpl src 198.51.100.1 dst 198.51.100.2 proto esp reqid 1 mode tunnel level use tmpl proto ah reqid 2
> xfrm state add dst 192.0.2.5 proto ah spi 0x10 reqid 2
> flow out src 10.0.0.1 dst 192.0.2.5
> xfrm state add src 198.51.100.1 dst 198.51.100.2 proto esp spi 0x20 reqid 1 mode tunnel
> flow out src 10.0.0.1 dst 192.0.2.5
1: ok index 9
2: ok sid 1
3: policy 9 allow ah 0x00000010 192.0.2.5
4: ok sid 2
5: acquire 1
= 0

# a state that was added later is preferred until it is dying, and then where there is no other
> xfrm policy add dir out tmpl proto esp reqid 7
> xfrm state add dst 192.0.2.5 proto esp spi 0x10 reqid 7
> tick 3
> xfrm state add dst 192.0.2.5 proto esp spi 0x11 reqid 7 limit time-soft 4
> flow out src 10.0.0.1 dst 192.0.2.5
> tick 7
> flow out src 10.0.0.1 dst 192.0.2.5
> xfrm state delete dst 192.0.2.5 proto esp spi 0x10
> flow out src 10.0.0.1 dst 192.0.2.5
1: ok index 9
2: ok sid 1
3: now 3 events 0
4: ok sid 2
5: policy 9 allow esp 0x00000011 192.0.2.5
6: now 7 events 1
6: state 2 soft
7: policy 9 allow esp 0x00000010 192.0.2.5
8: ok sid 1
9: policy 9 allow esp 0x00000011 192.0.2.5
= 0

# outputs are counted: the soft limit warns once, and the hard one ends the state, so that the next flow asks for another
> xfrm policy add dir out tmpl proto esp reqid 7
> xfrm state add dst 192.0.2.5 proto esp spi 0x1000 reqid 7 limit packet-soft 1 limit packet-hard 3
> send src 10.0.0.1 dst 192.0.2.5 len 10
> send src 10.0.0.1 dst 192.0.2.5 len 10
> send src 10.0.0.1 dst 192.0.2.5 len 10
> send src 10.0.0.1 dst 192.0.2.5 len 10
> send src 10.0.0.1 dst 192.0.2.5 len 10
1: ok index 9
2: ok sid 1
3: policy 9 allow esp 0x00001000 192.0.2.5
3.1: sent esp 0x00001000 seq 1
4: policy 9 allow esp 0x00001000 192.0.2.5
4.1: sent esp 0x00001000 seq 2 soft
5: policy 9 allow esp 0x00001000 192.0.2.5
5.1: sent esp 0x00001000 seq 3
6: policy 9 allow esp 0x00001000 192.0.2.5
6.1: expired
7: acquire 1
= 0
";

#[test]
fn limits_by_use_and_ends_of_time(rt: HostRuntime) -> Result<(), Fail> {
    check_table(&rt, rt.alloc(), "limits by use", LIMITS_BY_USE)
}

#[test]
fn templates_and_sends(rt: HostRuntime) -> Result<(), Fail> {
    check_table(&rt, rt.alloc(), "templates and sends", TEMPLATES_AND_SENDS)
}
