//! Worked batches on states.
use super::tables::check_table;
use std::test::Fail;

const STATES: &[u8] = b"
# what isn't there
> xfrm policy delete src 10.0.0.0/8 dir out
> xfrm state delete dst 192.0.2.2 proto esp spi 0x1000
> xfrm state flush
1: RTNETLINK answers: No such file or directory
2: RTNETLINK answers: No such process
3: ok removed 0
= 1

> xfrm state deleteall
> xfrm state list
> xfrm state count
> xfrm state update dst 192.0.2.2 proto esp spi 0x1000
> xfrm state get dst 192.0.2.2 proto esp spi 0x1000
> packet dst 192.0.2.2 proto esp spi 0x1000 seq 1
1: ok removed 0
2: list 0
3: count 0
4: RTNETLINK answers: No such process
5: RTNETLINK answers: No such process
6: RTNETLINK answers: No such process
= 1

# a state as commonly written, over two physical lines
> xfrm state add src 192.0.2.1 dst 192.0.2.2 proto esp spi 0x1000 reqid 1 mode tunnel \\
>   auth 'hmac(sha1)' 0x0102 enc 'cbc(aes)' 0x0304 replay-window 32
> xfrm state get dst 192.0.2.2 proto esp spi 0x1000
1: ok sid 1
3: state 1 src 192.0.2.1 dst 192.0.2.2 proto esp spi 0x00001000 reqid 1 mode tunnel seq 0 mark 0x00000000 mask 0x00000000 if_id 0 replay-window 32 added 0
= 0

# all that is shown of a state; what is forgotten beside it
> xfrm state add src 2001:DB8:0::1 dst 2001:db8:0:0::2 proto comp spi 0xffffffff mode in_trigger seq 9 reqid 8 mark 0x2a mask 0xfff if_id 0xffffffff replay-window 31 replay-seq 7 replay-oseq 6 comp deflate aead 'rfc4106(gcm(aes))' 0x05 96 flag noecn wildrecv align4 sel proto ipv6-icmp type 128 code 0
> xfrm state get dst 2001:db8::2 proto comp spi 4294967295 mark 42 src 2001:db8::9
1: ok sid 1
2: state 1 src 2001:db8::1 dst 2001:db8::2 proto comp spi 0xffffffff reqid 8 mode in_trigger seq 9 mark 0x0000002a mask 0x00000fff if_id 4294967295 replay-window 31 added 0 wildrecv sel src 0.0.0.0/0 dst 0.0.0.0/0 proto 58 sport 128 dport 0
= 0

# the second of two equal states is refused, and leaves the list and the ids
> xfrm state add dst 192.0.2.2 proto esp spi 0x1000 replay-window 32
> xfrm state add src 192.0.2.1 dst 192.0.2.2 proto esp spi 0x1000 reqid 5
> xfrm state list
> xfrm state add dst 192.0.2.2 proto ah spi 0x1000
1: ok sid 1
2: RTNETLINK answers: File exists
3: list 1
3: state 1 src 0.0.0.0 dst 192.0.2.2 proto esp spi 0x00001000 reqid 0 mode transport seq 0 mark 0x00000000 mask 0x00000000 if_id 0 replay-window 32 added 0
4: ok sid 2
= 1

# so too where the marks differ and the earlier one's mask has the new one's value
> xfrm state add dst 192.0.2.2 proto esp spi 0x1000 mark 5 mask 0xff
> xfrm state add dst 192.0.2.2 proto esp spi 0x1000
> xfrm state delete dst 192.0.2.2 proto esp spi 0x1000 mark 5
> xfrm state add dst 192.0.2.2 proto esp spi 0x1000 mark 5
> xfrm state count
1: ok sid 1
2: ok sid 2
3: ok sid 2
4: RTNETLINK answers: File exists
5: count 1
= 1

# a state is got and deleted by the mark's value under the line's mask, and then under its own
> xfrm state add dst 192.0.2.2 proto esp spi 0x1000 mark 5 mask 0xff
> xfrm state get dst 192.0.2.2 proto esp spi 0x1000 mark 0x1105 mask 0xfff
> xfrm state get dst 192.0.2.2 proto esp spi 0x1000 mark 0x105 mask 0xf00
> xfrm state get dst 192.0.2.2 proto esp spi 0x1000
> xfrm state delete dst 192.0.2.2 proto esp spi 0x1000 mark 6
> xfrm state delete dst 192.0.2.2 proto esp spi 0x1000 mark 0xf05
> xfrm state count
1: ok sid 1
2: state 1 src 0.0.0.0 dst 192.0.2.2 proto esp spi 0x00001000 reqid 0 mode transport seq 0 mark 0x00000005 mask 0x000000ff if_id 0 replay-window 0 added 0
3: RTNETLINK answers: No such process
4: RTNETLINK answers: No such process
5: RTNETLINK answers: No such process
6: ok sid 1
7: count 0
= 1

# a mark with bits outside its mask is never found, nor by the same add
> xfrm state add dst 192.0.2.2 proto esp spi 0x1000 mark 0x1ff mask 0xff
> xfrm state add dst 192.0.2.2 proto esp spi 0x1000 mark 0x1ff mask 0xff
> packet dst 192.0.2.2 proto esp spi 0x1000 seq 1 mark 0x1ff
> xfrm state get dst 192.0.2.2 proto esp spi 0x1000 mark 0xff
> xfrm state count
1: ok sid 1
2: ok sid 2
3: RTNETLINK answers: No such process
4: RTNETLINK answers: No such process
5: count 2
= 1

# of several states that match, the latest, for each call that looks one up
> xfrm state add dst 192.0.2.2 proto esp spi 0x1000 mark 5 mask 0xff replay-window 32
> xfrm state add dst 192.0.2.2 proto esp spi 0x1000
> packet dst 192.0.2.2 proto esp spi 0x1000 seq 0 mark 5
> xfrm state update dst 192.0.2.2 proto esp spi 0x1000 mark 5
> xfrm state delete dst 192.0.2.2 proto esp spi 0x1000 mark 5
> packet dst 192.0.2.2 proto esp spi 0x1000 seq 0 mark 5
> xfrm state update dst 192.0.2.2 proto esp spi 0x1000 mark 5
> xfrm state get dst 192.0.2.2 proto esp spi 0x1000 mark 5
> xfrm state get dst 192.0.2.2 proto esp spi 0x1000
1: ok sid 1
2: ok sid 2
3: accepted top 0
4: ok sid 2
5: ok sid 2
6: zero
7: ok sid 1
8: state 1 src 0.0.0.0 dst 192.0.2.2 proto esp spi 0x00001000 reqid 0 mode transport seq 0 mark 0x00000005 mask 0x000000ff if_id 0 replay-window 32 added 0
9: RTNETLINK answers: No such process
= 1

# destination, protocol and SPI tell states apart, and the id that was given isn't given again
> xfrm state add dst 192.0.2.2 proto esp spi 0x1000
> xfrm state add dst 192.0.2.3 proto esp spi 0x1000
> xfrm state add dst 192.0.2.2 proto ah spi 0x1000
> xfrm state add dst 192.0.2.2 proto esp spi 0x1001
> xfrm state add dst ::c000:202 proto esp spi 0x1000
> xfrm state delete dst 192.0.2.2 proto esp spi 0x1001
> xfrm state add dst 192.0.2.2 proto esp spi 0x1001
> xfrm state count
1: ok sid 1
2: ok sid 2
3: ok sid 3
4: ok sid 4
5: ok sid 5
6: ok sid 4
7: ok sid 6
8: count 5
= 0

# each condition of a list alone
> xfrm state add src 192.0.2.1 dst 192.0.2.2 proto esp spi 0x1000
> xfrm state add dst 192.0.2.3 proto ah spi 0x1001 mode tunnel reqid 7
> xfrm state list src 192.0.2.1
> xfrm state list dst 192.0.2.3
> xfrm state list proto esp
> xfrm state list spi 0x1001
> xfrm state list mode transport
> xfrm state list reqid 7
> xfrm state list reqid 1
> xfrm state list reqid 7 mode transport
1: ok sid 1
2: ok sid 2
3: list 1
3: state 1 src 192.0.2.1 dst 192.0.2.2 proto esp spi 0x00001000 reqid 0 mode transport seq 0 mark 0x00000000 mask 0x00000000 if_id 0 replay-window 0 added 0
4: list 1
4: state 2 src 0.0.0.0 dst 192.0.2.3 proto ah spi 0x00001001 reqid 7 mode tunnel seq 0 mark 0x00000000 mask 0x00000000 if_id 0 replay-window 0 added 0
5: list 1
5: state 1 src 192.0.2.1 dst 192.0.2.2 proto esp spi 0x00001000 reqid 0 mode transport seq 0 mark 0x00000000 mask 0x00000000 if_id 0 replay-window 0 added 0
6: list 1
6: state 2 src 0.0.0.0 dst 192.0.2.3 proto ah spi 0x00001001 reqid 7 mode tunnel seq 0 mark 0x00000000 mask 0x00000000 if_id 0 replay-window 0 added 0
7: list 1
7: state 1 src 192.0.2.1 dst 192.0.2.2 proto esp spi 0x00001000 reqid 0 mode transport seq 0 mark 0x00000000 mask 0x00000000 if_id 0 replay-window 0 added 0
8: list 1
8: state 2 src 0.0.0.0 dst 192.0.2.3 proto ah spi 0x00001001 reqid 7 mode tunnel seq 0 mark 0x00000000 mask 0x00000000 if_id 0 replay-window 0 added 0
9: list 0
10: list 0
= 0

# a list is in the order of adding, which an update leaves
> xfrm state add dst 192.0.2.3 proto ah spi 0x1001
> xfrm state add dst 2001:db8::1 proto esp spi 1 mode beet
> xfrm state update dst 192.0.2.3 proto ah spi 0x1001
> xfrm state show nokeys
1: ok sid 1
2: ok sid 2
3: ok sid 1
4: list 2
4: state 1 src 0.0.0.0 dst 192.0.2.3 proto ah spi 0x00001001 reqid 0 mode transport seq 0 mark 0x00000000 mask 0x00000000 if_id 0 replay-window 0 added 0
4: state 2 src :: dst 2001:db8::1 proto esp spi 0x00000001 reqid 0 mode beet seq 0 mark 0x00000000 mask 0x00000000 if_id 0 replay-window 0 added 0
= 0

# each condition of a deleteall alone
> xfrm state add src 192.0.2.1 dst 192.0.2.2 proto esp spi 0x1000
> xfrm state add dst 192.0.2.2 proto ah spi 0x1000
> xfrm state add dst 192.0.2.3 proto esp spi 0x1000
> xfrm state add dst 192.0.2.3 proto comp spi 0x1000
> xfrm state add dst 192.0.2.4 proto esp spi 0x1001
> xfrm state add dst 192.0.2.4 proto comp spi 0x1002 mode ro
> xfrm state add dst 192.0.2.4 proto comp spi 0x1003 reqid 7
> xfrm state add dst 192.0.2.4 proto comp spi 0x1004
> xfrm state deleteall src 192.0.2.1
> xfrm state deleteall proto ah
> xfrm state deleteall dst 192.0.2.3
> xfrm state deleteall spi 0x1001
> xfrm state deleteall mode ro
> xfrm state deleteall reqid 7
> xfrm state deleteall reqid 7
> xfrm state deleteall proto comp dst 192.0.2.3
> xfrm state count
> xfrm state deleteall
> xfrm state count
1: ok sid 1
2: ok sid 2
3: ok sid 3
4: ok sid 4
5: ok sid 5
6: ok sid 6
7: ok sid 7
8: ok sid 8
9: ok removed 1
10: ok removed 1
11: ok removed 2
12: ok removed 1
13: ok removed 1
14: ok removed 1
15: ok removed 0
16: ok removed 0
17: count 1
18: ok removed 1
19: count 0
= 0

# a flush by protocol, and a whole one
> xfrm state add dst 192.0.2.2 proto esp spi 0x1000
> xfrm state add dst 192.0.2.2 proto ah spi 0x1000
> xfrm state add dst 192.0.2.2 proto esp spi 0x1001
> xfrm state add dst 192.0.2.2 proto comp spi 0x1000
> xfrm state flush proto esp
> xfrm state flush proto esp
> xfrm state count
> xfrm state flush
> xfrm state count
1: ok sid 1
2: ok sid 2
3: ok sid 3
4: ok sid 4
5: ok removed 2
6: ok removed 0
7: count 2
8: ok removed 2
9: count 0
= 0

# an update leaves all but the limits and, where one is given, the selector
> xfrm state add dst 192.0.2.2 proto esp spi 0x1000 reqid 3 mode tunnel replay-window 32 replay-seq 5 sel src 10.0.0.0/8
> packet dst 192.0.2.2 proto esp spi 0x1000 seq 9
> xfrm state update src 192.0.2.1 dst 192.0.2.2 proto esp spi 0x1000 reqid 4 mode beet seq 6 if_id 9 replay-window 1 replay-seq 100 flag wildrecv mark 7 mask 0xf
> xfrm state get dst 192.0.2.2 proto esp spi 0x1000
> packet dst 192.0.2.2 proto esp spi 0x1000 seq 9
> packet dst 192.0.2.2 proto esp spi 0x1000 seq 6
> xfrm state update dst 192.0.2.2 proto esp spi 0x1000 sel dst 10.1.2.3/16 proto tcp dport 443
> xfrm state get dst 192.0.2.2 proto esp spi 0x1000
> xfrm state count
1: ok sid 1
2: accepted top 9
3: ok sid 1
4: state 1 src 0.0.0.0 dst 192.0.2.2 proto esp spi 0x00001000 reqid 3 mode tunnel seq 0 mark 0x00000000 mask 0x00000000 if_id 0 replay-window 32 added 0 sel src 10.0.0.0/8 dst 0.0.0.0/0 proto 0
5: seen top 9
6: accepted top 9
7: ok sid 1
8: state 1 src 0.0.0.0 dst 192.0.2.2 proto esp spi 0x00001000 reqid 3 mode tunnel seq 0 mark 0x00000000 mask 0x00000000 if_id 0 replay-window 32 added 0 sel src 0.0.0.0/0 dst 10.1.0.0/16 proto 6 dport 443
9: count 1
= 0
";

#[test]
fn states(rt: HostRuntime) -> Result<(), Fail> {
    check_table(&rt, rt.alloc(), "states", STATES)
}
