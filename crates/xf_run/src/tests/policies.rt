//! Worked batches on policies and flows.
use super::tables::check_table;
use super::{FLOW, POLICY, check_all, one};
use std::test::Fail;
use xf_types::Status;

const POLICIES_AND_FLOWS: &[u8] = b"
# the first policy that applies to a flow
> xfrm policy add src 10.0.0.0/8 dst 0.0.0.0/0 dir out priority 10
> flow out src 10.1.2.3 dst 192.0.2.1
1: ok index 9
2: policy 9 allow
= 0

# an empty input
= 0

# the same policy twice, also where bits past the length are given
> xfrm policy add src 10.0.0.0/8 dst 0.0.0.0/0 dir out priority 10
> xfrm policy add src 10.0.0.0/8 dst 0.0.0.0/0 dir out priority 10
1: ok index 9
2: RTNETLINK answers: File exists
= 1

> xfrm policy add src 10.9.8.7/8 dst 0.0.0.0/0 dir out priority 5
> xfrm policy add src 10.0.0.0/8 dst 0.0.0.0/0 dir out priority 10
1: ok index 9
2: RTNETLINK answers: File exists
= 1

# the smaller priority first; an index for each direction
> xfrm policy add src 10.0.0.0/8 dst 0.0.0.0/0 dir out priority 10
> xfrm policy add src 10.1.2.3/32 dst 192.0.2.1/32 dir out priority 4
> flow out src 10.1.2.3 dst 192.0.2.1
> xfrm policy add src 10.0.0.0/8 dst 0.0.0.0/0 dir in priority 0
> xfrm policy add src 10.0.0.0/8 dst 0.0.0.0/0 dir fwd priority 4294967295
> flow fwd src 10.255.255.255 dst 0.0.0.0
1: ok index 9
2: ok index 17
3: policy 17 allow
4: ok index 24
5: ok index 34
6: policy 34 allow
= 0

# equal priorities: the one that was added first, until an update puts it last
> xfrm policy add src 10.0.0.0/8 dst 0.0.0.0/0 dir out priority 5
> xfrm policy add src 10.1.0.0/16 dst 0.0.0.0/0 dir out priority 5
> flow out src 10.1.2.3 dst 192.0.2.1
> xfrm policy update src 10.0.0.0/8 dst 0.0.0.0/0 dir out priority 5
> flow out src 10.1.2.3 dst 192.0.2.1
1: ok index 9
2: ok index 17
3: policy 9 allow
4: ok index 9
5: policy 17 allow
= 0

# so too where the other policy has host prefixes, in both orders of adding
> xfrm policy add src 10.0.0.0/8 dir out
> xfrm policy add src 10.1.2.3 dst 192.0.2.1 dir out
> flow out src 10.1.2.3 dst 192.0.2.1
> xfrm policy update src 10.0.0.0/8 dir out
> flow out src 10.1.2.3 dst 192.0.2.1
> xfrm policy update src 10.1.2.3 dst 192.0.2.1 dir out
> flow out src 10.1.2.3 dst 192.0.2.1
1: ok index 9
2: ok index 17
3: policy 9 allow
4: ok index 9
5: policy 17 allow
6: ok index 17
7: policy 9 allow
= 0

> xfrm policy add src 10.1.2.3 dst 192.0.2.1 dir out
> xfrm policy add src 10.0.0.0/8 dir out
> flow out src 10.1.2.3 dst 192.0.2.1
> xfrm policy update src 10.1.2.3 dst 192.0.2.1 dir out
> flow out src 10.1.2.3 dst 192.0.2.1
> xfrm policy update src 10.0.0.0/8 dir out
> flow out src 10.1.2.3 dst 192.0.2.1
1: ok index 9
2: ok index 17
3: policy 9 allow
4: ok index 9
5: policy 17 allow
6: ok index 17
7: policy 9 allow
= 0

# an exact policy beside a wider one
> xfrm policy add src 10.1.2.3/32 dst 192.0.2.1/32 dir out priority 20 action block
> xfrm policy add src 10.0.0.0/8 dst 0.0.0.0/0 dir out priority 10
> flow out src 10.1.2.3 dst 192.0.2.1
1: ok index 9
2: ok index 17
3: policy 17 allow
= 0

> xfrm policy add src 10.1.2.3/32 dst 192.0.2.1/32 dir out priority 20 action block
> xfrm policy add src 10.0.0.0/8 dst 0.0.0.0/0 dir out priority 30
> flow out src 10.1.2.3 dst 192.0.2.1
1: ok index 9
2: ok index 17
3: policy 9 block
= 0

# sub before main
> xfrm policy add src 10.0.0.0/8 dst 0.0.0.0/0 dir out priority 0
> xfrm policy add src 10.0.0.0/8 dst 0.0.0.0/0 dir out priority 100 ptype sub
> flow out src 10.1.2.3 dst 192.0.2.1
1: ok index 9
2: ok index 17
3: policy 17 allow
= 0

# a policy that is not there
> xfrm policy delete src 10.0.0.0/8 dir out
1: RTNETLINK answers: No such file or directory
= 1

# thresholds change no answer
> xfrm policy add src 10.0.0.0/8 dst 0.0.0.0/0 dir out priority 10
> flow out src 10.1.2.3 dst 192.0.2.1
> xfrm policy set hthresh4 8 0
> flow out src 10.1.2.3 dst 192.0.2.1
1: ok index 9
2: policy 9 allow
3: ok
4: policy 9 allow
= 0

# a policy with all that a flow can ask for
> xfrm policy add src 2001:DB8:0:0::/32 dst ::/0 proto tcp dport 443 dir out priority 7 mark 0x2a
> xfrm policy get index 9 dir out
> xfrm policy get index 8 dir out
1: ok index 9
2: policy 9 dir out ptype main src 2001:db8::/32 dst ::/0 proto 6 dport 443 mark 0x0000002a mask 0xffffffff if_id 0 priority 7 action allow added 0
3: RTNETLINK answers: Invalid argument
= 1

# a mark with bits outside its mask never applies
> xfrm policy add dir out mark 0x1ff mask 0xff
> flow out src 10.1.2.3 dst 192.0.2.1 mark 0x1ff
> flow out src 10.1.2.3 dst 192.0.2.1 mark 0xff
> xfrm policy add dir out mark 1 mask 0xff
> flow out src 10.1.2.3 dst 192.0.2.1 mark 0x101
1: ok index 9
2: none
3: none
4: ok index 17
5: policy 17 allow
= 0

# port 0 is matched whole
> xfrm policy add proto udp dport 0 dir out
> flow out src 10.1.2.3 dst 192.0.2.1 proto udp dport 1
> flow out src 10.1.2.3 dst 192.0.2.1 proto udp dport 0
1: ok index 9
2: none
3: policy 9 allow
= 0

# a given index: a free one is taken and moves no counter, for a taken one there is a fresh one
> xfrm policy add src 10.0.0.0/8 dir out index 17
> xfrm policy add src 11.0.0.0/8 dir out
> xfrm policy add src 12.0.0.0/8 dir out
> xfrm policy add src 13.0.0.0/8 dir out index 25
> xfrm policy add src 14.0.0.0/8 dir out index 8
1: ok index 17
2: ok index 9
3: ok index 25
4: ok index 33
5: RTNETLINK answers: Invalid argument
= 1

# an index that was given back isn't given again before the others
> xfrm policy add src 10.0.0.0/8 dst 0.0.0.0/0 dir out priority 10
> xfrm policy delete index 9 dir out
> xfrm policy add src 10.0.0.0/8 dst 0.0.0.0/0 dir out priority 10
1: ok index 9
2: ok index 9
3: ok index 17
= 0

# lists, counts and filters
> xfrm policy add src 10.0.0.0/8 dir out priority 2
> xfrm policy add dir in priority 1 ptype sub action block
> xfrm policy count
> xfrm policy list
> xfrm policy list dir fwd
> xfrm policy deleteall action block
> xfrm policy flush ptype sub
> xfrm policy flush
> xfrm policy count
1: ok index 9
2: ok index 16
3: count in 1 out 1 fwd 0
4: list 2
4: policy 16 dir in ptype sub src 0.0.0.0/0 dst 0.0.0.0/0 proto 0 mark 0x00000000 mask 0x00000000 if_id 0 priority 1 action block added 0
4: policy 9 dir out ptype main src 10.0.0.0/8 dst 0.0.0.0/0 proto 0 mark 0x00000000 mask 0x00000000 if_id 0 priority 2 action allow added 0
5: list 0
6: ok removed 1
7: ok removed 0
8: ok removed 1
9: count in 0 out 0 fwd 0
= 0

# lines that list, count and remove, where nothing is there
> xfrm policy deleteall
> xfrm policy flush
> xfrm policy count
> xfrm state deleteall
> xfrm state list
1: ok removed 0
2: ok removed 0
3: count in 0 out 0 fwd 0
4: ok removed 0
5: list 0
= 0
";

#[test]
fn policies_and_flows(rt: HostRuntime) -> Result<(), Fail> {
    let cases = [
        // no policy applies: another direction, another source, none at all
        one(
            &[
                FLOW,
                POLICY,
                b"flow in src 10.1.2.3 dst 192.0.2.1\n",
                b"flow out src 11.0.0.0 dst 192.0.2.1",
            ],
            b"1: none\n2: ok index 9\n3: none\n4: none\n",
            Status::Done,
        ),
    ];
    check_all(&rt, rt.alloc(), "policies and flows", &cases)?;
    check_table(&rt, rt.alloc(), "policies and flows", POLICIES_AND_FLOWS)
}
