//! Bad lines of policies with templates, with their reasons.

use crate::tests_bad::check_bad;
use std::test::*;

// A word of a template that may not stand where it does, or is no word of one.
const TEMPLATE_WORDS: &[u8] = b"
word xfrm policy add tmpl x
word xfrm policy add tmpl \"\"
word xfrm policy add tmpl tmpl x
word xfrm policy add tmpl proto 50
word xfrm policy add tmpl proto tcp
word xfrm policy add tmpl proto dev
word xfrm policy add tmpl proto any
word xfrm policy add tmpl mode x
word xfrm policy add tmpl mode 1
word xfrm policy add tmpl mode esp
word xfrm policy add tmpl level x
word xfrm policy add tmpl level 0
word xfrm policy add tmpl level dev
word xfrm policy add tmpl level optional
word xfrm policy add tmpl required
word xfrm policy add tmpl use
word xfrm policy add tmpl seq 1
word xfrm policy add tmpl min 1
word xfrm policy add tmpl len 1
word xfrm policy add tmpl mask 1
word xfrm policy add tmpl reqid 1 mask 1
word xfrm policy add tmpl sel
word xfrm policy add tmpl replay-window 1
word xfrm policy add tmpl enc a b
word xfrm policy add tmpl flag level
word xfrm policy add spi 1
word xfrm policy add mode tunnel
word xfrm policy add reqid 1
word xfrm policy add level use
word xfrm policy add tmpl proto esp priority 1 mode tunnel
word xfrm policy add tmpl proto esp dir in spi 1
word xfrm policy add tmpl proto esp sport 1 level use
word xfrm policy add tmpl limit byte-soft 1 reqid 1
word xfrm policy update tmpl flag icmp level use
word xfrm policy delete tmpl
word xfrm policy deleteall tmpl
word xfrm policy flush tmpl
word flow out tmpl
";

// What a template may not have, and what ends it.
const TEMPLATE_UNSUPPORTED: &[u8] = b"
unsupported xfrm policy add tmpl proto route2
unsupported xfrm policy add tmpl proto hao x
unsupported xfrm policy add tmpl dev
unsupported xfrm policy add tmpl proto esp key
unsupported xfrm policy add tmpl src 192.0.2.1 encap
unsupported xfrm policy add tmpl spi 1 coa
unsupported xfrm policy add tmpl level use output-mark x
unsupported xfrm policy update tmpl proto esp tmpl ctx
unsupported xfrm policy add tmpl if_id 1 proto hao
";

// A word that stands twice in its template, or twice in the line.
const TEMPLATE_REPEATED: &[u8] = b"
repeated xfrm policy add tmpl proto esp proto ah
repeated xfrm policy add tmpl proto esp proto
repeated xfrm policy add tmpl src 192.0.2.1 src 192.0.2.1
repeated xfrm policy add tmpl dst ::1 proto esp dst x
repeated xfrm policy add tmpl spi 1 spi 1
repeated xfrm policy add tmpl mode tunnel mode tunnel
repeated xfrm policy add tmpl reqid 1 level use reqid 2
repeated xfrm policy add tmpl level use level use
repeated xfrm policy add tmpl spi 1 tmpl spi 1 spi 1
repeated xfrm policy add src any tmpl proto esp if_id 1 src any
repeated xfrm policy add dir in tmpl dir in
repeated xfrm policy add priority 1 tmpl proto esp priority 1
repeated xfrm policy add tmpl proto esp if_id 1 tmpl if_id 1
repeated xfrm policy add limit byte-soft 1 tmpl limit byte-soft 1
";

// A seventh template.
const TEMPLATE_COUNTS: &[u8] = b"
templates xfrm policy add tmpl tmpl tmpl tmpl tmpl tmpl tmpl
templates xfrm policy add dir in tmpl proto esp tmpl proto esp tmpl proto esp tmpl proto esp tmpl proto esp tmpl proto esp tmpl proto esp
templates xfrm policy add tmpl tmpl tmpl tmpl tmpl tmpl tmpl x
templates xfrm policy add tmpl tmpl tmpl tmpl tmpl tmpl dir in tmpl src x
unsupported xfrm policy add tmpl tmpl tmpl tmpl tmpl tmpl dev tmpl
word xfrm policy add tmpl tmpl tmpl tmpl tmpl tmpl x tmpl
address xfrm policy add tmpl tmpl tmpl tmpl tmpl tmpl src any src any tmpl
templates xfrm policy update tmpl tmpl tmpl tmpl tmpl tmpl priority 1 tmpl
";

// A value that is missing, spelled wrong, or out of its range.
const TEMPLATE_VALUES: &[u8] = b"
missing xfrm policy add tmpl src
missing xfrm policy add tmpl dst
missing xfrm policy add tmpl proto
missing xfrm policy add tmpl spi
missing xfrm policy add tmpl mode
missing xfrm policy add tmpl reqid
missing xfrm policy add tmpl level
missing xfrm policy add dir in tmpl proto esp level
address xfrm policy add tmpl src x
address xfrm policy add tmpl src any
address xfrm policy add tmpl src 192.0.2.0/24
address xfrm policy add tmpl dst default
address xfrm policy add tmpl dst ::1%1
address xfrm policy add tmpl src src
number xfrm policy add tmpl spi x
number xfrm policy add tmpl spi -1
number xfrm policy add tmpl spi 01
number xfrm policy add tmpl reqid 0x
number xfrm policy add tmpl reqid any
number xfrm policy add tmpl reqid \"\"
range xfrm policy add tmpl spi 4294967296
range xfrm policy add tmpl reqid 0x100000000
";

// What is judged once all words stand: missing, mixed, family, ports, in this order over the policy and all its templates.
const TEMPLATE_ENDS: &[u8] = b"
missing xfrm policy add tmpl
missing xfrm policy add tmpl proto esp
missing xfrm policy add dir in tmpl
missing xfrm policy add dir in tmpl src 192.0.2.1 dst 192.0.2.2
missing xfrm policy add dir in tmpl proto esp tmpl
missing xfrm policy add dir in tmpl tmpl proto esp
missing xfrm policy add dir in tmpl proto esp tmpl proto ah tmpl reqid 1
missing xfrm policy add dir in tmpl if_id 1 proto 50
missing xfrm policy update dir in tmpl level use
missing xfrm policy add dir in sport 1 type 1 tmpl
missing xfrm policy add dir in tmpl proto esp src ::1 dst 192.0.2.1 tmpl
missing xfrm policy add dir in tmpl sport 1
missing xfrm policy add dir in src ::1 dst 192.0.2.1 tmpl
missing xfrm policy add tmpl proto esp src ::1 dst 192.0.2.1 priority 1
mixed xfrm policy add dir in tmpl proto esp src ::1 dst 192.0.2.1 sport 1 type 1
mixed xfrm policy add dir in dport 1 tmpl proto esp code 1
mixed xfrm policy add dir in dport 1 code 1 tmpl proto esp src ::1 dst 192.0.2.1
family xfrm policy add dir in tmpl proto esp src ::1 dst 192.0.2.1
family xfrm policy add dir in tmpl src 192.0.2.1 dst ::1 proto ah mode tunnel
family xfrm policy add dir in tmpl proto esp tmpl proto esp src ::1 dst 192.0.2.1
family xfrm policy add dir in tmpl proto esp src ::1 dst 192.0.2.1 tmpl proto esp
family xfrm policy add dir in src ::/0 tmpl proto esp src ::1 dst 192.0.2.1
family xfrm policy add dir in src ::/0 dst 192.0.2.1 tmpl proto esp
family xfrm policy add dir in src ::/0 dst 192.0.2.1 sport 1 tmpl proto esp
family xfrm policy add dir in proto gre sport 1 tmpl proto esp src ::1 dst 192.0.2.1
family xfrm policy add dir in tmpl proto esp src ::1 dst 192.0.2.1 type 1
family xfrm policy update dir fwd tmpl proto esp tmpl proto esp tmpl proto esp tmpl proto esp tmpl proto esp tmpl proto esp src ::1 dst 192.0.2.1
ports xfrm policy add dir in sport 1 tmpl proto esp
ports xfrm policy add dir in tmpl proto esp sport 1
ports xfrm policy add dir in proto tcp type 1 tmpl proto comp
";

// The first word from the left that offends decides.
const TEMPLATE_FIRST: &[u8] = b"
word xfrm policy add tmpl x proto 50
number xfrm policy add tmpl spi x proto 50
unsupported xfrm policy add tmpl proto hao spi x
address xfrm policy add tmpl src x dev
unsupported xfrm policy add tmpl dev src x
repeated xfrm policy add dir in dir tmpl x
range xfrm policy add tmpl reqid 4294967296 reqid 1
word xfrm policy add dir in tmpl proto esp src ::1 dst 192.0.2.1 x
missing xfrm policy add dir in tmpl proto esp src ::1 dst 192.0.2.1 level
";

#[test]
fn bad_template_lines_have_their_reason(rt: HostRuntime) -> Result<(), Fail> {
    let tables = [
        TEMPLATE_WORDS,
        TEMPLATE_UNSUPPORTED,
        TEMPLATE_REPEATED,
        TEMPLATE_COUNTS,
        TEMPLATE_VALUES,
        TEMPLATE_ENDS,
        TEMPLATE_FIRST,
    ];
    check_bad(&rt, rt.alloc(), &tables)
}
