//! Worked batches on extended numbers (RFC 4303, 2.2.1 and Appendix A2) and on windows of more than a word.
use super::tables::check_table;
use std::test::Fail;

const EXTENDED_NUMBERS: &[u8] = b"
# past 2^32: the words after the top, and those in the window, which spans two high halves
> xfrm state add dst 192.0.2.2 proto esp spi 0x1000 replay-window 64 replay-seq 0xfffffff0 flag esn
> packet dst 192.0.2.2 proto esp spi 0x1000 seq 4294967295
> packet dst 192.0.2.2 proto esp spi 0x1000 seq 5
> packet dst 192.0.2.2 proto esp spi 0x1000 seq 4294967294
> packet dst 192.0.2.2 proto esp spi 0x1000 seq 0
> packet dst 192.0.2.2 proto esp spi 0x1000 seq 5
> packet dst 192.0.2.2 proto esp spi 0x1000 seq 4294967280
1: ok sid 1
2: accepted top 4294967295
3: accepted top 4294967301
4: accepted top 4294967301
5: accepted top 4294967301
6: seen top 4294967301
7: seen top 4294967301
= 0

# there is no number before the first
> xfrm state add dst 192.0.2.2 proto esp spi 0x1000 replay-window 32 flag esn
> packet dst 192.0.2.2 proto esp spi 0x1000 seq 0
> packet dst 192.0.2.2 proto esp spi 0x1000 seq 4294967265
> packet dst 192.0.2.2 proto esp spi 0x1000 seq 4294967264
1: ok sid 1
2: zero
3: old top 0
4: accepted top 4294967264
= 0

# nor one after the last
> xfrm state add dst 192.0.2.2 proto esp spi 0x1000 replay-window 32 replay-seq 0xffffff00 replay-seq-hi 0xffffffff flag esn
> packet dst 192.0.2.2 proto esp spi 0x1000 seq 5
> packet dst 192.0.2.2 proto esp spi 0x1000 seq 4294967295
> packet dst 192.0.2.2 proto esp spi 0x1000 seq 4294967295
> packet dst 192.0.2.2 proto esp spi 0x1000 seq 0
1: ok sid 1
2: old top 18446744073709551360
3: accepted top 18446744073709551615
4: seen top 18446744073709551615
5: old top 18446744073709551615
= 0

# the word left of the window is the number furthest on, 2^32 less the window after the top; the same word 2^32 on is seen
> xfrm state add dst 192.0.2.2 proto esp spi 0x1000 replay-window 64 flag esn
> packet dst 192.0.2.2 proto esp spi 0x1000 seq 100
> packet dst 192.0.2.2 proto esp spi 0x1000 seq 100
> packet dst 192.0.2.2 proto esp spi 0x1000 seq 36
> packet dst 192.0.2.2 proto esp spi 0x1000 seq 100
> packet dst 192.0.2.2 proto esp spi 0x1000 seq 37
1: ok sid 1
2: accepted top 100
3: seen top 100
4: accepted top 4294967332
5: accepted top 4294967396
6: accepted top 4294967396
= 0

# without a window the word is the number
> xfrm state add dst 192.0.2.2 proto esp spi 0x1000 replay-seq 5 flag esn
> packet dst 192.0.2.2 proto esp spi 0x1000 seq 3
> packet dst 192.0.2.2 proto esp spi 0x1000 seq 4294967295
> packet dst 192.0.2.2 proto esp spi 0x1000 seq 1
1: ok sid 1
2: accepted top 5
3: accepted top 4294967295
4: accepted top 4294967295
= 0

> xfrm state add dst 192.0.2.2 proto esp spi 0x1000 replay-seq-hi 1 flag esn
> packet dst 192.0.2.2 proto esp spi 0x1000 seq 7
1: ok sid 1
2: accepted top 4294967296
= 0

# without the flag the word is the number, whatever the window
> xfrm state add dst 192.0.2.2 proto esp spi 0x1000 replay-window 64 replay-seq 0xfffffff0
> packet dst 192.0.2.2 proto esp spi 0x1000 seq 5
> packet dst 192.0.2.2 proto esp spi 0x1000 seq 4294967295
1: ok sid 1
2: old top 4294967280
3: accepted top 4294967295
= 0

# an update leaves the flag, the window and the numbers
> xfrm state add dst 192.0.2.2 proto esp spi 0x1000 replay-window 64 replay-seq 0xfffffff0 flag esn
> xfrm state update dst 192.0.2.2 proto esp spi 0x1000 replay-window 32 replay-seq 7
> xfrm state get dst 192.0.2.2 proto esp spi 0x1000
> packet dst 192.0.2.2 proto esp spi 0x1000 seq 5
> packet dst 192.0.2.2 proto esp spi 0x1000 seq 4294967280
1: ok sid 1
2: ok sid 1
3: state 1 src 0.0.0.0 dst 192.0.2.2 proto esp spi 0x00001000 reqid 0 mode transport seq 0 mark 0x00000000 mask 0x00000000 if_id 0 replay-window 64 added 0 esn
4: accepted top 4294967301
5: seen top 4294967301
= 0

# the flag stands behind `wildrecv`
> xfrm state add dst 192.0.2.2 proto esp spi 0x1000 flag esn wildrecv replay-window 4096
> xfrm state get dst 192.0.2.2 proto esp spi 0x1000
1: ok sid 1
2: state 1 src 0.0.0.0 dst 192.0.2.2 proto esp spi 0x00001000 reqid 0 mode transport seq 0 mark 0x00000000 mask 0x00000000 if_id 0 replay-window 4096 added 0 wildrecv esn
= 0
";

const WINDOWS_OF_MANY_WORDS: &[u8] = b"
# both edges of the widest window
> xfrm state add dst 192.0.2.2 proto esp spi 0x1000 replay-window 4096
> packet dst 192.0.2.2 proto esp spi 0x1000 seq 5000
> packet dst 192.0.2.2 proto esp spi 0x1000 seq 904
> packet dst 192.0.2.2 proto esp spi 0x1000 seq 905
> packet dst 192.0.2.2 proto esp spi 0x1000 seq 905
> packet dst 192.0.2.2 proto esp spi 0x1000 seq 4999
> packet dst 192.0.2.2 proto esp spi 0x1000 seq 5001
> packet dst 192.0.2.2 proto esp spi 0x1000 seq 905
> packet dst 192.0.2.2 proto esp spi 0x1000 seq 906
> packet dst 192.0.2.2 proto esp spi 0x1000 seq 5002
1: ok sid 1
2: accepted top 5000
3: old top 5000
4: accepted top 5000
5: seen top 5000
6: accepted top 5000
7: accepted top 5001
8: old top 5001
9: accepted top 5001
10: accepted top 5002
= 0

# its marks have a place each over a whole turn, 65 words of 64 numbers: 1 and 4161, 66 and 4226
> xfrm state add dst 192.0.2.2 proto esp spi 0x1000 replay-window 4096
> packet dst 192.0.2.2 proto esp spi 0x1000 seq 1
> packet dst 192.0.2.2 proto esp spi 0x1000 seq 66
> packet dst 192.0.2.2 proto esp spi 0x1000 seq 4096
> packet dst 192.0.2.2 proto esp spi 0x1000 seq 4160
> packet dst 192.0.2.2 proto esp spi 0x1000 seq 4161
> packet dst 192.0.2.2 proto esp spi 0x1000 seq 65
> packet dst 192.0.2.2 proto esp spi 0x1000 seq 66
> packet dst 192.0.2.2 proto esp spi 0x1000 seq 4096
> packet dst 192.0.2.2 proto esp spi 0x1000 seq 4226
> packet dst 192.0.2.2 proto esp spi 0x1000 seq 4161
> packet dst 192.0.2.2 proto esp spi 0x1000 seq 131
1: ok sid 1
2: accepted top 1
3: accepted top 66
4: accepted top 4096
5: accepted top 4160
6: accepted top 4161
7: old top 4161
8: seen top 4161
9: seen top 4161
10: accepted top 4226
11: seen top 4226
12: accepted top 4226
= 0

# a jump of exactly a turn leaves nothing seen
> xfrm state add dst 192.0.2.2 proto esp spi 0x1000 replay-window 4096
> packet dst 192.0.2.2 proto esp spi 0x1000 seq 4999
> packet dst 192.0.2.2 proto esp spi 0x1000 seq 5000
> packet dst 192.0.2.2 proto esp spi 0x1000 seq 9160
> packet dst 192.0.2.2 proto esp spi 0x1000 seq 9159
> packet dst 192.0.2.2 proto esp spi 0x1000 seq 9159
> packet dst 192.0.2.2 proto esp spi 0x1000 seq 5065
> packet dst 192.0.2.2 proto esp spi 0x1000 seq 5064
1: ok sid 1
2: accepted top 4999
3: accepted top 5000
4: accepted top 9160
5: accepted top 9160
6: seen top 9160
7: accepted top 9160
8: old top 9160
= 0

# nor does one of more than the window, or one of a turn of two words
> xfrm state add dst 192.0.2.2 proto esp spi 0x1000 replay-window 64
> packet dst 192.0.2.2 proto esp spi 0x1000 seq 10
> packet dst 192.0.2.2 proto esp spi 0x1000 seq 100
> packet dst 192.0.2.2 proto esp spi 0x1000 seq 37
> packet dst 192.0.2.2 proto esp spi 0x1000 seq 36
> packet dst 192.0.2.2 proto esp spi 0x1000 seq 37
> packet dst 192.0.2.2 proto esp spi 0x1000 seq 228
> packet dst 192.0.2.2 proto esp spi 0x1000 seq 227
> packet dst 192.0.2.2 proto esp spi 0x1000 seq 165
> packet dst 192.0.2.2 proto esp spi 0x1000 seq 164
1: ok sid 1
2: accepted top 10
3: accepted top 100
4: accepted top 100
5: old top 100
6: seen top 100
7: accepted top 228
8: accepted top 228
9: accepted top 228
10: old top 228
= 0
";

#[test]
fn extended_numbers(rt: HostRuntime) -> Result<(), Fail> {
    check_table(&rt, rt.alloc(), "extended numbers", EXTENDED_NUMBERS)
}

#[test]
fn windows_of_many_words(rt: HostRuntime) -> Result<(), Fail> {
    check_table(
        &rt,
        rt.alloc(),
        "windows of many words",
        WINDOWS_OF_MANY_WORDS,
    )
}
