use super::*;
use crate::bits::join_groups;
use std::test::*;
use xf_types::Addr;

// Examples of RFC 4291, 2.2 and RFC 5952, 2, and texts at the edges of the grammar.
const SPELLINGS: [(&[u8], Addr); 34] = [
    (b"0.0.0.0", Addr::V4(0)),
    (b"192.0.2.33", Addr::V4(0xc0000221)),
    (b"255.255.255.255", Addr::V4(0xffffffff)),
    (
        b"ABCD:EF01:2345:6789:ABCD:EF01:2345:6789",
        Addr::V6(0xabcdef0123456789abcdef0123456789),
    ),
    (
        b"2001:DB8:0:0:8:800:200C:417A",
        Addr::V6(0x20010db80000000000080800200c417a),
    ),
    (
        b"2001:DB8::8:800:200C:417A",
        Addr::V6(0x20010db80000000000080800200c417a),
    ),
    (
        b"FF01:0:0:0:0:0:0:101",
        Addr::V6(0xff010000000000000000000000000101),
    ),
    (b"FF01::101", Addr::V6(0xff010000000000000000000000000101)),
    (b"0:0:0:0:0:0:0:1", Addr::V6(1)),
    (b"::1", Addr::V6(1)),
    (b"0:0:0:0:0:0:0:0", Addr::V6(0)),
    (b"::", Addr::V6(0)),
    (b"0::0", Addr::V6(0)),
    (b"0:0:0:0:0:0:13.1.68.3", Addr::V6(0x0d014403)),
    (b"::13.1.68.3", Addr::V6(0x0d014403)),
    (b"0:0:0:0:0:FFFF:129.144.52.38", Addr::V6(0xffff81903426)),
    (b"::FFFF:129.144.52.38", Addr::V6(0xffff81903426)),
    (
        b"1:2:3:4:5:6:1.2.3.4",
        Addr::V6(0x00010002000300040005000601020304),
    ),
    (
        b"2001:db8:aaaa:bbbb:cccc:dddd:eeee:0001",
        Addr::V6(0x20010db8aaaabbbbccccddddeeee0001),
    ),
    (
        b"2001:db8:aaaa:bbbb:cccc:dddd:eeee:001",
        Addr::V6(0x20010db8aaaabbbbccccddddeeee0001),
    ),
    (
        b"2001:db8:aaaa:bbbb:cccc:dddd:eeee:01",
        Addr::V6(0x20010db8aaaabbbbccccddddeeee0001),
    ),
    (
        b"2001:db8:aaaa:bbbb:cccc:dddd:eeee:1",
        Addr::V6(0x20010db8aaaabbbbccccddddeeee0001),
    ),
    (
        b"2001:db8:aaaa:bbbb:cccc:dddd::1",
        Addr::V6(0x20010db8aaaabbbbccccdddd00000001),
    ),
    (
        b"2001:db8:aaaa:bbbb:cccc:dddd:0:1",
        Addr::V6(0x20010db8aaaabbbbccccdddd00000001),
    ),
    (
        b"2001:db8:0:0:0::1",
        Addr::V6(0x20010db8000000000000000000000001),
    ),
    (b"2001:db8::1", Addr::V6(0x20010db8000000000000000000000001)),
    (
        b"2001:db8::aaaa:0:0:1",
        Addr::V6(0x20010db800000000aaaa000000000001),
    ),
    (
        b"2001:db8:0:0:aaaa::1",
        Addr::V6(0x20010db800000000aaaa000000000001),
    ),
    (
        b"2001:db8:aaaa:bbbb:cccc:dddd:eeee:AaAa",
        Addr::V6(0x20010db8aaaabbbbccccddddeeeeaaaa),
    ),
    (
        b"2001:db8::1:1:1:1:1",
        Addr::V6(0x20010db8000000010001000100010001),
    ),
    (
        b"1:2:3:4:5:6:7::",
        Addr::V6(0x00010002000300040005000600070000),
    ),
    (
        b"::2:3:4:5:6:7:8",
        Addr::V6(0x00000002000300040005000600070008),
    ),
    (b"fe80::", Addr::V6(0xfe800000000000000000000000000000)),
    (b"::255.255.255.255", Addr::V6(0xffffffff)),
];

const NO_SPELLINGS: [&[u8]; 38] = [
    b"",
    b".",
    b":",
    b":::",
    b"1.2.3",
    b"1.2.3.4.",
    b"1.2.3.4.5",
    b"1..2.3",
    b"01.2.3.4",
    b"1.2.3.00",
    b"256.0.0.1",
    b"1.2.3.1000",
    b"0x1.2.3.4",
    b"+1.2.3.4",
    b" 1.2.3.4",
    b"1.2.3.4 ",
    b"1.2.3.4/8",
    b"1:2:3:4:5:6:7",
    b"1:2:3:4:5:6:7:8:9",
    b"1:2:3:4:5:6:7:8:",
    b"1::2::3",
    b"1::2:3:4:5:6:7:8",
    b"12345::",
    b"g::",
    b"1:",
    b":1",
    b"::1%eth0",
    b"::1%1",
    b"1.2.3.4::",
    b"1.2.3.4:5:6:7:8:9:a",
    b"::1.2.3.256",
    b"::1.2.3.04",
    b"1:2:3:4:5:6:7:1.2.3.4",
    b"[::1]",
    b"any",
    b"all",
    b"default",
    b"localhost",
];

// Examples of RFC 4291, 2.3, of which two name another prefix than their writer may have meant, and edges.
const PREFIXES: [(&[u8], Addr, u8, &[u8]); 16] = [
    (
        b"2001:0DB8:0000:CD30:0000:0000:0000:0000/60",
        Addr::V6(0x20010db80000cd300000000000000000),
        60,
        b"2001:db8:0:cd30::/60",
    ),
    (
        b"2001:0DB8::CD30:0:0:0:0/60",
        Addr::V6(0x20010db80000cd300000000000000000),
        60,
        b"2001:db8:0:cd30::/60",
    ),
    (
        b"2001:0DB8:0:CD30::/60",
        Addr::V6(0x20010db80000cd300000000000000000),
        60,
        b"2001:db8:0:cd30::/60",
    ),
    (
        b"2001:0DB8:0:CD30:123:4567:89AB:CDEF/60",
        Addr::V6(0x20010db80000cd300000000000000000),
        60,
        b"2001:db8:0:cd30::/60",
    ),
    (
        b"2001:0DB8::CD30/60",
        Addr::V6(0x20010db8000000000000000000000000),
        60,
        b"2001:db8::/60",
    ),
    (
        b"2001:0DB8::CD3/60",
        Addr::V6(0x20010db8000000000000000000000000),
        60,
        b"2001:db8::/60",
    ),
    (
        b"2001:DB8:0:0::/32",
        Addr::V6(0x20010db8000000000000000000000000),
        32,
        b"2001:db8::/32",
    ),
    (b"::/0", Addr::V6(0), 0, b"::/0"),
    (b"::1", Addr::V6(1), 128, b"::1/128"),
    (b"::1/128", Addr::V6(1), 128, b"::1/128"),
    (
        b"::ffff:10.1.2.3/120",
        Addr::V6(0xffff0a010200),
        120,
        b"::ffff:a01:200/120",
    ),
    (b"10.0.0.0/8", Addr::V4(0x0a000000), 8, b"10.0.0.0/8"),
    (b"10.1.2.3/8", Addr::V4(0x0a000000), 8, b"10.0.0.0/8"),
    (b"10.1.2.3", Addr::V4(0x0a010203), 32, b"10.1.2.3/32"),
    (
        b"255.255.255.255/31",
        Addr::V4(0xfffffffe),
        31,
        b"255.255.255.254/31",
    ),
    (b"255.255.255.255/0", Addr::V4(0), 0, b"0.0.0.0/0"),
];

const NO_PREFIXES: [&[u8]; 19] = [
    b"",
    b"/",
    b"/8",
    b"8",
    b"10.0.0.0/",
    b"10.0.0.0/33",
    b"10.0.0.0/08",
    b"10.0.0.0/00",
    b"10.0.0.0/+8",
    b"10.0.0.0/ 8",
    b"10.0.0.0/0x8",
    b"10.0.0.0/8/8",
    b"10.0.0.0/255.0.0.0",
    b"::/129",
    b"::/18446744073709551617",
    b"2001:0DB8:0:CD3/60",
    b"any",
    b"all/0",
    b"default",
];

// Examples of RFC 5952, 2 and 4, and edges. A mixed notation (RFC 5952, 5) is never written.
const WRITTEN: [(Addr, &[u8]); 20] = [
    (Addr::V4(0), b"0.0.0.0"),
    (Addr::V4(0x0a640109), b"10.100.1.9"),
    (Addr::V4(0xffffffff), b"255.255.255.255"),
    (Addr::V6(0x20010db8000000000000000000000001), b"2001:db8::1"),
    (
        Addr::V6(0x20010db8000000000000000000020001),
        b"2001:db8::2:1",
    ),
    (
        Addr::V6(0x20010db8000000010001000100010001),
        b"2001:db8:0:1:1:1:1:1",
    ),
    (
        Addr::V6(0x20010000000000010000000000000001),
        b"2001:0:0:1::1",
    ),
    (
        Addr::V6(0x20010db8000000000001000000000001),
        b"2001:db8::1:0:0:1",
    ),
    (
        Addr::V6(0x20010db8aaaabbbbccccddddeeeeaaaa),
        b"2001:db8:aaaa:bbbb:cccc:dddd:eeee:aaaa",
    ),
    (
        Addr::V6(0x20010db8aaaabbbbccccddddeeee0001),
        b"2001:db8:aaaa:bbbb:cccc:dddd:eeee:1",
    ),
    (Addr::V6(0xffffc0000201), b"::ffff:c000:201"),
    (Addr::V6(0x0d014403), b"::d01:4403"),
    (Addr::V6(0), b"::"),
    (Addr::V6(1), b"::1"),
    (Addr::V6(0xfe800000000000000000000000000000), b"fe80::"),
    (Addr::V6(0x00000000000000010000000000000000), b"0:0:0:1::"),
    (
        Addr::V6(0x00000000000100000000000100000000),
        b"::1:0:0:1:0:0",
    ),
    (
        Addr::V6(0x00000002000300040005000600070008),
        b"0:2:3:4:5:6:7:8",
    ),
    (
        Addr::V6(0x00010002000300040005000600070000),
        b"1:2:3:4:5:6:7:0",
    ),
    (
        Addr::V6(0x0fff00ff000f100001000010ffff0abc),
        b"fff:ff:f:1000:100:10:ffff:abc",
    ),
];

#[test]
fn spellings_are_read(rt: HostRuntime) {
    for (text, addr) in SPELLINGS {
        assert_eq!(rt; read_addr(text), Ok(addr));
    }
}

#[test]
fn other_texts_are_refused(rt: HostRuntime) {
    for text in NO_SPELLINGS {
        assert_eq!(rt; read_addr(text), Err(BadAddr));
    }
}

#[test]
fn prefixes_are_read_and_written(rt: HostRuntime) -> Result<(), Fail> {
    let alloc = rt.alloc();
    for (text, addr, len, written) in PREFIXES {
        let Ok(prefix) = read_prefix(text) else {
            return Err(Fail::new("no prefix"));
        };
        assert_eq!(rt; (prefix.addr, prefix.len), (addr, len));
        let mut out = vec![in alloc; b'-']?;
        write_prefix(&mut out, &prefix)?;
        assert_eq!(rt; out[0], b'-');
        assert_eq!(rt; &out[1..], written);
        assert_eq!(rt; read_prefix(written), Ok(prefix));
    }
    Ok(())
}

#[test]
fn other_texts_are_no_prefixes(rt: HostRuntime) {
    for text in NO_PREFIXES {
        assert_eq!(rt; read_prefix(text), Err(BadAddr));
    }
}

#[test]
fn addresses_are_written(rt: HostRuntime) -> Result<(), Fail> {
    let alloc = rt.alloc();
    for (addr, written) in WRITTEN {
        let mut out = vec![in alloc; b'-']?;
        write_addr(&mut out, &addr)?;
        assert_eq!(rt; out[0], b'-');
        assert_eq!(rt; &out[1..], written);
    }
    Ok(())
}

fn group(pattern: u8, bit: u8) -> u16 {
    if pattern & bit == 0 { 0 } else { 0x0f0 }
}

// Every choice of groups that are zero.
#[test]
fn what_is_written_is_read(rt: HostRuntime) -> Result<(), Fail> {
    let mut out = Vec::new(rt.alloc());
    for pattern in 0..=255u8 {
        let addr = Addr::V6(join_groups([
            group(pattern, 0x80),
            group(pattern, 0x40),
            group(pattern, 0x20),
            group(pattern, 0x10),
            group(pattern, 0x08),
            group(pattern, 0x04),
            group(pattern, 0x02),
            group(pattern, 0x01),
        ]));
        out.clear();
        write_addr(&mut out, &addr)?;
        assert_eq!(rt; read_addr(&out), Ok(addr));
    }
    Ok(())
}

#[test]
fn numbers_are_read(rt: HostRuntime) {
    let read: [(&[u8], u64, Option<u64>); 14] = [
        (b"0", 0, Some(0)),
        (b"7", 7, Some(7)),
        (b"8", 7, None),
        (b"65535", 65535, Some(65535)),
        (b"65536", 65535, None),
        (b"18446744073709551615", u64::MAX, Some(u64::MAX)),
        (b"18446744073709551616", u64::MAX, None),
        (b"340282366920938463463374607431768211457", u64::MAX, None),
        (b"", u64::MAX, None),
        (b"00", u64::MAX, None),
        (b"07", u64::MAX, None),
        (b"+7", u64::MAX, None),
        (b"7 ", u64::MAX, None),
        (b"0x7", u64::MAX, None),
    ];
    for (word, max, number) in read {
        assert_eq!(rt; read_number(word, max), number);
    }
}

#[test]
fn texts_are_cut(rt: HostRuntime) {
    let parts: [(&[u8], Option<(&[u8], &[u8])>); 5] = [
        (b"a/b", Some((b"a", b"b"))),
        (b"/", Some((b"", b""))),
        (b"a/b/c", Some((b"a", b"b/c"))),
        (b"ab", None),
        (b"", None),
    ];
    for (text, both) in parts {
        assert_eq!(rt; cut(text, b'/'), both);
    }
}
