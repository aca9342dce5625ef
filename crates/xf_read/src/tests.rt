//! What all tests of lines share, and the spellings of words.
ghost use Rattle.std.specs.Prelude.{◌≡◌, ◌≤◌};
ghost use Rattle.xf_types.specs.Address.{family_of};
ghost use Rattle.xf_types.specs.Prefixes.{prefix_at};
ghost use Rattle.xf_types.specs.declared.network.Addr.TheVariants.{V4, V6};

use crate::fault::ReadFault;
use crate::reader::{Item, Reader};
use std::alloc::Global;
use std::test::*;
use xf_lex::{Words, plain_front};
use xf_types::{Addr, Call, Prefix, Ptype, Reason, Selector};

pub(crate) const V6_NET: u128 = 0x20010db8 << 96;

pub(crate) fn reader(alloc: Global) -> Result<Reader, Fail> {
    match Reader::new(alloc) {
        Ok(reader) => Ok(reader),
        Err(_) => Err(Fail::new("no memory")),
    }
}

pub(crate) fn v4(number: u32, len: u8) -> Prefix
    requires { len ≤ 32 }
    ensures { result ≡ prefix_at (V4 number) len }
{
    Prefix::new(Addr::V4(number), len)
}

pub(crate) fn v6(number: u128, len: u8) -> Prefix
    requires { len ≤ 128 }
    ensures { result ≡ prefix_at (V6 number) len }
{
    Prefix::new(Addr::V6(number), len)
}

// Every IPv4 flow.
pub(crate) fn every() -> Selector {
    between(v4(0, 0), v4(0, 0))
}

// The line with quotes round its first word, where it is a plain line that has one.
fn quoted(alloc: Global, line: &[u8]) -> Result<Option<Vec<u8>>, Fail> {
    match plain_front(line) {
        Some(front) if !Words::Plain(front).is_empty() => {}
        _ => return Ok(None),
    }
    let start = line.iter().position(|b| *b > b' ').unwrap_or(0);
    let (blanks, rest) = line.split_at(start);
    let end = rest
        .iter()
        .position(|b| *b <= b' ' || *b == b'#')
        .unwrap_or(rest.len());
    let (word, behind) = rest.split_at(end);
    let mut text = Vec::from_slice(alloc, blanks)?;
    text.push(b'"')?;
    text.extend_from_slice(word)?;
    text.push(b'"')?;
    text.extend_from_slice(behind)?;
    Ok(Some(text))
}

// What a line is read as, in both ways: as it stands, and with quotes, which send it through the lexer.
pub(crate) fn read_line(
    reader: &mut Reader,
    alloc: Global,
    line: &[u8],
    number: u64,
) -> Result<Result<Item, ReadFault>, Fail> {
    let item = reader.line(line, number);
    if let Some(text) = quoted(alloc, line)? {
        if plain_front(&text).is_some() {
            return Err(Fail::new("a line with quotes is taken as plain"));
        }
        if reader.line(&text, number) != item {
            return Err(Fail::new("quotes turn what a line is read as"));
        }
    }
    Ok(item)
}

// What is read of two parts put together.
pub(crate) fn read(
    reader: &mut Reader,
    alloc: Global,
    head: &[u8],
    words: &[u8],
) -> Result<Item, Fail> {
    let mut line = Vec::from_slice(alloc, head)?;
    line.extend_from_slice(words)?;
    match read_line(reader, alloc, &line, 1)? {
        Ok(item) => Ok(item),
        Err(_) => Err(Fail::new("a bad line")),
    }
}

// Every protocol and port between two prefixes.
pub(crate) fn between(src: Prefix, dst: Prefix) -> Selector
    requires { family_of src.addr ≡ family_of dst.addr }
{
    Selector {
        src,
        dst,
        proto: 0,
        sport: None,
        dport: None,
    }
}

#[test]
fn lines_without_words_are_nothing(rt: HostRuntime) -> Result<(), Fail> {
    let mut reader = reader(rt.alloc())?;
    let lines: [&[u8]; 9] = [
        b"",
        b"\n",
        b" \t \n",
        b"# x",
        b"\t#\x00\x80\xff'\"\n",
        b"# x\\\n",
        b"#\\",
        b" \\\n\t\\\n\n",
        b"\\\n# x",
    ];
    for line in lines {
        assert_eq!(rt;
            read_line(&mut reader, rt.alloc(), line, 1)?,
            Ok(Item::Nothing)
        );
    }
    Ok(())
}

// Spellings of `xfrm policy flush ptype sub`.
#[test]
fn words_are_spelled_in_many_ways(rt: HostRuntime) -> Result<(), Fail> {
    let mut reader = reader(rt.alloc())?;
    let lines: [&[u8]; 9] = [
        b"xfrm policy flush ptype sub",
        b"\txfrm  policy \tflush ptype sub \n",
        b"xfrm policy flush ptype sub# and more\n",
        b"xfrm policy flush ptype sub # 'and\" more\\\n",
        b"'xfrm' \"policy\" fl''ush p\"ty\"pe s'u'b",
        b"xf\\\nrm policy flush\\\n ptype sub\n",
        b"xfrm policy fl'u\\\ns'h ptype \"s\\\nub\"",
        b"''xfrm policy flush ptype sub\"\"",
        b"\\\n\\\nxfrm policy flush ptype sub",
    ];
    for line in lines {
        assert_eq!(rt;
            read_line(&mut reader, rt.alloc(), line, 1)?,
            Ok(Item::One(Call::PolicyFlush(Some(Ptype::Sub))))
        );
    }
    // A quote keeps what it holds, and a backslash that joins nothing is a byte.
    let others: [&[u8]; 5] = [
        b"'xfrm policy' flush ptype sub",
        b"xfrm policy flush 'ptype sub'",
        b"xfrm policy flush 'pt\\ype' sub",
        b"xfrm policy flush \"p'type\" sub",
        b"xfrm policy flush '#ptype' sub",
    ];
    for line in others {
        let fault = ReadFault::Bad {
            line: 2,
            reason: Reason::Word,
        };
        assert_eq!(rt; reader.line(line, 2), Err(fault));
    }
    Ok(())
}

// A line with so many bytes, without what is behind them.
fn padded(alloc: Global, front: &[u8], count: usize, back: &[u8]) -> Result<Vec<u8>, Fail> {
    let mut line = Vec::from_slice(alloc, front)?;
    for _ in front.len()..count {
        line.push(b' ')?;
    }
    line.extend_from_slice(back)?;
    Ok(line)
}

#[test]
fn a_line_has_at_most_4096_bytes(rt: HostRuntime) -> Result<(), Fail> {
    let mut reader = reader(rt.alloc())?;
    let long = ReadFault::Bad {
        line: 9,
        reason: Reason::Long,
    };
    let count = Ok(Item::One(Call::PolicyCount));
    // Line feeds and backslashes that join don't count.
    let backs: [&[u8]; 4] = [b"", b"\n", b"\\\n", b"\\\n\\\n\n"];
    for back in backs {
        let whole = padded(rt.alloc(), b"xfrm policy count", 4096, back)?;
        assert_eq!(rt; reader.line(&whole, 9) != Err(long), true);
        let more = padded(rt.alloc(), b"xfrm policy count", 4097, back)?;
        assert_eq!(rt; reader.line(&more, 9), Err(long));
    }
    let whole = padded(rt.alloc(), b"xfrm policy count", 4096, b"\n")?;
    assert_eq!(rt; reader.line(&whole, 9), count);
    // A backslash that joins nothing counts, and a comment does; a long line has no other fault.
    let slash = padded(rt.alloc(), b"xfrm policy count", 4095, b"\\x")?;
    assert_eq!(rt; reader.line(&slash, 9), Err(long));
    let comment = padded(rt.alloc(), b"# \x80", 4096, b"\\\n")?;
    assert_eq!(rt; reader.line(&comment, 9), Err(long));
    let strange = padded(rt.alloc(), b"\x80'", 4097, b"")?;
    assert_eq!(rt; reader.line(&strange, 9), Err(long));
    let cut = padded(rt.alloc(), b"xfrm policy count", 4096, b"\\")?;
    let fault = ReadFault::Bad {
        line: 9,
        reason: Reason::Cut,
    };
    assert_eq!(rt; reader.line(&cut, 9), Err(fault));
    Ok(())
}
