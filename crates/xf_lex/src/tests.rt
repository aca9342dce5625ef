//! Lines with their words or their reason, and inputs with their lines.
use super::*;
use std::alloc::Global;
use std::test::*;
use xf_types::Reason;

// Lines, with each of their words ended by a bar.
const WORDS: [(&[u8], &[u8]); 34] = [
    (b"", b""),
    (b"\n", b""),
    (b" \t \n", b""),
    (b"# x", b""),
    (b"#\\", b""),
    (b"\t#\x00\x80\xff'\"\n", b""),
    (b"# x\\\n", b""),
    (b" \\\n\t\\\n\n", b""),
    (b"xfrm", b"xfrm|"),
    (b"xfrm policy\n", b"xfrm|policy|"),
    (b"\txfrm  policy \t count \n", b"xfrm|policy|count|"),
    (b"a# b\n", b"a|"),
    (b"a #b c\\\n", b"a|"),
    (b"a 'b c' d", b"a|b c|d|"),
    (b"a \"b\tc\"\n", b"a|b\tc|"),
    (b"''", b"|"),
    (b"\"\" a ''\n", b"|a||"),
    (b"a''b\"\"c", b"abc|"),
    (b"a'b c'd\"e f\"g", b"ab cde fg|"),
    (b"'a\"b' \"c'd\"", b"a\"b|c'd|"),
    (b"'#a' \"b#\" c", b"#a|b#|c|"),
    (b"''# a", b"|"),
    (b"a\\\nb", b"ab|"),
    (b"a\\\n b\n", b"a|b|"),
    (b"'a\\\nb' \"c\\\nd\"", b"ab|cd|"),
    (b"\\\n\\\na\n", b"a|"),
    (b"\\\n# a", b""),
    (b"''\\\n\"\"", b"|"),
    (b"a\\b \\c", b"a\\b|\\c|"),
    (b"'a\\' \"\\\" a\\ b", b"a\\|\\|a\\|b|"),
    (b"\\\\ a\\\\\nb", b"\\\\|a\\b|"),
    (b"\\'a' \\\"b\"", b"\\a|\\b|"),
    (b"a\\# b", b"a\\|"),
    (b"!~ ~!\n", b"!~|~!|"),
];

// Plain lines, with their fronts.
const FRONTS: [(&[u8], &[u8]); 16] = [
    (b"", b""),
    (b"\n", b""),
    (b"#", b""),
    (b"# x\n", b""),
    (b"#\x00\x80\xff'\"\\\n", b""),
    (b" \t ", b" \t "),
    (b"xfrm", b"xfrm"),
    (b"\txfrm  policy \t count \n", b"\txfrm  policy \t count "),
    (b"a # b\n", b"a "),
    (b"a# b", b"a"),
    (b"a#b c\n", b"a"),
    (b"##", b""),
    (b"a #\nb\n", b"a "),
    (b"a #\\\nb", b"a "),
    (b"a #\r\x7f", b"a "),
    (b"!~ ~!\n", b"!~ ~!"),
];

// Lines that go through the lexer.
const NOT_PLAIN: [&[u8]; 15] = [
    b"''",
    b"\"\"",
    b"a'b",
    b"a \"b\"\n",
    b"a 'b' # c",
    b"\\",
    b"a\\b",
    b"a\\\nb",
    b"a\\\n",
    b"a\r\n",
    b"a\x7f",
    b"a\x00",
    b"\x80",
    b"a\nb",
    b"\n\n",
];

// A logical line's own faults: byte, cut, quote, in this order.
const FAULTS: [(&[u8], Reason); 21] = [
    (b"\x80", Reason::Byte),
    (b"\x7f", Reason::Byte),
    (b"a\x00b", Reason::Byte),
    (b"a\x1f", Reason::Byte),
    (b"a\r\n", Reason::Byte),
    (b"'\x80'", Reason::Byte),
    (b"\"\x07\"", Reason::Byte),
    (b"'\x80", Reason::Byte),
    (b"\x80\\", Reason::Byte),
    (b"\\\x80", Reason::Byte),
    (b"a\\", Reason::Cut),
    (b"a\\\n", Reason::Cut),
    (b"a\\\\", Reason::Cut),
    (b"'\\", Reason::Cut),
    (b"a '\\\n", Reason::Cut),
    (b"\\\n\\\n", Reason::Cut),
    (b"a 'b", Reason::Quote),
    (b"\"", Reason::Quote),
    (b"'\"", Reason::Quote),
    (b"'a\n", Reason::Quote),
    (b"\"a\\b#", Reason::Quote),
];

// Inputs, with how many physical lines each of their logical lines ends.
const INPUTS: [(&[u8], &[usize]); 12] = [
    (b"a", &[0]),
    (b"a\n", &[1]),
    (b"\n\n", &[1, 1]),
    (b"a\nb\nc", &[1, 1, 0]),
    (b"a\\\nb\nc\n", &[2, 1]),
    (b"\\\n\\\n\\\n\n", &[4]),
    (b"# a\\\nb\n", &[1, 1]),
    (b"# '\nb'\nc", &[1, 1, 0]),
    (b"'a\nb'\n", &[1, 1]),
    (b"'a\\\n# b'\\\n# c\\\nd", &[3, 0]),
    (b"a\\\\\nb", &[1]),
    (b"a\\", &[0]),
];

// The words, each ended by a bar.
fn barred(alloc: Global, mut words: Words) -> Result<Vec<u8>, Fail> {
    let mut text = Vec::new(alloc);
    while let Some(word) = words.next() {
        text.extend_from_slice(word)?;
        text.push(b'|')?;
    }
    Ok(text)
}

#[test]
fn lines_have_their_words(rt: HostRuntime) -> Result<(), Fail> {
    let mut scan = Scan::new(rt.alloc());
    for (line, words) in WORDS {
        assert_eq!(rt; scan.read_words(rt.alloc(), line), Ok(()));
        let text = barred(rt.alloc(), Words::Listed(&scan.lexer.words))?;
        assert_eq!(rt; text.as_slice(), words);
        let text = barred(rt.alloc(), scan.words(rt.alloc(), line)?)?;
        assert_eq!(rt; text.as_slice(), words);
    }
    Ok(())
}

#[test]
fn plain_lines_have_their_front(rt: HostRuntime) {
    for (line, front) in FRONTS {
        assert_eq!(rt; plain_front(line), Some(front));
    }
    for line in NOT_PLAIN {
        assert!(rt; plain_front(line).is_none());
    }
}

// The words of a plain line aren't listed.
#[test]
fn plain_lines_are_split_where_they_stand(rt: HostRuntime) -> Result<(), Fail> {
    let mut scan = Scan::new(rt.alloc());
    for (line, _) in FRONTS {
        assert!(rt; matches!(scan.words(rt.alloc(), line)?, Words::Plain(_)));
    }
    assert!(rt; scan.lexer.words.is_empty());
    Ok(())
}

#[test]
fn a_plain_line_has_at_most_4096_bytes(rt: HostRuntime) -> Result<(), Fail> {
    let lines: [(usize, &[u8], bool); 6] = [
        (4096, b"", true),
        (4095, b"\n", true),
        (4094, b"#\x80", true),
        (4097, b"", false),
        (4096, b"\n", false),
        (4095, b"#\x80", false),
    ];
    for (count, back, plain) in lines {
        let line = padded(rt.alloc(), count, back)?;
        assert_eq!(rt; plain_front(&line).is_some(), plain);
    }
    Ok(())
}

#[test]
fn bad_lines_have_their_reason(rt: HostRuntime) {
    let mut scan = Scan::new(rt.alloc());
    for (line, reason) in FAULTS {
        assert_eq!(rt;
            scan.read_words(rt.alloc(), line),
            Err(LineFault::Bad(reason))
        );
    }
}

// A word of so many bytes, and what is behind it.
fn padded(alloc: Global, count: usize, back: &[u8]) -> Result<Vec<u8>, Fail> {
    let mut line = Vec::new(alloc);
    for _ in 0..count {
        line.push(b'a')?;
    }
    line.extend_from_slice(back)?;
    Ok(line)
}

#[test]
fn a_line_has_at_most_4096_bytes(rt: HostRuntime) -> Result<(), Fail> {
    let mut scan = Scan::new(rt.alloc());
    let long = Err(LineFault::Bad(Reason::Long));
    // Line feeds and backslashes that join don't count; other backslashes and comments do.
    let lines: [(usize, &[u8], Result<(), LineFault>); 10] = [
        (4096, b"", Ok(())),
        (4096, b"\n", Ok(())),
        (4097, b"", long),
        (4095, b"\\\na\n", Ok(())),
        (4095, b"\\\naa", long),
        (4094, b"\\a", Ok(())),
        (4095, b"\\a", long),
        (4093, b" #\x80\n", Ok(())),
        (4094, b" #\x80\n", long),
        (4096, b"\\", Err(LineFault::Bad(Reason::Cut))),
    ];
    for (count, back, answer) in lines {
        let line = padded(rt.alloc(), count, back)?;
        assert_eq!(rt; scan.read_words(rt.alloc(), &line), answer);
    }
    Ok(())
}

#[test]
fn inputs_are_cut_into_lines(rt: HostRuntime) {
    for (input, counts) in INPUTS {
        let mut rest = input;
        for count in counts {
            assert!(rt; !rest.is_empty());
            let (line, more) = split_line(rest);
            assert_eq!(rt; count_physical(line), *count);
            rest = more;
        }
        assert!(rt; rest.is_empty());
    }
}
