//! Worked rows on policies, as lines and as the text that is printed of them.
use crate::Beside;
use std::alloc::Global;
use std::process::Abort;
use std::test::Fail;
use xf_print::print_receipt;
use xf_read::{Item, Reader};
use xf_types::{Place, Receipt};

const WIDE: &[u8] = b"xfrm policy add src 10.0.0.0/8 dst 0.0.0.0/0 dir out priority 10\n";

const FLOW: &[u8] = b"flow out src 10.1.2.3 dst 192.0.2.1\n";

const EXACT: &[u8] =
    b"xfrm policy add src 10.1.2.3/32 dst 192.0.2.1/32 dir out priority 20 action block\n";

/// The text of the reply to a line.
fn answered(
    alloc: Global,
    beside: &mut Beside,
    reader: &mut Reader,
    line: &[u8],
    number: u64,
) -> Result<Vec<u8>, Fail> {
    let call = match reader.line(line, number) {
        Ok(Item::One(call)) => call,
        _ => return Err(Fail::new("not a call")),
    };
    let reply = beside.answer(alloc, &call).ok_or("not answered")?;
    let receipt = Receipt {
        number,
        worker: 0,
        at: Place {
            line: number,
            part: 0,
        },
        call,
        reply,
    };
    let mut text = Vec::new(alloc);
    print_receipt(&mut text, &receipt)?;
    Ok(text)
}

/// The lines give this text.
fn gives(
    rt: &impl Abort,
    alloc: Global,
    row: usize,
    lines: &[&[u8]],
    text: &[u8],
) -> Result<(), Fail> {
    let mut reader = Reader::new(alloc)?;
    let mut beside = Beside::new(alloc, 16)?;
    let mut all = Vec::new(alloc);
    let mut number: u64 = 0;
    for line in lines {
        number = number.saturating_add(1);
        all.extend_from_slice(&answered(alloc, &mut beside, &mut reader, line, number)?)?;
    }
    assert_eq!(rt; all.as_slice(), text, "row {row}");
    Ok(())
}

#[test]
fn worked_rows(rt: HostRuntime) -> Result<(), Fail> {
    let rows: [(&[&[u8]], &[u8]); 6] = [
        // equal priorities: the older one first, and an update makes it the younger one
        (
            &[
                b"xfrm policy add src 10.0.0.0/8 dst 0.0.0.0/0 dir out priority 5\n",
                b"xfrm policy add src 10.1.0.0/16 dst 0.0.0.0/0 dir out priority 5\n",
                FLOW,
                b"xfrm policy update src 10.0.0.0/8 dst 0.0.0.0/0 dir out priority 5\n",
                FLOW,
            ],
            b"1: ok index 9\n2: ok index 17\n3: policy 9 allow\n4: ok index 9\n5: policy 17 allow\n",
        ),
        // an exact policy beside a wider one
        (
            &[EXACT, WIDE, FLOW],
            b"1: ok index 9\n2: ok index 17\n3: policy 17 allow\n",
        ),
        (
            &[
                EXACT,
                b"xfrm policy add src 10.0.0.0/8 dst 0.0.0.0/0 dir out priority 30\n",
                FLOW,
            ],
            b"1: ok index 9\n2: ok index 17\n3: policy 9 block\n",
        ),
        // `sub` before `main`
        (
            &[
                b"xfrm policy add src 10.0.0.0/8 dst 0.0.0.0/0 dir out priority 0\n",
                b"xfrm policy add src 10.0.0.0/8 dst 0.0.0.0/0 dir out priority 100 ptype sub\n",
                FLOW,
            ],
            b"1: ok index 9\n2: ok index 17\n3: policy 17 allow\n",
        ),
        // two sources, one in the other, and a third within both for a destination of any address; they leave one after another
        (
            &[
                b"xfrm policy add src 10.0.0.0/8 dst 192.0.2.0/24 dir out priority 5\n",
                b"xfrm policy add src 10.1.0.0/16 dst 192.0.2.0/24 dir out priority 4\n",
                b"xfrm policy add src 10.1.2.0/24 dst 0.0.0.0/0 dir out priority 3\n",
                FLOW,
                b"xfrm policy delete src 10.1.2.0/24 dst 0.0.0.0/0 dir out\n",
                FLOW,
                b"xfrm policy delete src 10.1.0.0/16 dst 192.0.2.0/24 dir out\n",
                FLOW,
                b"xfrm policy delete src 10.0.0.0/8 dst 192.0.2.0/24 dir out\n",
                FLOW,
            ],
            b"1: ok index 9\n2: ok index 17\n3: ok index 25\n4: policy 25 allow\n5: ok index 25\n6: policy 17 allow\n7: ok index 17\n8: policy 9 allow\n9: ok index 9\n10: none\n",
        ),
        // other thresholds
        (
            &[WIDE, FLOW, b"xfrm policy set hthresh4 8 0\n", FLOW],
            b"1: ok index 9\n2: policy 9 allow\n3: ok\n4: policy 9 allow\n",
        ),
    ];
    for (row, (lines, text)) in rows.iter().enumerate() {
        gives(&rt, rt.alloc(), row, lines, text)?;
    }
    Ok(())
}

#[test]
fn one_more_than_all_policies(rt: HostRuntime) -> Result<(), Fail> {
    let alloc = rt.alloc();
    let mut reader = Reader::new(alloc)?;
    let mut beside = Beside::new(alloc, 4096)?;
    for i in 0..4097_u64 {
        let line = format!(in alloc;
            "xfrm policy add src 0.0.0.0/0 dst 10.0.{}.{}/32 dir out priority 0\n",
            i / 256,
            i % 256
        )?;
        let text = answered(alloc, &mut beside, &mut reader, line.as_bytes(), i + 1)?;
        if i == 4096 {
            assert_eq!(rt;
                text.as_slice(),
                b"4097: full live 4096 waiting 0\n".as_slice()
            );
        }
    }
    Ok(())
}
