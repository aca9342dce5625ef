//! The command words.
use super::{Case, FLOW, POLICY, check_all, check_whole, one};
use std::test::Fail;
use xf_types::Status;

const USAGE: &[u8] =
    b"usage: xfrm one | run --workers N [--tries N] [--again] | check | gen --seed N [--workers N]\n";

/// Words that are no command, before a batch.
fn refused<'a>(words: &'a [&'a str]) -> Case<'a> {
    Case {
        words,
        ..one(&[POLICY, FLOW], USAGE, Status::Usage)
    }
}

#[test]
fn words_that_are_no_command(rt: HostRuntime) -> Result<(), Fail> {
    let cases = [
        refused(&[]),
        refused(&["one", "now"]),
        refused(&["one", "one"]),
        refused(&["one", ""]),
        refused(&["One"]),
        refused(&["on"]),
        refused(&["check", "x"]),
        refused(&["check", "--workers", "1"]),
        refused(&["gen"]),
        refused(&["gen", "--seed"]),
        refused(&["gen", "--seed", "-7"]),
        refused(&["gen", "--seed", "18446744073709551616"]),
        refused(&["gen", "--seed", "7", "--seed", "7"]),
        refused(&["help"]),
        refused(&["--help"]),
        refused(&["-h"]),
        refused(&["--version"]),
        refused(&["-V"]),
        refused(&["--"]),
        refused(&["--", "one"]),
        refused(&["one", "--"]),
        refused(&[""]),
        refused(&["", "one"]),
        refused(&["run"]),
        refused(&["run", "--workers", "0"]),
        // commands that come later
        refused(&["run", "--workers", "1"]),
        refused(&["gen", "--seed", "7", "--workers", "4"]),
        // nothing is read
        Case {
            read_fails: &[1],
            ..refused(&["--"])
        },
        // the usage line can't be written, or there is no room for it
        Case {
            words: &["One"],
            write_fails: &[1],
            ..one(&[POLICY], b"", Status::WriteFault)
        },
        Case {
            words: &["gen"],
            room: 20,
            ..one(&[POLICY], b"", Status::WriteFault)
        },
    ];
    check_all(&rt, rt.alloc(), "words", &cases)
}

const SUMMARY: &[u8] =
    b"lines 16004\ncalls 20004\npolicy 6000\nnone 2000\nsent 4000\naccepted 2000\ndropped 4\nrefused 0\nmix 54893406\n";

// The input that the number 7 makes: its batch is not the source's, and the summary has one line for each number.
#[test]
fn input_from_a_number(rt: HostRuntime) -> Result<(), Fail> {
    let made = Case {
        words: &["gen", "--seed", "7"],
        ..one(&[FLOW], SUMMARY, Status::Done)
    };
    let cases = [
        made,
        Case {
            words: &["gen", "--seed=007"],
            read_fails: &[1],
            ..made
        },
        Case {
            write_fails: &[3],
            text: b"lines 16004\ncalls 20004\n",
            status: Status::WriteFault,
            ..made
        },
    ];
    for (i, case) in cases.iter().enumerate() {
        check_whole(&rt, rt.alloc(), "made", i, case)?;
    }
    Ok(())
}
