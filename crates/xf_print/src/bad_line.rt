//! The text of a bad line.
ghost use Rattle.std.specs.Prelude.{◌≡◌, ◌++◌, OnOk, OnErr};
ghost use Rattle.xf_print.specs.BadLine.{reason_text, bad_line_text};

use crate::put::{put, put_number};
use xf_types::{NoMemory, Reason};

fn reason_word(reason: Reason) -> &'static [u8]
    ensures { result.now ≡ reason_text reason }
{
    match reason {
        Reason::Byte => b"byte",
        Reason::Long => b"long",
        Reason::Quote => b"quote",
        Reason::Cut => b"cut",
        Reason::Word => b"word",
        Reason::Unsupported => b"unsupported",
        Reason::Missing => b"missing",
        Reason::Repeated => b"repeated",
        Reason::Number => b"number",
        Reason::Range => b"range",
        Reason::Address => b"address",
        Reason::Family => b"family",
        Reason::Ports => b"ports",
        Reason::Templates => b"templates",
        Reason::Mixed => b"mixed",
        Reason::Phase => b"phase",
        Reason::Input => b"input",
    }
}

#[tactic(auto, unfolding(crate::specs::BadLine::bad_line_text))]
fn put_bad_line(out: &mut Vec<u8>, line: u64, reason: Reason) -> Result<(), NoMemory>
    ensures { OnOk result (out.new.items ≡ out.old.items ++ bad_line_text line reason) }
{
    put_number(out, b"bad line ", line)?;
    put(out, b": ")?;
    put(out, reason_word(reason))?;
    put(out, b"\n")
}

/// Appends the line that a bad line of the input gives.
pub fn print_bad_line(out: &mut Vec<u8>, line: u64, reason: Reason) -> Result<(), NoMemory>
    ensures text { OnOk result (out.new.items ≡ out.old.items ++ bad_line_text line reason) }
    ensures memory { OnErr result (out.new.items ≡ out.old.items) }
{
    // The text is made aside, so that no part of it stands in the list where memory is refused.
    let mut text = Vec::new(*out.allocator());
    put_bad_line(&mut text, line, reason)?;
    put(out, &text)
}
