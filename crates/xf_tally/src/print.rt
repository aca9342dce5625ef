//! The text of a summary.
ghost use Rattle.std.specs.Prelude.{◌≡◌, ◌++◌, OnOk, OnErr};
ghost use Rattle.xf_tally.specs.Text.{number_line, numbers_text};

use crate::tally::Tally;
use std::io::Write;
use xf_types::NoMemory;

fn put(out: &mut Vec<u8>, text: &[u8]) -> Result<(), NoMemory>
    ensures text { OnOk result (out.new.items ≡ out.old.items ++ text.now) }
    ensures memory { OnErr result (out.new.items ≡ out.old.items) }
{
    match out.extend_from_slice(text) {
        Ok(()) => Ok(()),
        Err(_) => Err(NoMemory),
    }
}

/// A word with its space, and its number.
#[tactic(auto, unfolding(crate::specs::Text::number_line))]
fn put_line(out: &mut Vec<u8>, word: &[u8], number: u128) -> Result<(), NoMemory>
    ensures { OnOk result (out.new.items ≡ out.old.items ++ number_line word.now number) }
{
    put(out, word)?;
    match write!(out, "{number}") {
        Ok(()) => put(out, b"\n"),
        Err(_) => Err(NoMemory),
    }
}

#[tactic(auto, unfolding(crate::specs::Text::numbers_text))]
fn put_numbers(out: &mut Vec<u8>, tally: &Tally) -> Result<(), NoMemory>
    ensures { OnOk result (out.new.items ≡ out.old.items ++ numbers_text tally.now) }
{
    put_line(out, b"lines ", u128::from(tally.lines()))?;
    put_line(out, b"calls ", u128::from(tally.calls()))?;
    put_line(out, b"policy ", u128::from(tally.policy()))?;
    put_line(out, b"none ", u128::from(tally.none()))?;
    put_line(out, b"sent ", u128::from(tally.sent()))?;
    put_line(out, b"accepted ", u128::from(tally.accepted()))?;
    put_line(out, b"dropped ", u128::from(tally.dropped()))?;
    put_line(out, b"refused ", u128::from(tally.refused()))?;
    put_line(out, b"mix ", tally.mix())
}

/// Appends the nine lines of a summary, each a word, a space, a number and a line feed.
pub fn print_tally(out: &mut Vec<u8>, tally: &Tally) -> Result<(), NoMemory>
    ensures text { OnOk result (out.new.items ≡ out.old.items ++ numbers_text tally.now) }
    ensures memory { OnErr result (out.new.items ≡ out.old.items) }
{
    // The text is made aside, so that no part of it stands in the list where memory is refused.
    let mut text = Vec::new(*out.allocator());
    put_numbers(&mut text, tally)?;
    put(out, &text)
}
