//! The words of a logical line, or its fault.
ghost use Rattle.std.specs.Prelude.{◌≡◌, ◌≤◌, ◌<◌, ◌+◌, length, OnOk};
ghost use Rattle.xf_lex.specs.Gives.{Gives};
ghost use Rattle.xf_lex.specs.Lines.{line_start, scan_turn, run_turn, finished, words_of};
ghost use Rattle.xf_lex.specs.Plain.{left};
ghost use Rattle.xf_lex.specs.Quotes.{run_count};
ghost use Rattle.xf_lex.specs.Shown.{shown, scanned};

use crate::fault::LineFault;
use crate::lexer::Lexer;
use crate::plain::plain_front;
use crate::words::Words;
use std::alloc::{AllocError, Global};
use xf_types::Reason;

// How many bytes a logical line may have.
const LINE_LIMIT: u32 = 4096;

/// What is known of the line so far.
#[derive(Debug, Drop)]
pub struct Scan {
    pub lexer: Lexer,
    pub length: u32,
    pub strange: bool,
    pub joined: bool,
}

impl Scan {
    pub fn new(alloc: Global) -> Scan
        ensures { scanned result ≡ line_start }
    {
        Scan {
            lexer: Lexer::new(alloc),
            length: 0,
            strange: false,
            joined: false,
        }
    }

    fn reset(&mut self) -> Result<(), AllocError>
        ensures start { OnOk result (scanned self.new ≡ line_start) }
        ensures empty { OnOk result (self.new.length ≡ 0) }
    {
        self.length = 0;
        self.strange = false;
        self.joined = false;
        self.lexer.reset()
    }

    fn turn(&mut self, alloc: Global, byte: u8) -> Result<(), AllocError>
        requires { self.old.length ≤ 4096 }
        ensures { OnOk result (scanned self.new ≡ scan_turn (scanned self.old) byte) }
    {
        let quoting = self.lexer.quoting;
        self.length += quoting.counted(byte);
        self.strange = self.strange || quoting.is_strange(byte);
        self.joined = quoting.is_slash() && byte == b'\n';
        self.lexer.turn(alloc, byte)
    }

    // How many bytes may be taken together, while the line isn't long.
    fn run_length(&self, rest: &[u8]) -> usize
        requires { self.now.length ≤ 4096 }
        ensures few { result ≤ run_count self.now.lexer.quoting rest.now }
        ensures within { result ≤ length rest.now }
        ensures room { self.now.length + result ≤ 4096 }
    {
        let room = (LINE_LIMIT - self.length) as usize;
        self.lexer.quoting.run_count(rest).min(room)
    }

    fn take_run(&mut self, alloc: Global, run: &[u8]) -> Result<(), AllocError>
        requires room { self.old.length + length run.now ≤ 4096 }
        ensures { OnOk result (scanned self.new ≡ run_turn (scanned self.old) run.now) }
    {
        self.length += run.len() as u32;
        self.joined = false;
        self.lexer.extend(alloc, run)
    }

    fn finish(&mut self) -> Result<(), LineFault>
        ensures { Gives (λ _. shown self.new.lexer.words.items) result (finished (scanned self.old)) }
    {
        if self.strange {
            return Err(LineFault::Bad(Reason::Byte));
        }
        if self.joined || self.lexer.quoting.is_slash() {
            return Err(LineFault::Bad(Reason::Cut));
        }
        if self.lexer.quoting.is_open() {
            return Err(LineFault::Bad(Reason::Quote));
        }
        self.lexer.close_last()?;
        Ok(())
    }

    /// Reads the words of a logical line.
    #[tactic(auto, unfolding(crate::specs::Lines::words_of))]
    pub fn read_words(&mut self, alloc: Global, bytes: &[u8]) -> Result<(), LineFault>
        ensures { Gives (λ _. shown self.new.lexer.words.items) result (words_of bytes.now) }
    {
        self.reset()?;
        let mut rest = bytes;
        'bytes: while let [byte, after @ ..] = rest {
            let count = self.run_length(rest);
            if count > 0 {
                let (run, more) = rest.split_at(count);
                self.take_run(alloc, run)?;
                rest = more;
            } else {
                self.turn(alloc, *byte)?;
                if self.length > LINE_LIMIT {
                    return Err(LineFault::Bad(Reason::Long));
                }
                rest = after;
            }
        }
        self.finish()
    }

    /// The words of a logical line: those of a plain line where they stand, and those of any other as they were listed.
    pub fn words<'a>(&'a mut self, alloc: Global, bytes: &'a [u8]) -> Result<Words<'a>, LineFault>
        ensures { Gives left result (words_of bytes.now) }
    {
        if let Some(front) = plain_front(bytes) {
            return Ok(Words::Plain(front));
        }
        self.read_words(alloc, bytes)?;
        Ok(Words::Listed(&self.lexer.words))
    }
}
