//! The words of a logical line, byte by byte.
ghost use Rattle.std.specs.Prelude.{◌≡◌, [], IfOk};
ghost use Rattle.xf_lex.specs.Lexing.{is_blank, closed};
ghost use Rattle.xf_lex.specs.Shown.{shown};

use crate::quoting::Quoting;
use std::alloc::{AllocError, Global};

// The bytes of most words.
const WORD_ROOM: usize = 24;

/// The words so far, and the one that is begun. A word that is begun may be empty, between quotes. Words of earlier lines
/// are kept aside, so that their memory serves again.
#[derive(Debug, Drop)]
pub struct Lexer {
    pub quoting: Quoting,
    pub words: Vec<Vec<u8>>,
    pub word: Option<Vec<u8>>,
    pub spare: Vec<Vec<u8>>,
}

fn is_blank(byte: u8) -> bool
    ensures { result ≡ is_blank byte }
{
    byte == b' ' || byte == b'\t' || byte == b'\n'
}

impl Lexer {
    ghost use Rattle.std.specs.Prelude.{OnOk};
    ghost use Rattle.xf_lex.specs.Lexing.{start, close, keep, extended, turn_to, open_quote, bare_turn, single_turn, double_turn, turn};
    ghost use Rattle.xf_lex.specs.Shown.{heard};

    pub fn new(alloc: Global) -> Lexer
        ensures { heard result ≡ start }
    {
        Lexer {
            quoting: Quoting::Bare,
            words: Vec::new(alloc),
            word: None,
            spare: Vec::new(alloc),
        }
    }

    /// Makes it ready for the next line.
    pub fn reset(&mut self) -> Result<(), AllocError>
        ensures { OnOk result (heard self.new ≡ start) }
    {
        self.spare.append(&mut self.words)?;
        self.quoting = Quoting::Bare;
        self.word = None;
        Ok(())
    }

    fn empty_word(&mut self, alloc: Global) -> Result<Vec<u8>, AllocError>
        ensures word { IfOk result (λ word. word.items ≡ []) }
        ensures same { heard self.new ≡ heard self.old }
    {
        match self.spare.pop() {
            Some(mut word) => {
                word.clear();
                Ok(word)
            }
            None => Vec::with_capacity(alloc, WORD_ROOM),
        }
    }

    fn close(&mut self, quoting: Quoting) -> Result<(), AllocError>
        ensures { OnOk result (heard self.new ≡ close (heard self.old) quoting) }
    {
        match self.word.take() {
            Some(word) => self.words.push(word)?,
            None => {}
        }
        self.quoting = quoting;
        Ok(())
    }

    fn keep(&mut self, alloc: Global, quoting: Quoting, byte: u8) -> Result<(), AllocError>
        ensures { OnOk result (heard self.new ≡ keep (heard self.old) quoting byte) }
    {
        self.quoting = quoting;
        match &mut self.word {
            Some(word) => word.push(byte)?,
            None => {
                let mut word = self.empty_word(alloc)?;
                word.push(byte)?;
                self.word = Some(word);
            }
        }
        Ok(())
    }

    /// Goes on with the word by some bytes, or begins it.
    pub fn extend(&mut self, alloc: Global, run: &[u8]) -> Result<(), AllocError>
        ensures { OnOk result (heard self.new ≡ extended (heard self.old) run.now) }
    {
        match &mut self.word {
            Some(word) => word.extend_from_slice(run)?,
            None => {
                let mut word = self.empty_word(alloc)?;
                word.extend_from_slice(run)?;
                self.word = Some(word);
            }
        }
        Ok(())
    }

    fn turn_to(&mut self, quoting: Quoting)
        ensures { heard self.new ≡ turn_to (heard self.old) quoting }
    {
        self.quoting = quoting;
    }

    fn open_quote(&mut self, alloc: Global, quoting: Quoting) -> Result<(), AllocError>
        ensures { OnOk result (heard self.new ≡ open_quote (heard self.old) quoting) }
    {
        self.quoting = quoting;
        if self.word.is_none() {
            let word = self.empty_word(alloc)?;
            self.word = Some(word);
        }
        Ok(())
    }

    fn bare_turn(&mut self, alloc: Global, byte: u8) -> Result<(), AllocError>
        ensures { OnOk result (heard self.new ≡ bare_turn (heard self.old) byte) }
    {
        if is_blank(byte) {
            return self.close(Quoting::Bare);
        }
        match byte {
            b'#' => self.close(Quoting::Comment),
            b'\'' => self.open_quote(alloc, Quoting::Single),
            b'"' => self.open_quote(alloc, Quoting::Double),
            b'\\' => {
                self.turn_to(Quoting::BareSlash);
                Ok(())
            }
            _ => self.keep(alloc, Quoting::Bare, byte),
        }
    }

    fn single_turn(&mut self, alloc: Global, byte: u8) -> Result<(), AllocError>
        ensures { OnOk result (heard self.new ≡ single_turn (heard self.old) byte) }
    {
        match byte {
            b'\'' => {
                self.turn_to(Quoting::Bare);
                Ok(())
            }
            b'\\' => {
                self.turn_to(Quoting::SingleSlash);
                Ok(())
            }
            _ => self.keep(alloc, Quoting::Single, byte),
        }
    }

    fn double_turn(&mut self, alloc: Global, byte: u8) -> Result<(), AllocError>
        ensures { OnOk result (heard self.new ≡ double_turn (heard self.old) byte) }
    {
        match byte {
            b'"' => {
                self.turn_to(Quoting::Bare);
                Ok(())
            }
            b'\\' => {
                self.turn_to(Quoting::DoubleSlash);
                Ok(())
            }
            _ => self.keep(alloc, Quoting::Double, byte),
        }
    }

    /// Takes the next byte.
    pub fn turn(&mut self, alloc: Global, byte: u8) -> Result<(), AllocError>
        ensures { OnOk result (heard self.new ≡ turn (heard self.old) byte) }
    {
        let joins = byte == b'\n';
        match self.quoting {
            Quoting::Bare => self.bare_turn(alloc, byte),
            Quoting::Single => self.single_turn(alloc, byte),
            Quoting::Double => self.double_turn(alloc, byte),
            Quoting::Comment => Ok(()),
            Quoting::BareSlash if joins => {
                self.turn_to(Quoting::Bare);
                Ok(())
            }
            Quoting::BareSlash => {
                self.keep(alloc, Quoting::Bare, b'\\')?;
                self.bare_turn(alloc, byte)
            }
            Quoting::SingleSlash if joins => {
                self.turn_to(Quoting::Single);
                Ok(())
            }
            Quoting::SingleSlash => {
                self.keep(alloc, Quoting::Single, b'\\')?;
                self.single_turn(alloc, byte)
            }
            Quoting::DoubleSlash if joins => {
                self.turn_to(Quoting::Double);
                Ok(())
            }
            Quoting::DoubleSlash => {
                self.keep(alloc, Quoting::Double, b'\\')?;
                self.double_turn(alloc, byte)
            }
        }
    }

    /// Ends the word that is begun.
    pub fn close_last(&mut self) -> Result<(), AllocError>
        ensures { OnOk result (shown self.new.words.items ≡ closed (heard self.old).words (heard self.old).word) }
    {
        match self.word.take() {
            Some(word) => self.words.push(word)?,
            None => {}
        }
        Ok(())
    }
}
