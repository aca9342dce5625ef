//! The reader of a batch: its lines, and what it keeps between phases.
ghost use Rattle.xf_read.specs.Facts.{IsBetween, IsUnread};

use crate::fault::ReadFault;
use crate::line_reader::LineReader;
use std::alloc::Global;
use xf_types::{Call, Flow, NoMemory};

/// What a line asks for.
#[derive(PartialEq, Debug, Drop)]
pub enum Item {
    /// The line has no words.
    Nothing,
    /// The lines that follow are of this worker.
    Worker(u32),
    /// The phase ends.
    Sync,
    /// Time goes on to what the clock says.
    TickNow,
    One(Call),
    /// A flow, and for each state of its path one packet of so many bytes.
    Send { flow: Flow, len: u32 },
}

/// What a source gave and no line has taken yet, between the phases of a batch.
#[derive(Debug, Drop)]
pub struct Unread {
    pub bytes: Vec<u8>,
    /// So many of the first bytes were taken by lines already.
    pub taken: usize,
    /// The number of the next physical line, from 1.
    pub line: u64,
    /// How many bytes of the input were taken by lines.
    pub before: u64,
    /// Nothing more is to be read.
    pub ended: bool,
    pub ghost facts: { IsUnread bytes.items taken line before },
}

impl Unread {
    ghost use Rattle.xf_read.specs.Unread.{IsFresh};

    fn new(alloc: Global) -> Unread
        ensures { IsFresh result }
    {
        Unread {
            bytes: Vec::new(alloc),
            taken: 0,
            line: 1,
            before: 0,
            ended: false,
        }
    }
}

/// A reader of lines, and of a batch's phases.
#[derive(Debug, Drop)]
pub struct Reader {
    pub lines: LineReader,
    pub unread: Unread,
    pub ghost facts: { IsBetween unread.bytes.items unread.taken unread.ended },
}

impl Reader {
    ghost use Rattle.std.specs.Prelude.{◌≡◌, IfOk};
    ghost use Rattle.xf_read.specs.Items.{GivesItem, item_of};
    ghost use Rattle.xf_read.specs.Unread.{IsFresh};

    /// A reader before its first line.
    pub fn new(alloc: Global) -> Result<Reader, NoMemory>
        ensures { IfOk result (λ reader. IsFresh reader.unread) }
    {
        Ok(Reader {
            lines: LineReader::new(alloc),
            unread: Unread::new(alloc),
        })
    }

    /// Reads one logical line, as the reader of lines does.
    pub fn line(&mut self, bytes: &[u8], number: u64) -> Result<Item, ReadFault>
        ensures item { GivesItem result (item_of bytes.now number) }
        ensures unread { self.new.unread ≡ self.old.unread }
    {
        self.lines.line(bytes, number)
    }
}
