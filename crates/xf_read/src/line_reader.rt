//! The reader of lines.
ghost use Rattle.std.specs.Prelude.{◌≡◌, Some};
ghost use Rattle.xf_lex.specs.Plain.{left};
ghost use Rattle.xf_grammar.specs.declared.head.Head.TheVariants as head;
ghost use Rattle.xf_read.specs.Items.{GivesHead, asked_by, fields_read, flow_item, packet_item, words_item, line_item};

use crate::call::read_asked;
use crate::fault::ReadFault;
use crate::flow::read_flow;
use crate::packet::read_packet;
use crate::reader::Item;
use std::alloc::Global;
use xf_grammar::{Head, HeadTable, Progress, first_in, read_head, tables_in};
use xf_lex::{LineFault, Scan, Words};
use xf_types::{Dir, Flow, Packet, Reason};

/// A reader of lines. Its lists serve one line after another, so that a usual line takes no memory.
#[derive(Debug, Drop)]
pub struct LineReader {
    alloc: Global,
    scan: Scan,
    progress: Progress,
}

// Reads the head and the fields of a line's words.
#[tactic(auto, unfolding(crate::specs::Items::words_item))]
fn read_words(progress: &mut Progress, mut words: Words) -> Result<Option<Head>, LineFault>
    ensures { GivesHead result progress.new.fields (words_item (left words.entry)) }
{
    if words.is_empty() {
        return Ok(None);
    }
    let head = read_head(HeadTable::Start, &mut words)?;
    progress.read_fields(tables_in(head), first_in(head), words)?;
    Ok(Some(head))
}

impl LineReader {
    ghost use Rattle.xf_read.specs.Items.{GivesItem, item_of};

    /// A reader before its first line.
    pub fn new(alloc: Global) -> LineReader {
        LineReader {
            alloc,
            scan: Scan::new(alloc),
            progress: Progress::new(alloc),
        }
    }

    /// Reads the head and the fields of one logical line, and judges them no further; None where it has no words.
    #[tactic(auto, unfolding(crate::specs::Items::line_item))]
    pub fn read_line(&mut self, bytes: &[u8]) -> Result<Option<Head>, LineFault>
        ensures { GivesHead result (fields_read self.new) (line_item bytes.now) }
    {
        let words = self.scan.words(self.alloc, bytes)?;
        read_words(&mut self.progress, words)
    }

    /// What the line asks for whose head and fields were read last.
    pub fn asked(&self, head: Head) -> Result<Item, Reason>
        ensures { result ≡ asked_by (Some head) (fields_read self.now) }
    {
        read_asked(head, &self.progress.fields)
    }

    /// The flow that the line asks for whose fields were read last, where its head is one of flows.
    #[inline]
    #[tactic(auto, unfolding(crate::specs::Calls::asked_of))]
    pub fn flow(&self, dir: Dir) -> Result<Flow, Reason>
        ensures { flow_item result ≡ asked_by (Some (head.Flow dir)) (fields_read self.now) }
    {
        read_flow(dir, &self.progress.fields)
    }

    /// The packet that the line brings whose fields were read last, where its head is that of packets.
    #[inline]
    #[tactic(auto, unfolding(crate::specs::Calls::asked_of))]
    pub fn packet(&self) -> Result<Packet, Reason>
        ensures { packet_item result ≡ asked_by (Some head.Packet) (fields_read self.now) }
    {
        read_packet(&self.progress.fields)
    }

    /// Reads one logical line, whole or as far as it takes to be long, with or without its line feed. `number` is that of
    /// its first physical line.
    pub fn line(&mut self, bytes: &[u8], number: u64) -> Result<Item, ReadFault>
        ensures { GivesItem result (item_of bytes.now number) }
    {
        let read = match self.read_line(bytes) {
            Ok(None) => Ok(Item::Nothing),
            Ok(Some(head)) => self.asked(head),
            Err(LineFault::Bad(reason)) => Err(reason),
            Err(LineFault::Memory) => return Err(ReadFault::NoMemory),
        };
        match read {
            Ok(item) => Ok(item),
            Err(reason) => Err(ReadFault::Bad {
                line: number,
                reason,
            }),
        }
    }
}
