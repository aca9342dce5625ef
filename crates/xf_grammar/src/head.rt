//! The heads of lines.
ghost use Rattle.std.specs.Prelude.{◌≡◌};
ghost use Rattle.xf_lex.specs.Gives.{Reads};
ghost use Rattle.xf_grammar.specs.Heads.{head_rows_of, head_row_in, head_of};
ghost use Rattle.xf_lex.specs.Plain.{left};

use crate::keyword::{Keyword, is_word};
use xf_lex::Words;
use xf_types::{Dir, Reason};

/// What kind of line it is.
#[derive(Clone, Copy, Debug)]
pub enum Head {
    PolicyAdd,
    PolicyUpdate,
    PolicyDelete,
    PolicyGet,
    PolicyDeleteAll,
    PolicyList,
    PolicyFlush,
    PolicyCount,
    PolicySet,
    StateAdd,
    StateUpdate,
    StateDelete,
    StateGet,
    StateDeleteAll,
    StateList,
    StateFlush,
    StateCount,
    AllocSpi,
    Flow(Dir),
    Send,
    Packet,
    Tick,
    Worker,
    Sync,
}

/// A word of a head: it leads to a table of further words, or ends the head.
#[derive(Clone, Copy, Debug)]
pub(crate) enum HeadRow {
    Leads(Keyword, HeadTable),
    Ends(Keyword, Head),
    Unsupported(Keyword),
}

/// The words that may stand next in a head.
#[derive(Clone, Copy, Debug)]
pub enum HeadTable {
    Start,
    Xfrm,
    Policy,
    State,
    Flow,
}

pub(crate) static START: [HeadRow; 7] = [
    HeadRow::Leads(Keyword::Xfrm, HeadTable::Xfrm),
    HeadRow::Leads(Keyword::Flow, HeadTable::Flow),
    HeadRow::Ends(Keyword::Send, Head::Send),
    HeadRow::Ends(Keyword::Packet, Head::Packet),
    HeadRow::Ends(Keyword::Tick, Head::Tick),
    HeadRow::Ends(Keyword::Worker, Head::Worker),
    HeadRow::Ends(Keyword::Sync, Head::Sync),
];

pub(crate) static XFRM: [HeadRow; 3] = [
    HeadRow::Leads(Keyword::Policy, HeadTable::Policy),
    HeadRow::Leads(Keyword::State, HeadTable::State),
    HeadRow::Unsupported(Keyword::Monitor),
];

// `del` is read as `delete`, and `show` and `ls` as `list`.
pub(crate) static POLICY: [HeadRow; 14] = [
    HeadRow::Ends(Keyword::Add, Head::PolicyAdd),
    HeadRow::Ends(Keyword::Update, Head::PolicyUpdate),
    HeadRow::Ends(Keyword::Delete, Head::PolicyDelete),
    HeadRow::Ends(Keyword::Del, Head::PolicyDelete),
    HeadRow::Ends(Keyword::Get, Head::PolicyGet),
    HeadRow::Ends(Keyword::DeleteAll, Head::PolicyDeleteAll),
    HeadRow::Ends(Keyword::List, Head::PolicyList),
    HeadRow::Ends(Keyword::Show, Head::PolicyList),
    HeadRow::Ends(Keyword::Ls, Head::PolicyList),
    HeadRow::Ends(Keyword::Flush, Head::PolicyFlush),
    HeadRow::Ends(Keyword::Count, Head::PolicyCount),
    HeadRow::Ends(Keyword::Set, Head::PolicySet),
    HeadRow::Unsupported(Keyword::SetDefault),
    HeadRow::Unsupported(Keyword::GetDefault),
];

pub(crate) static STATE: [HeadRow; 12] = [
    HeadRow::Ends(Keyword::Add, Head::StateAdd),
    HeadRow::Ends(Keyword::Update, Head::StateUpdate),
    HeadRow::Ends(Keyword::Delete, Head::StateDelete),
    HeadRow::Ends(Keyword::Del, Head::StateDelete),
    HeadRow::Ends(Keyword::Get, Head::StateGet),
    HeadRow::Ends(Keyword::DeleteAll, Head::StateDeleteAll),
    HeadRow::Ends(Keyword::List, Head::StateList),
    HeadRow::Ends(Keyword::Show, Head::StateList),
    HeadRow::Ends(Keyword::Ls, Head::StateList),
    HeadRow::Ends(Keyword::Flush, Head::StateFlush),
    HeadRow::Ends(Keyword::Count, Head::StateCount),
    HeadRow::Ends(Keyword::AllocSpi, Head::AllocSpi),
];

pub(crate) static FLOW: [HeadRow; 3] = [
    HeadRow::Ends(Keyword::In, Head::Flow(Dir::In)),
    HeadRow::Ends(Keyword::Out, Head::Flow(Dir::Out)),
    HeadRow::Ends(Keyword::Fwd, Head::Flow(Dir::Fwd)),
];

fn head_rows_in(table: HeadTable) -> &'static [HeadRow]
    ensures { result.now ≡ head_rows_of table }
{
    match table {
        HeadTable::Start => &START,
        HeadTable::Xfrm => &XFRM,
        HeadTable::Policy => &POLICY,
        HeadTable::State => &STATE,
        HeadTable::Flow => &FLOW,
    }
}

impl HeadRow {
    ghost use Rattle.xf_grammar.specs.Heads.{head_word};

    fn word(&self) -> Keyword
        ensures { result ≡ head_word self.now }
    {
        match self {
            HeadRow::Leads(word, _) => *word,
            HeadRow::Ends(word, _) => *word,
            HeadRow::Unsupported(word) => *word,
        }
    }
}

fn find_head_row(rows: &[HeadRow], word: &[u8]) -> Option<HeadRow>
    ensures { result ≡ head_row_in rows.now word.now }
{
    for row in rows {
        if is_word(row.word().text(), word) {
            return Some(*row);
        }
    }
    None
}

/// Reads the head that the words begin with, from this table on, and leaves the words after it.
pub fn read_head(table: HeadTable, words: &mut Words) -> Result<Head, Reason>
    ensures { Reads (λ head. (head, left words.new)) result (head_of table (left words.old)) }
{
    let mut table = table;
    'words: while let Some(word) = words.next() {
        match find_head_row(head_rows_in(table), word) {
            Some(HeadRow::Leads(_, next)) => table = next,
            Some(HeadRow::Ends(_, head)) => return Ok(head),
            Some(HeadRow::Unsupported(_)) => return Err(Reason::Unsupported),
            None => return Err(Reason::Word),
        }
    }
    Err(Reason::Missing)
}
