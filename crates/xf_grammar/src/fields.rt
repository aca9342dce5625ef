//! The fields of a line's words.
ghost use Rattle.std.specs.Prelude.{◌≡◌, ◌+◌, option_copied, option_map};
ghost use Rattle.xf_lex.specs.Gives.{Gives};
ghost use Rattle.xf_lex.specs.Plain.{left};
ghost use Rattle.xf_grammar.specs.Grammar.{row_in, row_among, row_of, was_used, fields_of};
ghost use Rattle.xf_grammar.specs.Seen.{seen, uses};
ghost use Rattle.xf_grammar.specs.Tables.{rows_of};

use crate::given::Fields;
use crate::keyword::{Keyword, is_word};
use crate::row::{Arg, Args, Field, Names, Row, Slot, Table, Value};
use crate::tables::rows_in;
use crate::values::{
    addr_value, name_or_prefix, name_or_u8, name_or_u64, name_value, u8_value, u16_value,
    u32_value, u64_value,
};
use std::alloc::Global;
use xf_lex::{LineFault, Words};
use xf_types::Reason;

/// A word that a group had.
#[derive(Clone, Copy, Debug)]
pub(crate) struct Used {
    pub group: u32,
    pub word: &'static [u8],
}

/// What is known between two words.
#[derive(Debug, Drop)]
pub struct Progress {
    pub fields: Fields,
    group: u32,
    opened: u32,
    following: Table,
    pending: Args,
    used: Vec<Used>,
}

impl Row {
    ghost use Rattle.xf_grammar.specs.Grammar.{row_word};

    fn word(&self) -> Keyword
        ensures { result ≡ row_word self.now }
    {
        match self {
            Row::Once(word, _, _) => *word,
            Row::Often(word, _, _) => *word,
            Row::Kept(word, _, _) => *word,
            Row::Opens(word, _, _, _, _) => *word,
            Row::Unsupported(word) => *word,
        }
    }
}

fn find_row<'a>(rows: &'a [Row], word: &[u8]) -> Option<&'a Row>
    ensures { option_copied result ≡ row_in rows.now word.now }
{
    for row in rows {
        if is_word(row.word().text(), word) {
            return Some(row);
        }
    }
    None
}

fn find_among(tables: &[Table], word: &[u8]) -> Option<&'static Row>
    ensures { option_copied result ≡ row_among tables.now word.now }
{
    for table in tables {
        if let Some(row) = find_row(rows_in(*table), word) {
            return Some(row);
        }
    }
    None
}

fn is_used(used: &[Used], group: u32, word: &[u8]) -> bool
    ensures { result ≡ was_used (uses used.now) group word.now }
{
    for u in used {
        if u.group == group && is_word(u.word, word) {
            return true;
        }
    }
    false
}

impl Progress {
    ghost use Rattle.std.specs.Prelude.{Ok, Err, Some, ◌-◌, ◌^◌};
    ghost use Rattle.xf_addr.specs.Prefixes.{prefix_of};
    ghost use Rattle.xf_addr.specs.Reading.{addr_of};
    ghost use Rattle.xf_grammar.specs.declared.row.Args.TheVariants as args;
    ghost use Rattle.xf_grammar.specs.declared.row.Names.TheVariants as names;
    ghost use Rattle.xf_grammar.specs.declared.row.Value.TheVariants as value;
    ghost use Rattle.xf_grammar.specs.Tables.{names_of};
    ghost use Rattle.xf_grammar.specs.Grammar.{name_in, named_or, number_value, some_addr, some_prefix};
    ghost use Rattle.xf_grammar.specs.Grammar.{start, put, put_read, take_value, entered, kept, enter, enter_found};

    pub fn new(alloc: Global) -> Progress
        ensures { seen result ≡ start args.None }
    {
        Progress {
            fields: Fields::new(alloc),
            group: 0,
            opened: 0,
            following: Table::None,
            pending: Args::None,
            used: Vec::new(alloc),
        }
    }

    // Before the first word of a line, where these come first.
    fn reset(&mut self, first: Args)
        ensures { seen self.new ≡ start first }
    {
        self.fields.clear();
        self.group = 0;
        self.opened = 0;
        self.following = Table::None;
        self.pending = first;
        self.used.clear();
    }

    // Puts a value in its place.
    fn put(&mut self, slot: Slot, value: Value) -> Result<(), LineFault>
        ensures { Gives (λ _. seen self.new) result (Ok (put (seen self.old) self.old.pending (Some (slot, value)))) }
    {
        self.fields.push(Field {
            group: self.group,
            slot,
            value,
        })
    }

    // The same of what a word was read as.
    fn put_read(&mut self, slot: Slot, read: Result<Value, Reason>) -> Result<(), LineFault>
        ensures { Gives (λ _. seen self.new) result (put_read (seen self.old) self.old.pending slot read) }
    {
        match read {
            Ok(value) => self.put(slot, value),
            Err(reason) => Err(LineFault::Bad(reason)),
        }
    }

    // The values of each kind have a function of their own, which isn't inlined: a function clears all its locals where it begins,
    // and a word pays for those of its own kind alone.

    #[inline(never)]
    fn take_u16(&mut self, slot: Slot, low: u16, high: u16, word: &[u8]) -> Result<(), LineFault>
        ensures { Gives (λ _. seen self.new) result
            (put_read (seen self.old) self.old.pending slot (number_value value.U16 low high word.now)) }
    {
        self.put_read(slot, u16_value(low, high, word))
    }

    #[inline(never)]
    fn take_u32(&mut self, slot: Slot, low: u32, high: u32, word: &[u8]) -> Result<(), LineFault>
        ensures { Gives (λ _. seen self.new) result
            (put_read (seen self.old) self.old.pending slot (number_value value.U32 low high word.now)) }
    {
        self.put_read(slot, u32_value(low, high, word))
    }

    #[inline(never)]
    fn take_u64(&mut self, slot: Slot, low: u64, high: u64, word: &[u8]) -> Result<(), LineFault>
        ensures { Gives (λ _. seen self.new) result
            (put_read (seen self.old) self.old.pending slot (number_value value.U64 low high word.now)) }
    {
        self.put_read(slot, u64_value(low, high, word))
    }

    #[inline(never)]
    fn take_addr(&mut self, slot: Slot, word: &[u8]) -> Result<(), LineFault>
        ensures { Gives (λ _. seen self.new) result
            (put_read (seen self.old) self.old.pending slot (some_addr (addr_of word.now))) }
    {
        self.put_read(slot, addr_value(word))
    }

    #[inline(never)]
    fn take_prefix(&mut self, slot: Slot, word: &[u8]) -> Result<(), LineFault>
        ensures { Gives (λ _. seen self.new) result
            (put_read (seen self.old) self.old.pending slot (named_or (name_in (names_of names.Anys) word.now) (some_prefix (prefix_of word.now)))) }
    {
        self.put_read(slot, name_or_prefix(word))
    }

    #[inline(never)]
    fn take_name(&mut self, slot: Slot, names: Names, word: &[u8]) -> Result<(), LineFault>
        ensures { Gives (λ _. seen self.new) result
            (put_read (seen self.old) self.old.pending slot (named_or (name_in (names_of names) word.now) (Err Reason.Word))) }
    {
        self.put_read(slot, name_value(names, word))
    }

    #[inline(never)]
    fn take_name_or_u8(
        &mut self,
        slot: Slot,
        first: Names,
        second: Names,
        word: &[u8],
    ) -> Result<(), LineFault>
        ensures { Gives (λ _. seen self.new) result
            (put_read (seen self.old) self.old.pending slot (named_or (name_in (names_of first) word.now)
            (named_or (name_in (names_of second) word.now) (number_value value.U8 0 255 word.now)))) }
    {
        self.put_read(slot, name_or_u8(first, second, word))
    }

    #[inline(never)]
    fn take_name_or_u64(&mut self, slot: Slot, names: Names, word: &[u8]) -> Result<(), LineFault>
        ensures { Gives (λ _. seen self.new) result
            (put_read (seen self.old) self.old.pending slot (named_or (name_in (names_of names) word.now)
            (number_value value.U64 0 (2 ^ 64 - 1) word.now))) }
    {
        self.put_read(slot, name_or_u64(names, word))
    }

    #[inline(never)]
    fn take_u8(&mut self, slot: Slot, low: u8, high: u8, word: &[u8]) -> Result<(), LineFault>
        ensures { Gives (λ _. seen self.new) result
            (put_read (seen self.old) self.old.pending slot (number_value value.U8 low high word.now)) }
    {
        self.put_read(slot, u8_value(low, high, word))
    }

    // Reads a value, and puts it in its place. What comes behind it is pending already.
    #[tactic(auto, unfolding(crate::specs::Grammar::value_in))]
    fn take_value(&mut self, arg: Arg, word: &[u8]) -> Result<(), LineFault>
        ensures { Gives (λ _. seen self.new) result (take_value (seen self.old) arg self.old.pending word.now) }
    {
        match arg {
            Arg::U8(slot, low, high) => self.take_u8(slot, low, high, word),
            Arg::U16(slot, low, high) => self.take_u16(slot, low, high, word),
            Arg::U32(slot, low, high) => self.take_u32(slot, low, high, word),
            Arg::U64(slot, low, high) => self.take_u64(slot, low, high, word),
            Arg::NameOrU8(slot, first, second) => self.take_name_or_u8(slot, first, second, word),
            Arg::NameOrU64(slot, names) => self.take_name_or_u64(slot, names, word),
            Arg::Name(slot, names) => self.take_name(slot, names, word),
            Arg::Addr(slot) => self.take_addr(slot, word),
            Arg::Prefix(slot) => self.take_prefix(slot, word),
            Arg::Forgotten => Ok(()),
        }
    }

    fn enter_row(&mut self, group: u32, values: Args, next: Table)
        ensures { seen self.new ≡ entered (seen self.old) group values next }
    {
        self.group = group;
        self.following = next;
        self.pending = values;
    }

    // A word without a value was met in this group: that it stands is kept.
    fn keep(&mut self, group: u32, slot: Slot, next: Table) -> Result<(), LineFault>
        ensures { Gives (λ _. seen self.new) result (Ok (kept (seen self.old) group slot next)) }
    {
        self.enter_row(group, Args::None, next);
        self.put(slot, Value::Bool(true))
    }

    // A row's word was met in this group.
    #[tactic(auto, unfolding(crate::specs::Grammar::enter))]
    fn enter(&mut self, group: u32, row: &Row) -> Result<(), LineFault>
        ensures { Gives (λ _. seen self.new) result (enter (seen self.old) group row.now) }
    {
        match row {
            Row::Once(word, values, next) => {
                if is_used(&self.used, group, word.text()) {
                    return Err(LineFault::Bad(Reason::Repeated));
                }
                self.used.push(Used {
                    group,
                    word: word.text(),
                })?;
                self.enter_row(group, *values, *next);
                Ok(())
            }
            Row::Often(_, values, next) => {
                self.enter_row(group, *values, *next);
                Ok(())
            }
            Row::Kept(_, slot, next) => self.keep(group, *slot, *next),
            Row::Opens(_, slot, next, most, more) => {
                if self.opened >= *most {
                    return Err(LineFault::Bad(*more));
                }
                self.opened += 1;
                self.keep(self.opened, *slot, *next)
            }
            Row::Unsupported(_) => Err(LineFault::Bad(Reason::Unsupported)),
        }
    }

    fn enter_found(&mut self, found: Option<(u32, &Row)>) -> Result<(), LineFault>
        ensures { Gives (λ _. seen self.new) result (enter_found (seen self.old) (option_map (λ f. (f.0, f.1.now)) found.entry)) }
    {
        match found {
            None => Err(LineFault::Bad(Reason::Word)),
            Some((group, row)) => self.enter(group, row),
        }
    }
}

impl Progress {
    ghost use Rattle.std.specs.Prelude.{None};
    ghost use Rattle.xf_grammar.specs.Grammar.{after_word, ended, in_group};

    // A word is first sought in the table that may follow, and then among the line's own.
    fn find(&self, tables: &[Table], word: &[u8]) -> Option<(u32, &'static Row)>
        ensures { option_map (λ f. (f.0, f.1.now)) result ≡ row_of tables.now (seen self.now) word.now }
    {
        if let Some(row) = find_row(rows_in(self.following), word) {
            return Some((self.group, row));
        }
        match find_among(tables, word) {
            Some(row) => Some((0, row)),
            None => None,
        }
    }

    // A word of this table has to come.
    fn find_in(&self, table: Table, word: &[u8]) -> Option<(u32, &'static Row)>
        ensures { option_map (λ f. (f.0, f.1.now)) result ≡ in_group self.now.group (row_in (rows_of table) word.now) None }
    {
        match find_row(rows_in(table), word) {
            Some(row) => Some((self.group, row)),
            None => None,
        }
    }

    // Takes the next word.
    #[tactic(auto, using(crate::proofs::PendingLaws::taken_with), unfolding(crate::specs::Grammar::after_word))]
    fn after_word(&mut self, tables: &[Table], word: &[u8]) -> Result<(), LineFault>
        ensures { Gives (λ _. seen self.new) result (after_word tables.now (seen self.old) word.now) }
    {
        match self.pending {
            Args::None => {
                let found = self.find(tables, word);
                self.enter_found(found)
            }
            Args::One(a) => {
                self.pending = Args::None;
                self.take_value(a, word)
            }
            Args::Two(a, b) => {
                self.pending = Args::One(b);
                self.take_value(a, word)
            }
            Args::Three(a, b, c) => {
                self.pending = Args::Two(b, c);
                self.take_value(a, word)
            }
            Args::Word(table) => {
                let found = self.find_in(table, word);
                self.enter_found(found)
            }
        }
    }

    fn end(&self) -> Result<(), LineFault>
        ensures { Gives (λ _. self.now.fields) result (ended self.now.fields self.now.pending) }
    {
        match self.pending {
            Args::None => Ok(()),
            _ => Err(LineFault::Bad(Reason::Missing)),
        }
    }

    /// Reads the fields of a line's words, by the tables of its head and by what has to come first.
    #[tactic(auto, unfolding(crate::specs::Grammar::fields_of))]
    pub fn read_fields(
        &mut self,
        tables: &[Table],
        first: Args,
        mut words: Words,
    ) -> Result<(), LineFault>
        ensures { Gives (λ _. self.new.fields) result (fields_of tables.now first (left words.entry)) }
    {
        self.reset(first);
        'words: while let Some(word) = words.next() {
            self.after_word(tables, word)?;
        }
        self.end()
    }
}
