//! The values that words are.
ghost use Rattle.std.specs.Prelude.{◌≡◌, ◌-◌, ◌^◌, Err, option_copied};
ghost use Rattle.xf_addr.specs.Prefixes.{prefix_of};
ghost use Rattle.xf_addr.specs.Reading.{addr_of};
ghost use Rattle.xf_grammar.specs.Grammar.{name_in, named_or, some_addr, some_prefix, number_value};
ghost use Rattle.xf_grammar.specs.Tables.{names_of};
ghost use Rattle.xf_grammar.specs.declared.row.Names.TheVariants as names;
ghost use Rattle.xf_grammar.specs.declared.row.Value.TheVariants as value;

use crate::keyword::{Keyword, is_word};
use crate::number::read_number_in;
use crate::row::{Meaning, Name, Names, Value};
use crate::tables::names_in;
use xf_addr::{read_addr, read_prefix};
use xf_types::Reason;

impl Meaning {
    ghost use Rattle.xf_grammar.specs.Grammar.{value_of_meaning};

    fn value(self) -> Value
        ensures { result ≡ value_of_meaning self }
    {
        match self {
            Meaning::U8(n) => Value::U8(n),
            Meaning::Any => Value::Any,
            Meaning::Dir(dir) => Value::Dir(dir),
            Meaning::Ptype(ptype) => Value::Ptype(ptype),
            Meaning::Action(action) => Value::Action(action),
            Meaning::Proto(proto) => Value::Proto(proto),
            Meaning::Mode(mode) => Value::Mode(mode),
            Meaning::Level(level) => Value::Level(level),
            Meaning::Bool(x) => Value::Bool(x),
            Meaning::Now => Value::Now,
        }
    }
}

impl Name {
    ghost use Rattle.std.specs.Prelude.{Result, Some};
    ghost use Rattle.xf_types.specs.declared.status.Reason.{Reason as ReadReason};
    ghost use Rattle.xf_grammar.specs.declared.row.Value.{Value as ReadValue};
    ghost use Rattle.xf_grammar.specs.Grammar.{name_word};

    fn word(&self) -> Keyword
        ensures { result ≡ name_word self.now }
    {
        match self {
            Name::Means(word, _) => *word,
            Name::Unsupported(word) => *word,
        }
    }

    // The name's value, whatever another word would be read as.
    fn value(&self) -> Result<Value, Reason>
        ensures { (other : Result ReadValue ReadReason) → result ≡ named_or (Some self.now) other }
    {
        match self {
            Name::Means(_, meaning) => Ok(meaning.value()),
            Name::Unsupported(_) => Err(Reason::Unsupported),
        }
    }
}

fn find_name<'a>(names: &'a [Name], word: &[u8]) -> Option<&'a Name>
    ensures { option_copied result ≡ name_in names.now word.now }
{
    for name in names {
        if is_word(name.word().text(), word) {
            return Some(name);
        }
    }
    None
}

pub(crate) fn addr_value(word: &[u8]) -> Result<Value, Reason>
    ensures { result ≡ some_addr (addr_of word.now) }
{
    match read_addr(word) {
        Ok(addr) => Ok(Value::Addr(addr)),
        Err(_) => Err(Reason::Address),
    }
}

fn prefix_value(word: &[u8]) -> Result<Value, Reason>
    ensures { result ≡ some_prefix (prefix_of word.now) }
{
    match read_prefix(word) {
        Ok(prefix) => Ok(Value::Prefix(prefix)),
        Err(_) => Err(Reason::Address),
    }
}

pub(crate) fn u8_value(low: u8, high: u8, word: &[u8]) -> Result<Value, Reason>
    ensures { result ≡ number_value value.U8 low high word.now }
{
    let n = read_number_in(u64::from(low), u64::from(high), word)?;
    Ok(Value::U8(n as u8))
}

pub(crate) fn u16_value(low: u16, high: u16, word: &[u8]) -> Result<Value, Reason>
    ensures { result ≡ number_value value.U16 low high word.now }
{
    let n = read_number_in(u64::from(low), u64::from(high), word)?;
    Ok(Value::U16(n as u16))
}

pub(crate) fn u32_value(low: u32, high: u32, word: &[u8]) -> Result<Value, Reason>
    ensures { result ≡ number_value value.U32 low high word.now }
{
    let n = read_number_in(u64::from(low), u64::from(high), word)?;
    Ok(Value::U32(n as u32))
}

pub(crate) fn u64_value(low: u64, high: u64, word: &[u8]) -> Result<Value, Reason>
    ensures { result ≡ number_value value.U64 low high word.now }
{
    let n = read_number_in(low, high, word)?;
    Ok(Value::U64(n))
}

/// A name's value.
pub(crate) fn name_value(names: Names, word: &[u8]) -> Result<Value, Reason>
    ensures { result ≡ named_or (name_in (names_of names) word.now) (Err Reason.Word) }
{
    match find_name(names_in(names), word) {
        Some(name) => name.value(),
        None => Err(Reason::Word),
    }
}

/// The value of a name of either list, or else a number of 8 bits.
pub(crate) fn name_or_u8(first: Names, second: Names, word: &[u8]) -> Result<Value, Reason>
    ensures { result ≡ named_or (name_in (names_of first) word.now)
        (named_or (name_in (names_of second) word.now) (number_value value.U8 0 255 word.now)) }
{
    if let Some(name) = find_name(names_in(first), word) {
        return name.value();
    }
    match find_name(names_in(second), word) {
        Some(name) => name.value(),
        None => u8_value(0, u8::MAX, word),
    }
}

/// A name's value, or else a number of 64 bits.
pub(crate) fn name_or_u64(names: Names, word: &[u8]) -> Result<Value, Reason>
    ensures { result ≡ named_or (name_in (names_of names) word.now) (number_value value.U64 0 (2 ^ 64 - 1) word.now) }
{
    match find_name(names_in(names), word) {
        Some(name) => name.value(),
        None => u64_value(0, u64::MAX, word),
    }
}

/// A prefix, or a name of a prefix of length 0.
pub(crate) fn name_or_prefix(word: &[u8]) -> Result<Value, Reason>
    ensures { result ≡ named_or (name_in (names_of names.Anys) word.now) (some_prefix (prefix_of word.now)) }
{
    match find_name(names_in(Names::Anys), word) {
        Some(name) => name.value(),
        None => prefix_value(word),
    }
}
