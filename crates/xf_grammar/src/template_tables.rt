//! The words that stand behind each `tmpl`.

use crate::keyword::Keyword;
use crate::row::{Arg, Args, Meaning, Name, Names, Row, Slot, Table};
use xf_types::Level;

const U32: u32 = u32::MAX;

// Whether a template without a state is skipped.
pub(crate) static LEVELS: [Name; 2] = [
    Name::Means(Keyword::Required, Meaning::Level(Level::Required)),
    Name::Means(Keyword::Use, Meaning::Level(Level::Use)),
];

// What a template has. One word follows another, so that those behind `tmpl` stay its own.
pub(crate) static TEMPLATE: [Row; 7] = [
    Row::Once(
        Keyword::Src,
        Args::One(Arg::Addr(Slot::Src)),
        Table::Template,
    ),
    Row::Once(
        Keyword::Dst,
        Args::One(Arg::Addr(Slot::Dst)),
        Table::Template,
    ),
    Row::Once(
        Keyword::Proto,
        Args::One(Arg::Name(Slot::Proto, Names::StateProtocols)),
        Table::Template,
    ),
    Row::Once(
        Keyword::Spi,
        Args::One(Arg::U32(Slot::Spi, 0, U32)),
        Table::Template,
    ),
    Row::Once(
        Keyword::Mode,
        Args::One(Arg::Name(Slot::Mode, Names::Modes)),
        Table::Template,
    ),
    Row::Once(
        Keyword::Reqid,
        Args::One(Arg::U32(Slot::Reqid, 0, U32)),
        Table::Template,
    ),
    Row::Once(
        Keyword::Level,
        Args::One(Arg::Name(Slot::Level, Names::Levels)),
        Table::Template,
    ),
];
