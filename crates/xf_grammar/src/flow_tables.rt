//! The words that lines of flows, sends, ticks and workers may have.

use crate::keyword::Keyword;
use crate::row::{Arg, Args, Meaning, Name, Names, Row, Slot, Table};

const U32: u32 = u32::MAX;

// The time that the clock tells.
pub(crate) static TIMES: [Name; 1] = [Name::Means(Keyword::Now, Meaning::Now)];

// What a flow has: its direction stands in the head.
pub(crate) static FLOW: [Row; 9] = [
    Row::Once(Keyword::Src, Args::One(Arg::Addr(Slot::Src)), Table::None),
    Row::Once(Keyword::Dst, Args::One(Arg::Addr(Slot::Dst)), Table::None),
    Row::Once(
        Keyword::Proto,
        Args::One(Arg::NameOrU8(Slot::Proto, Names::Protocols, Names::None)),
        Table::None,
    ),
    Row::Once(
        Keyword::Sport,
        Args::One(Arg::U16(Slot::SourcePort, 0, 65535)),
        Table::None,
    ),
    Row::Once(
        Keyword::Dport,
        Args::One(Arg::U16(Slot::DestPort, 0, 65535)),
        Table::None,
    ),
    Row::Once(
        Keyword::Type,
        Args::One(Arg::U16(Slot::IcmpType, 0, 255)),
        Table::None,
    ),
    Row::Once(
        Keyword::Code,
        Args::One(Arg::U16(Slot::IcmpCode, 0, 255)),
        Table::None,
    ),
    Row::Once(
        Keyword::Mark,
        Args::One(Arg::U32(Slot::Mark, 0, U32)),
        Table::None,
    ),
    Row::Once(
        Keyword::IfId,
        Args::One(Arg::U32(Slot::IfId, 0, U32)),
        Table::None,
    ),
];

// How many bytes each packet has that is sent.
pub(crate) static LENGTH: [Row; 1] = [Row::Once(
    Keyword::Len,
    Args::One(Arg::U32(Slot::Len, 0, U32)),
    Table::None,
)];

// What stands directly after `tick`.
pub(crate) static TICK: Args = Args::One(Arg::NameOrU64(Slot::Time, Names::Times));

// What stands directly after `worker`.
pub(crate) static WORKER: Args = Args::One(Arg::U32(Slot::Worker, 0, 15));

pub(crate) static FLOW_TABLES: [Table; 1] = [Table::Flow];

pub(crate) static SEND_TABLES: [Table; 2] = [Table::Flow, Table::Length];
