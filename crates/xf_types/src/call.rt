//! Calls, their replies, and the receipts that record both.
ghost use Rattle.std.specs.Prelude.{◌≡◌};
ghost use Rattle.xf_types.specs.Facts.{IsPacket};

use crate::{
    Addr, AllocSpec, Flow, Policies, Policy, PolicyFilter, PolicyKey, PolicySpec, Proto, Ptype, Sa,
    SaFilter, SaId, SaSpec, Sas, Thresholds,
};
use arrayvec::ArrayVec;
use std::marker::Model;

/// A packet that came in. Its sequence number has 32 bits and its length is in bytes; its source is not asked.
#[derive(Clone, Copy, PartialEq, Eq, Debug)]
pub struct Packet {
    pub src: Addr,
    pub dst: Addr,
    pub proto: Proto,
    pub spi: u32,
    pub seq: u64,
    pub len: u32,
    pub mark: u32,
    pub icv_ok: bool,
    pub ghost facts: { IsPacket seq },
}

/// One state of a path.
#[derive(Clone, Copy, PartialEq, Eq, Debug)]
pub struct Hop {
    pub sid: u64,
    pub proto: Proto,
    pub spi: u32,
    pub dst: Addr,
}

impl Default for Hop {
    fn default() -> Hop {
        Hop {
            sid: 0,
            proto: Proto::Esp,
            spi: 0,
            dst: Addr::V4(0),
        }
    }
}

/// The states that a flow goes through, in order.
#[derive(Clone, PartialEq, Eq, Debug, Drop)]
pub struct Path {
    pub items: ArrayVec<Hop, 6>,
}

impl Model for Path {
    ghost use Rattle.std.specs.Prelude.{List};
    ghost use Rattle.xf_types.specs.declared.call.Hop.{Hop};

    ghost Value = { List Hop };

    ghost view = { λ p. p.items.items };

    ghost inverse = { λ xs. record { items = record { items = xs } } };
}

impl Path {
    ghost use Rattle.std.specs.Prelude.{◌≡◌, []};

    /// The path of a flow that goes through no state.
    pub fn empty() -> Path
        ensures { result ≡ [] }
    {
        Path {
            items: ArrayVec::new(),
        }
    }

    pub fn as_slice(&self) -> &[Hop]
        ensures { result.now ≡ self.now }
    {
        self.items.as_slice()
    }
}

/// What the passing of time did.
#[derive(Clone, Copy, PartialEq, Eq, Debug)]
pub enum Event {
    PolicySoft(u32),
    PolicyExpired(u32),
    StateSoft(u64),
    StateExpired(u64),
}

/// Events in order.
#[derive(Debug, Drop)]
pub struct Events {
    pub items: Vec<Event>,
}

impl PartialEq for Events {
    ghost use lib.Pointwise.{pointwise};
    ghost use Rattle.std.specs.Cmp.Lexicographic.{lists_per};
    ghost use Rattle.xf_types.specs.contracts.call.EventPartialEq.TheImpl as event;
    ghost use Rattle.xf_types.specs.contracts.call.EventPartialEq.TheImpl.Laws.{laws-law};

    ghost eq = { pointwise event.eq-value.it };

    ghost laws = { lists_per laws-law };

    fn eq(&self, other: &Events) -> bool {
        self.items == other.items
    }
}

impl Model for Events {
    ghost use Rattle.std.specs.Prelude.{List};
    ghost use Rattle.xf_types.specs.declared.call.Event.{Event};

    ghost Value = { List Event };

    ghost view = { λ e. e.items.items };
}

impl Events {
    ghost use Rattle.std.specs.Prelude.{◌≡◌};

    /// A list of the events, which is taken over as it is.
    pub fn new(items: Vec<Event>) -> Events
        ensures { result ≡ items.items }
    {
        Events { items }
    }

    pub fn into_vec(self) -> Vec<Event>
        ensures { result.items ≡ self }
    {
        let Events { items } = self;
        items
    }

    pub fn as_slice(&self) -> &[Event]
        ensures { result.now ≡ self.now }
    {
        self.items.as_slice()
    }
}

/// Where a call stands in the input: its line, and part 0, or 1 to 6 for the outputs of a send.
#[derive(Clone, Copy, PartialEq, Eq, Debug)]
pub struct Place {
    pub line: u64,
    pub part: u32,
}

/// A call of the databases.
#[derive(PartialEq, Debug, Drop)]
pub enum Call {
    PolicyAdd(PolicySpec),
    PolicyUpdate(PolicySpec),
    PolicyDelete(PolicyKey),
    PolicyGet(PolicyKey),
    PolicyDeleteAll(PolicyFilter),
    PolicyList(PolicyFilter),
    PolicyFlush(Option<Ptype>),
    PolicyCount,
    PolicySet(Thresholds),
    StateAdd(SaSpec),
    StateUpdate(SaSpec),
    StateDelete(SaId),
    StateGet(SaId),
    StateDeleteAll(SaFilter),
    StateList(SaFilter),
    StateFlush(Option<Proto>),
    StateCount,
    AllocSpi(AllocSpec),
    Flow(Flow),
    TryFlow(Flow),
    Packet(Packet),
    Output { sid: u64, len: u32 },
    Tick(u64),
}

/// What a call answers.
#[derive(PartialEq, Debug, Drop)]
pub enum Reply {
    Done,
    DoneIndex(u32),
    DoneSid(u64),
    DoneSpi {
        spi: u32,
        sid: u64,
    },
    Removed(u32),
    PolicyShown(Policy),
    PolicyList(Policies),
    PolicyCount {
        inward: u32,
        outward: u32,
        forward: u32,
    },
    StateShown(Sa),
    StateList(Sas),
    StateCount(u32),
    FlowNone,
    FlowBlock(u32),
    FlowAllow {
        index: u32,
        path: Path,
    },
    Waiting(u32),
    Acquire(u32),
    Wanting {
        index: u32,
        template: u32,
    },
    Again(u32),
    Accepted {
        top: u64,
        soft: bool,
    },
    Zero,
    Old {
        top: u64,
    },
    Seen {
        top: u64,
    },
    Expired,
    Larval,
    BadIcv {
        soft: bool,
    },
    Sent {
        proto: Proto,
        spi: u32,
        seq: u64,
        soft: bool,
    },
    Stale,
    Overflow {
        soft: bool,
    },
    Ticked {
        now: u64,
        events: Events,
    },
    PolicyExists(u32),
    StateExists(u64),
    NoEntry,
    NoState,
    Invalid,
    Full {
        live: u32,
        waiting: u32,
    },
    NoSpi,
    NoMemory,
}

/// The record of one call in the history.
#[derive(PartialEq, Debug, Drop)]
pub struct Receipt {
    pub number: u64,
    pub worker: u32,
    pub at: Place,
    pub call: Call,
    pub reply: Reply,
}
