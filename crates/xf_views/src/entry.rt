//! What a draw records, and what is known of a slot.
ghost use Rattle.std.specs.Prelude.{List};

use std::collections::LinkedList;
use std::marker::Model;
use xf_types::{Call, Place, Reply, Sa};

/// A call with its place and its reply, before it has a number.
#[derive(Debug, Drop)]
pub struct Entry {
    pub at: Place,
    pub call: Call,
    pub reply: Reply,
}

/// A state's own part as a seat knows it. No value of it is made.
pub struct OwnSeen {
    pub accepted: LinkedList<u64>,
    pub sent: u64,
    pub packets: u64,
    pub bytes: u64,
    pub first: Option<u64>,
}

impl Model for OwnSeen {
    ghost use Rattle.xf_types.specs.Machine.{Own};

    ghost Value = { Own };

    ghost view = { λ o. record { accepted = o.accepted; sent = o.sent; packets = o.packets; bytes = o.bytes; first_use = o.first } };
}

/// What is known of a slot whose turn is held: the record that is listed there, the time, and the state's own part. No value
/// of it is made.
pub struct Listed {
    pub state: Sa,
    pub time: u64,
    pub own: OwnSeen,
}
