//! Copies of calls, replies and receipts.
ghost use Rattle.std.specs.Prelude.{◌≡◌, IfOk};

use crate::{Call, Events, NoMemory, Path, Policies, Receipt, Reply, Sas};

impl Call {
    /// The same call, which takes no memory.
    pub fn copy(&self) -> Call
        ensures { result ≡ self.now }
    {
        match self {
            Call::PolicyAdd(spec) => Call::PolicyAdd(spec.copy()),
            Call::PolicyUpdate(spec) => Call::PolicyUpdate(spec.copy()),
            Call::PolicyDelete(key) => Call::PolicyDelete(*key),
            Call::PolicyGet(key) => Call::PolicyGet(*key),
            Call::PolicyDeleteAll(filter) => Call::PolicyDeleteAll(*filter),
            Call::PolicyList(filter) => Call::PolicyList(*filter),
            Call::PolicyFlush(ptype) => Call::PolicyFlush(*ptype),
            Call::PolicyCount => Call::PolicyCount,
            Call::PolicySet(thresholds) => Call::PolicySet(*thresholds),
            Call::StateAdd(spec) => Call::StateAdd(*spec),
            Call::StateUpdate(spec) => Call::StateUpdate(*spec),
            Call::StateDelete(id) => Call::StateDelete(*id),
            Call::StateGet(id) => Call::StateGet(*id),
            Call::StateDeleteAll(filter) => Call::StateDeleteAll(*filter),
            Call::StateList(filter) => Call::StateList(*filter),
            Call::StateFlush(proto) => Call::StateFlush(*proto),
            Call::StateCount => Call::StateCount,
            Call::AllocSpi(spec) => Call::AllocSpi(*spec),
            Call::Flow(flow) => Call::Flow(*flow),
            Call::TryFlow(flow) => Call::TryFlow(*flow),
            Call::Packet(packet) => Call::Packet(*packet),
            Call::Output { sid, len } => Call::Output {
                sid: *sid,
                len: *len,
            },
            Call::Tick(now) => Call::Tick(*now),
        }
    }
}

impl Path {
    /// The same path, which takes no memory.
    pub fn copy(&self) -> Path
        ensures { result ≡ self.now }
    {
        self.clone().unwrap()
    }
}

impl Policies {
    /// The same policies.
    pub fn copy(&self) -> Result<Policies, NoMemory>
        ensures { IfOk result (λ copy. copy ≡ self.now) }
    {
        match self.items.clone() {
            Ok(items) => Ok(Policies::new(items)),
            Err(_) => Err(NoMemory),
        }
    }
}

impl Sas {
    /// The same states.
    pub fn copy(&self) -> Result<Sas, NoMemory>
        ensures { IfOk result (λ copy. copy ≡ self.now) }
    {
        match self.items.clone() {
            Ok(items) => Ok(Sas::new(items)),
            Err(_) => Err(NoMemory),
        }
    }
}

impl Events {
    /// The same events.
    pub fn copy(&self) -> Result<Events, NoMemory>
        ensures { IfOk result (λ copy. copy ≡ self.now) }
    {
        match self.items.clone() {
            Ok(items) => Ok(Events::new(items)),
            Err(_) => Err(NoMemory),
        }
    }
}

impl Reply {
    /// The same reply. It takes memory for a list of records or events alone.
    pub fn copy(&self) -> Result<Reply, NoMemory>
        ensures { IfOk result (λ copy. copy ≡ self.now) }
    {
        Ok(match self {
            Reply::Done => Reply::Done,
            Reply::DoneIndex(index) => Reply::DoneIndex(*index),
            Reply::DoneSid(sid) => Reply::DoneSid(*sid),
            Reply::DoneSpi { spi, sid } => Reply::DoneSpi {
                spi: *spi,
                sid: *sid,
            },
            Reply::Removed(count) => Reply::Removed(*count),
            Reply::PolicyShown(policy) => Reply::PolicyShown(policy.copy()),
            Reply::PolicyList(policies) => Reply::PolicyList(policies.copy()?),
            Reply::PolicyCount {
                inward,
                outward,
                forward,
            } => Reply::PolicyCount {
                inward: *inward,
                outward: *outward,
                forward: *forward,
            },
            Reply::StateShown(state) => Reply::StateShown(*state),
            Reply::StateList(states) => Reply::StateList(states.copy()?),
            Reply::StateCount(count) => Reply::StateCount(*count),
            Reply::FlowNone => Reply::FlowNone,
            Reply::FlowBlock(index) => Reply::FlowBlock(*index),
            Reply::FlowAllow { index, path } => Reply::FlowAllow {
                index: *index,
                path: path.copy(),
            },
            Reply::Waiting(seq) => Reply::Waiting(*seq),
            Reply::Acquire(seq) => Reply::Acquire(*seq),
            Reply::Wanting { index, template } => Reply::Wanting {
                index: *index,
                template: *template,
            },
            Reply::Again(tries) => Reply::Again(*tries),
            Reply::Accepted { top, soft } => Reply::Accepted {
                top: *top,
                soft: *soft,
            },
            Reply::Zero => Reply::Zero,
            Reply::Old { top } => Reply::Old { top: *top },
            Reply::Seen { top } => Reply::Seen { top: *top },
            Reply::Expired => Reply::Expired,
            Reply::Larval => Reply::Larval,
            Reply::BadIcv { soft } => Reply::BadIcv { soft: *soft },
            Reply::Sent {
                proto,
                spi,
                seq,
                soft,
            } => Reply::Sent {
                proto: *proto,
                spi: *spi,
                seq: *seq,
                soft: *soft,
            },
            Reply::Stale => Reply::Stale,
            Reply::Overflow { soft } => Reply::Overflow { soft: *soft },
            Reply::Ticked { now, events } => Reply::Ticked {
                now: *now,
                events: events.copy()?,
            },
            Reply::PolicyExists(index) => Reply::PolicyExists(*index),
            Reply::StateExists(sid) => Reply::StateExists(*sid),
            Reply::NoEntry => Reply::NoEntry,
            Reply::NoState => Reply::NoState,
            Reply::Invalid => Reply::Invalid,
            Reply::Full { live, waiting } => Reply::Full {
                live: *live,
                waiting: *waiting,
            },
            Reply::NoSpi => Reply::NoSpi,
            Reply::NoMemory => Reply::NoMemory,
        })
    }
}

impl Receipt {
    /// The same receipt. It takes memory as its reply does.
    pub fn copy(&self) -> Result<Receipt, NoMemory>
        ensures { IfOk result (λ copy. copy ≡ self.now) }
    {
        Ok(Receipt {
            number: self.number,
            worker: self.worker,
            at: self.at,
            call: self.call.copy(),
            reply: self.reply.copy()?,
        })
    }
}
