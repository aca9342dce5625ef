//! What the lines of a large input ask for: the names of its policies and states, and its calls.
ghost use Rattle.std.specs.Prelude.{◌≡◌, ◌<◌, [], ◌∷◌};
ghost use Rattle.xf_batch.specs.GeneratedCalls as rule;

use crate::task::Job;
use arrayvec::ArrayVec;
use xf_types::{
    Action, Addr, Call, Dir, Flow, Level, Limits, Mark, Mode, Packet, PolicyKey, PolicySpec,
    Prefix, Proto, Ptype, SaId, SaSpec, Selector, Template, Templates,
};

const NO_MARK: Mark = Mark { value: 0, mask: 0 };

fn quad(a: u32, b: u32, c: u32, d: u32) -> Addr
    requires a { a < 256 }
    requires b { b < 256 }
    requires c { c < 256 }
    requires d { d < 256 }
    ensures { result ≡ rule.quad a b c d }
{
    Addr::V4(((a * 256 + b) * 256 + c) * 256 + d)
}

fn remote(worker: u32, i: u32) -> Addr
    requires worker { worker < 4 }
    requires i { i < 500 }
    ensures { result ≡ rule.remote worker i }
{
    quad(172, 16 + worker, i / 256, i % 256)
}

fn local(worker: u32) -> Addr
    requires { worker < 4 }
    ensures { result ≡ rule.local worker }
{
    quad(10, worker, 0, 1)
}

fn spi_of(worker: u32, i: u32) -> u32
    requires worker { worker < 4 }
    requires i { i < 500 }
    ensures { result ≡ rule.spi_of worker i }
{
    65536 * (worker + 1) + i
}

fn reqid_of(worker: u32, i: u32) -> u32
    requires worker { worker < 4 }
    requires i { i < 500 }
    ensures { result ≡ rule.reqid_of worker i }
{
    1000 * worker + i + 1
}

fn selector_of(worker: u32, i: u32) -> Selector
    requires worker { worker < 4 }
    requires i { i < 500 }
    ensures { result ≡ rule.selector_of worker i }
{
    Selector {
        src: Prefix::new(quad(10, worker, 0, 0), 16),
        dst: Prefix::new(remote(worker, i), 32),
        proto: 0,
        sport: None,
        dport: None,
    }
}

fn template_of(worker: u32, i: u32) -> Template
    requires worker { worker < 4 }
    requires i { i < 500 }
    ensures { result ≡ rule.template_of worker i }
{
    Template {
        src: Addr::V4(0),
        dst: Addr::V4(0),
        proto: Proto::Esp,
        spi: 0,
        mode: Mode::Transport,
        reqid: reqid_of(worker, i),
        level: Level::Required,
    }
}

fn templates_of(worker: u32, i: u32) -> Templates
    requires worker { worker < 4 }
    requires i { i < 500 }
    ensures { result ≡ rule.template_of worker i ∷ [] }
{
    let mut items: ArrayVec<Template, 6> = ArrayVec::new();
    items.push(template_of(worker, i));
    Templates { items }
}

fn policy_of(worker: u32, i: u32, value: u32) -> PolicySpec
    requires worker { worker < 4 }
    requires i { i < 500 }
    ensures { result ≡ rule.policy_of worker i value }
{
    PolicySpec {
        dir: Dir::Out,
        ptype: Ptype::Main,
        sel: selector_of(worker, i),
        mark: NO_MARK,
        if_id: 0,
        priority: value % 1000,
        action: Action::Allow,
        index: 0,
        limits: Limits::none(),
        templates: templates_of(worker, i),
    }
}

fn policy_key(worker: u32, i: u32) -> PolicyKey
    requires worker { worker < 4 }
    requires i { i < 500 }
    ensures { result ≡ rule.policy_key worker i }
{
    PolicyKey::Same {
        dir: Dir::Out,
        ptype: Ptype::Main,
        sel: selector_of(worker, i),
        mark: NO_MARK,
        if_id: 0,
    }
}

fn state_of(worker: u32, i: u32) -> SaSpec
    requires worker { worker < 4 }
    requires i { i < 500 }
    ensures { result ≡ rule.state_of worker i }
{
    SaSpec {
        src: local(worker),
        dst: remote(worker, i),
        proto: Proto::Esp,
        spi: spi_of(worker, i),
        mode: Mode::Transport,
        reqid: reqid_of(worker, i),
        seq: 0,
        mark: NO_MARK,
        if_id: 0,
        sel: None,
        window: 32,
        in_seq: 0,
        out_seq: 0,
        wildrecv: false,
        esn: false,
        limits: Limits::none(),
    }
}

fn state_id(worker: u32, i: u32) -> SaId
    requires worker { worker < 4 }
    requires i { i < 500 }
    ensures { result ≡ rule.state_id worker i }
{
    SaId {
        dst: remote(worker, i),
        proto: Proto::Esp,
        spi: spi_of(worker, i),
        mark: 0,
    }
}

fn flow_to(worker: u32, i: u32) -> Flow
    requires worker { worker < 4 }
    requires i { i < 500 }
    ensures { result ≡ rule.flow_to worker i }
{
    Flow {
        dir: Dir::Out,
        src: local(worker),
        dst: remote(worker, i),
        proto: 0,
        sport: 0,
        dport: 0,
        mark: 0,
        if_id: 0,
    }
}

fn packet_of(worker: u32, i: u32, seq: u32) -> Packet
    requires worker { worker < 4 }
    requires i { i < 500 }
    ensures { result ≡ rule.packet_of worker i seq }
{
    Packet {
        src: local(worker),
        dst: remote(worker, i),
        proto: Proto::Esp,
        spi: spi_of(worker, i),
        seq: u64::from(seq),
        len: 100,
        mark: 0,
        icv_ok: true,
    }
}

pub(crate) fn add_policy(worker: u32, i: u32, value: u32) -> Job
    requires worker { worker < 4 }
    requires i { i < 500 }
    ensures { result ≡ rule.add_policy worker i value }
{
    Job::One(Call::PolicyAdd(policy_of(worker, i, value)))
}

pub(crate) fn add_state(worker: u32, i: u32) -> Job
    requires worker { worker < 4 }
    requires i { i < 500 }
    ensures { result ≡ rule.add_state worker i }
{
    Job::One(Call::StateAdd(state_of(worker, i)))
}

/// A send to the destination that a value says.
pub(crate) fn send_to(worker: u32, value: u32) -> Job
    requires { worker < 4 }
    ensures { result ≡ rule.send_to worker value }
{
    Job::Send {
        flow: flow_to(worker, value % 500),
        len: 100,
    }
}

/// A packet of the state that a value says.
pub(crate) fn bring(worker: u32, value: u32, seq: u32) -> Job
    requires { worker < 4 }
    ensures { result ≡ rule.bring worker value seq }
{
    Job::One(Call::Packet(packet_of(worker, value % 500, seq)))
}

pub(crate) fn delete_policy(worker: u32, i: u32) -> Job
    requires worker { worker < 4 }
    requires i { i < 500 }
    ensures { result ≡ rule.delete_policy worker i }
{
    Job::One(Call::PolicyDelete(policy_key(worker, i)))
}

pub(crate) fn delete_state(worker: u32, i: u32) -> Job
    requires worker { worker < 4 }
    requires i { i < 500 }
    ensures { result ≡ rule.delete_state worker i }
{
    Job::One(Call::StateDelete(state_id(worker, i)))
}

pub(crate) fn look_up(worker: u32, i: u32) -> Job
    requires worker { worker < 4 }
    requires i { i < 500 }
    ensures { result ≡ rule.look_up worker i }
{
    Job::One(Call::Flow(flow_to(worker, i)))
}
