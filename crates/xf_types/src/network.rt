//! Addresses, prefixes, selectors and flows.
ghost use Rattle.std.specs.Prelude.{◌≡◌, ◌≤◌, ◌*◌, ◌/◌, ◌^◌, ◌==◌, IsTrue, ◌↔◌};
ghost use Rattle.xf_types.specs.Address.{width_of};
ghost use Rattle.xf_types.specs.Facts.{IsPrefix, IsSelector};

use std::default::Default;

/// An IP address.
#[derive(Clone, Copy, PartialEq, Eq, Hash, Debug)]
pub enum Addr {
    V4(u32),
    V6(u128),
}

/// The addresses whose first `len` bits are those of `addr`.
#[derive(Clone, Copy, PartialEq, Eq, Debug)]
pub struct Prefix {
    pub addr: Addr,
    pub len: u8,
    pub ghost facts: { IsPrefix addr len },
}

/// What a policy or a state asks of a flow. A port that is absent matches all.
#[derive(Clone, Copy, PartialEq, Eq, Debug)]
pub struct Selector {
    pub src: Prefix,
    pub dst: Prefix,
    pub proto: u8,
    pub sport: Option<u16>,
    pub dport: Option<u16>,
    pub ghost facts: { IsSelector src.addr dst.addr },
}

/// A flow or a packet has the mark where its own mark, masked, is `value`.
#[derive(Clone, Copy, PartialEq, Eq, Debug)]
pub struct Mark {
    pub value: u32,
    pub mask: u32,
}

/// Where a flow goes.
#[derive(Clone, Copy, PartialEq, Eq, Hash, Debug)]
pub enum Dir {
    In,
    Out,
    Fwd,
}

/// The kind of a policy: those of kind `Sub` are asked before those of kind `Main`.
#[derive(Clone, Copy, PartialEq, Eq, Debug)]
pub enum Ptype {
    Main,
    Sub,
}

/// An IPsec protocol.
#[derive(Clone, Copy, PartialEq, Eq, Default, Debug)]
pub enum Proto {
    #[default]
    Esp,
    Ah,
    Comp,
}

/// What a policy is asked for.
#[derive(Clone, Copy, PartialEq, Eq, Hash, Debug)]
pub struct Flow {
    pub dir: Dir,
    pub src: Addr,
    pub dst: Addr,
    pub proto: u8,
    pub sport: u16,
    pub dport: u16,
    pub mark: u32,
    pub if_id: u32,
}

impl Default for Addr {
    fn default() -> Addr {
        Addr::V4(0)
    }
}

/// The number with its last `rest` bits cleared.
fn keep_first(number: u128, rest: u8) -> u128
    requires { rest ≤ 128 }
    ensures { result ≡ number / 2 ^ rest * 2 ^ rest }
{
    if rest == 128 {
        0
    } else {
        number >> rest << rest
    }
}

/// Whether the two agree but for their last `rest` bits.
fn same_first(a: u128, b: u128, rest: u8) -> bool
    requires { rest ≤ 128 }
    ensures { result ≡ (a / 2 ^ rest == b / 2 ^ rest) }
{
    rest == 128 || a >> rest == b >> rest
}

impl Addr {
    ghost use Rattle.xf_types.specs.Address.{cut};

    /// The address with its first `len` bits, and zeros after these.
    pub fn cut(self, len: u8) -> Addr
        requires { len ≤ width_of self }
        ensures { result ≡ cut self len }
    {
        match self {
            Addr::V4(number) => Addr::V4(keep_first(u128::from(number), 32 - len) as u32),
            Addr::V6(number) => Addr::V6(keep_first(number, 128 - len)),
        }
    }
}

impl Prefix {
    ghost use Rattle.xf_types.specs.Prefixes.{prefix_at};
    ghost use Rattle.xf_types.specs.Selection.{IsInPrefix, in_prefix};

    /// The prefix of this length that holds `addr`: the bits past `len` are cleared.
    pub fn new(addr: Addr, len: u8) -> Prefix
        requires { len ≤ width_of addr }
        ensures { result ≡ prefix_at addr len }
    {
        Prefix {
            addr: addr.cut(len),
            len,
        }
    }

    /// Whether the address is in this prefix (RFC 4291, 2.3).
    pub fn holds(&self, addr: &Addr) -> bool
        ensures test { result ≡ in_prefix addr.now self.now }
        ensures fact { IsTrue result ↔ IsInPrefix addr.now self.now }
    {
        match (self.addr, *addr) {
            (Addr::V4(own), Addr::V4(other)) => {
                same_first(u128::from(own), u128::from(other), 32 - self.len)
            }
            (Addr::V6(own), Addr::V6(other)) => same_first(own, other, 128 - self.len),
            _ => false,
        }
    }
}

impl Selector {
    ghost use Rattle.xf_types.specs.Selection.{Matches, matches};

    /// Whether the flow has what the selector asks (RFC 4301, 4.4.1.1).
    pub fn matches(&self, flow: &Flow) -> bool
        ensures test { result ≡ matches self.now flow.now }
        ensures fact { IsTrue result ↔ Matches self.now flow.now }
    {
        self.src.holds(&flow.src)
            && self.dst.holds(&flow.dst)
            && (self.proto == 0 || self.proto == flow.proto)
            && self.sport.is_none_or(|port| port == flow.sport)
            && self.dport.is_none_or(|port| port == flow.dport)
    }
}

impl Dir {
    ghost use Rattle.xf_types.specs.Same.{dir_number};

    /// What an index leaves when it is divided by 8.
    pub fn number(self) -> u32
        ensures { result ≡ dir_number self }
    {
        match self {
            Dir::In => 0,
            Dir::Out => 1,
            Dir::Fwd => 2,
        }
    }
}
