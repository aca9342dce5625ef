//! Tests of equality, as the definitions write them.
ghost use Rattle.std.specs.Prelude.{◌≡◌, ◌==◌, IsTrue, ◌↔◌};
ghost use Rattle.xf_types.specs.Same as test;
ghost use Rattle.xf_types.specs.PolicyList as list;

use crate::{
    Action, Addr, Dir, Mark, Policy, PolicyFilter, PolicyKey, PolicySpec, Prefix, Ptype, Reply,
    Selector,
};

pub fn same_addr(a: &Addr, b: &Addr) -> bool
    ensures { result ≡ test.same_addr a.now b.now }
{
    *a == *b
}

pub fn same_prefix(a: &Prefix, b: &Prefix) -> bool
    ensures { result ≡ test.same_prefix a.now b.now }
{
    *a == *b
}

pub fn same_port(a: Option<u16>, b: Option<u16>) -> bool
    ensures { result ≡ test.same_port a b }
{
    match (a, b) {
        (None, None) => true,
        (Some(x), Some(y)) => x == y,
        _ => false,
    }
}

pub fn same_mark(a: &Mark, b: &Mark) -> bool
    ensures { result ≡ test.same_mark a.now b.now }
{
    *a == *b
}

pub fn same_selector(a: &Selector, b: &Selector) -> bool
    ensures { result ≡ test.same_selector a.now b.now }
{
    same_prefix(&a.src, &b.src)
        && same_prefix(&a.dst, &b.dst)
        && a.proto == b.proto
        && same_port(a.sport, b.sport)
        && same_port(a.dport, b.dport)
}

/// Whether two policies are the same: equal in direction, kind, interface, selector and mark.
pub fn same_policy(a: &PolicySpec, b: &PolicySpec) -> bool
    ensures test { result ≡ list.is_same a.now b.now }
    ensures fact { IsTrue result ↔ list.AreSame a.now b.now }
{
    a.dir == b.dir
        && a.ptype == b.ptype
        && a.if_id == b.if_id
        && same_selector(&a.sel, &b.sel)
        && same_mark(&a.mark, &b.mark)
}

/// Whether two replies are equal, with all that they show.
pub fn same_reply(a: &Reply, b: &Reply) -> bool
    ensures { IsTrue result ↔ (a.now ≡ b.now) }
{
    *a == *b
}

impl PolicyKey {
    /// Whether the key names this policy.
    pub fn names(&self, policy: &Policy) -> bool
        ensures { result ≡ list.has_key self.now policy.now }
    {
        match self {
            PolicyKey::Index { dir: _, index } => policy.index == *index,
            PolicyKey::Same {
                dir,
                ptype,
                sel,
                mark,
                if_id,
            } => {
                *dir == policy.spec.dir
                    && *ptype == policy.spec.ptype
                    && *if_id == policy.spec.if_id
                    && same_selector(sel, &policy.spec.sel)
                    && same_mark(mark, &policy.spec.mark)
            }
        }
    }
}

fn meets_prefix(wanted: &Option<Prefix>, prefix: &Prefix) -> bool
    ensures { result ≡ test.meets_one test.same_prefix wanted.now prefix.now }
{
    match wanted {
        None => true,
        Some(wanted) => same_prefix(wanted, prefix),
    }
}

fn meets_number(wanted: Option<u32>, number: u32) -> bool
    ensures { result ≡ test.meets_one ◌==◌ wanted number }
{
    match wanted {
        None => true,
        Some(wanted) => wanted == number,
    }
}

fn meets_port(wanted: Option<u16>, port: Option<u16>) -> bool
    ensures { result ≡ test.meets_port wanted port }
{
    match wanted {
        None => true,
        Some(wanted) => same_port(Some(wanted), port),
    }
}

fn meets_dir(wanted: Option<Dir>, dir: Dir) -> bool
    ensures { result ≡ test.meets_one test.same_dir wanted dir }
{
    match wanted {
        None => true,
        Some(wanted) => wanted == dir,
    }
}

pub fn meets_ptype(wanted: Option<Ptype>, ptype: Ptype) -> bool
    ensures { result ≡ test.meets_one test.same_ptype wanted ptype }
{
    match wanted {
        None => true,
        Some(wanted) => wanted == ptype,
    }
}

fn meets_action(wanted: Option<Action>, action: Action) -> bool
    ensures { result ≡ test.meets_one test.same_action wanted action }
{
    match wanted {
        None => true,
        Some(wanted) => wanted == action,
    }
}

impl PolicyFilter {
    fn admits_selector(&self, sel: &Selector) -> bool
        ensures { result ≡ list.meets_selector self.now sel.now }
    {
        meets_prefix(&self.src, &sel.src)
            && meets_prefix(&self.dst, &sel.dst)
            && meets_number(self.proto.map(u32::from), u32::from(sel.proto))
            && meets_port(self.sport, sel.sport)
            && meets_port(self.dport, sel.dport)
    }

    fn admits_rank(&self, policy: &Policy) -> bool
        ensures { result ≡ list.meets_rank self.now policy.now }
    {
        meets_dir(self.dir, policy.spec.dir)
            && meets_ptype(self.ptype, policy.spec.ptype)
            && meets_action(self.action, policy.spec.action)
            && meets_number(self.priority, policy.spec.priority)
            && meets_number(self.index, policy.index)
    }

    /// Whether the policy meets each condition that is given.
    pub fn admits(&self, policy: &Policy) -> bool
        ensures { result ≡ list.policy_meets self.now policy.now }
    {
        self.admits_rank(policy) && self.admits_selector(&policy.spec.sel)
    }
}

impl Policy {
    ghost use Rattle.xf_types.specs.PolicyList as list;

    /// Whether the policy is asked after the other one.
    pub fn comes_after(&self, other: &Policy) -> bool
        ensures { result ≡ list.comes_after self.now other.now }
    {
        self.spec.priority > other.spec.priority
            || self.spec.priority == other.spec.priority && self.number > other.number
    }

    /// Whether the policy applies to the flow, asked as one of this kind.
    pub fn applies(&self, ptype: crate::Ptype, flow: &crate::Flow) -> bool
        ensures { result ≡ list.applies ptype flow.now self.now }
    {
        self.spec.dir == flow.dir
            && self.spec.ptype == ptype
            && self.spec.if_id == flow.if_id
            && self.spec.sel.matches(flow)
            && (flow.mark & self.spec.mark.mask) == self.spec.mark.value
    }
}
