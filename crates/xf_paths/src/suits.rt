//! Which states suit a template (after RFC 4301, 5.1).
ghost use Rattle.std.specs.Prelude.{◌≡◌};
ghost use Rattle.xf_types.specs.Candidates as rule;

use crate::stage::Stage;
use xf_held::has_mark;
use xf_types::{Addr, Flow, Sa, SaSpec, Selector, same_addr};

/// Whether the address is zero, which of either family leaves it open.
fn is_zero(addr: &Addr) -> bool
    ensures { result ≡ rule.is_zero addr.now }
{
    matches!(addr, Addr::V4(0) | Addr::V6(0))
}

/// Whether the selector, where there is one, matches the flow.
fn matches_if_given(sel: &Option<Selector>, flow: &Flow) -> bool
    ensures { result ≡ rule.matches_if_given sel.now flow.now }
{
    match sel {
        None => true,
        Some(sel) => sel.matches(flow),
    }
}

impl Stage {
    ghost use Rattle.xf_paths.specs.Stage.{is_of_kind, joins, suits, is_candidate, is_preferred};

    /// Whether the state is of the kind that the template asks for.
    fn is_of_kind(&self, spec: &SaSpec) -> bool
        ensures { result ≡ is_of_kind self.now spec.now }
    {
        spec.reqid == self.template.reqid
            && spec.mode == self.template.mode
            && spec.proto == self.template.proto
            && spec.if_id == self.flow.if_id
    }

    /// Whether the state is of this kind and joins the addresses.
    fn joins(&self, spec: &SaSpec) -> bool
        ensures { result ≡ joins self.now spec.now }
    {
        let spi = self.template.spi;
        self.is_of_kind(spec)
            && same_addr(&spec.dst, &self.dst)
            && (spi == 0 || spi == spec.spi)
            && (same_addr(&spec.src, &self.src) || is_zero(&spec.src) || is_zero(&self.src))
    }

    /// Whether the state is what the template asks for.
    pub(crate) fn suits(&self, state: &Sa) -> bool
        ensures { result ≡ suits self.now state.now }
    {
        let spec = &state.spec;
        self.joins(spec)
            && has_mark(self.flow.mark, &spec.mark)
            && matches_if_given(&spec.sel, &self.flow)
            && !spec.wildrecv
    }

    /// Whether the flow may go through the state.
    pub(crate) fn is_candidate(&self, state: &Sa) -> bool
        ensures { result ≡ is_candidate self.now state.now }
    {
        self.suits(state) && !state.larval
    }

    /// Whether the state is a candidate, and living where there are living ones.
    pub(crate) fn is_preferred(&self, living: bool, state: &Sa) -> bool
        ensures { result ≡ is_preferred self.now living state.now }
    {
        self.is_candidate(state) && !(living && state.dying)
    }
}
