//! A template as a flow uses it.
ghost use Rattle.std.specs.Prelude.{◌≡◌};
ghost use Rattle.xf_types.specs.Resolution as rule;

use xf_types::{Addr, Flow, Mode, Template};

/// A template, the flow that it is for, and the addresses at which it is used.
#[derive(Clone, Copy, Debug)]
pub(crate) struct Stage {
    pub(crate) template: Template,
    pub(crate) flow: Flow,
    pub(crate) src: Addr,
    pub(crate) dst: Addr,
}

/// Whether a template of this mode leaves the addresses that the flow has come to.
fn uses_own_addresses(mode: Mode) -> bool
    ensures { result ≡ rule.uses_own_addresses mode }
{
    matches!(mode, Mode::Tunnel | Mode::Beet)
}

impl Stage {
    ghost use Rattle.xf_paths.specs.Stage.{stage_at};

    /// The template where the flow has come to these addresses.
    pub(crate) fn new(template: &Template, flow: &Flow, src: Addr, dst: Addr) -> Stage
        ensures { result ≡ stage_at template.now flow.now src dst }
    {
        let (src, dst) = if uses_own_addresses(template.mode) {
            (template.src, template.dst)
        } else {
            (src, dst)
        };
        Stage {
            template: *template,
            flow: *flow,
            src,
            dst,
        }
    }
}
