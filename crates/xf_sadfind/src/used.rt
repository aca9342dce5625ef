//! How a template is used.
ghost use Rattle.std.specs.Prelude.{◌≡◌, ◌≤◌, length};
ghost use Rattle.xf_types.specs.Resolution as rule;
ghost use Rattle.xf_sadfind.specs.Tried.{ends_used};

use xf_types::{Addr, Level, Mode, Policy, Template};

/// The addresses at which a template is used.
#[derive(Clone, Copy, Debug, PartialEq, Eq)]
pub(crate) struct Ends {
    pub(crate) src: Addr,
    pub(crate) dst: Addr,
}

/// Whether a template of this mode leaves the addresses that the flow has come to.
fn uses_own_addresses(mode: Mode) -> bool
    ensures { result ≡ rule.uses_own_addresses mode }
{
    matches!(mode, Mode::Tunnel | Mode::Beet)
}

/// Whether a template of this level is skipped where it has no state.
pub(crate) fn is_optional(level: Level) -> bool
    ensures { result ≡ rule.is_optional level }
{
    level == Level::Use
}

/// The templates of a policy: at most 6.
pub(crate) fn templates_of(policy: &Policy) -> &[Template]
    ensures templates { result.now ≡ policy.now.spec.templates }
    ensures few { length result.now ≤ 6 }
{
    policy.spec.templates.items.as_slice()
}

impl Ends {
    /// Where a template is used that the flow reaches at these addresses.
    pub(crate) fn used(template: &Template, src: Addr, dst: Addr) -> Ends
        ensures { result ≡ ends_used template.now src dst }
    {
        if uses_own_addresses(template.mode) {
            Ends {
                src: template.src,
                dst: template.dst,
            }
        } else {
            Ends { src, dst }
        }
    }
}
