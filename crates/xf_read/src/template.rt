//! From the words behind each `tmpl` to templates.
ghost use Rattle.std.specs.Prelude.{◌≡◌, ◌≤◌, length};
ghost use Rattle.xf_read.specs.Templates as rule;

use crate::selector::{judge_family, zero_of};
use arrayvec::ArrayVec;
use xf_grammar::{
    Fields, Slot, addr_in_group, has_in_group, ipsec_in_group, level_in_group, mode_in_group,
    u32_in_group,
};
use xf_types::{Addr, Level, Mode, Proto, Reason, Template, Templates};

// The groups of the words behind each `tmpl`, which stands up to six times in a line.
pub(crate) static BEHIND_TMPL: [u32; 6] = [1, 2, 3, 4, 5, 6];

/// An address of a template, or the zero address of the other's family, or of the policy's.
fn template_end(given: Option<Addr>, other: Option<Addr>, policy: &Addr) -> Addr
    ensures { result ≡ rule.template_end given other policy.now }
{
    given.unwrap_or(zero_of(&other.unwrap_or(*policy)))
}

/// A template of this protocol.
fn template_with(proto: Proto, fields: &Fields, group: u32, policy: &Addr) -> Template
    ensures { result ≡ rule.template_with proto group policy.now fields.now }
{
    let src = addr_in_group(fields, group, Slot::Src);
    let dst = addr_in_group(fields, group, Slot::Dst);
    Template {
        src: template_end(src, dst, policy),
        dst: template_end(dst, src, policy),
        proto,
        spi: u32_in_group(fields, group, Slot::Spi).unwrap_or(0),
        mode: mode_in_group(fields, group).unwrap_or(Mode::Transport),
        reqid: u32_in_group(fields, group, Slot::Reqid).unwrap_or(0),
        level: level_in_group(fields, group).unwrap_or(Level::Required),
    }
}

#[tactic(auto, unfolding(crate::specs::Templates::template_of))]
fn read_template(fields: &Fields, group: u32, policy: &Addr) -> Result<Template, Reason>
    ensures { result ≡ rule.template_of group policy.now fields.now }
{
    let proto = ipsec_in_group(fields, group).ok_or(Reason::Missing)?;
    Ok(template_with(proto, fields, group, policy))
}

/// The templates of those of the groups that `tmpl` began.
#[tactic(auto, using(crate::proofs::TemplateLaws::joined_next))]
fn templates_among(fields: &Fields, groups: &[u32], policy: &Addr) -> Result<Templates, Reason>
    requires { length groups.now ≤ 6 }
    ensures { result ≡ rule.templates_among groups.now policy.now fields.now }
{
    let mut items: ArrayVec<Template, 6> = ArrayVec::new();
    for group in groups {
        if has_in_group(fields, *group, Slot::Tmpl) {
            items.push(read_template(fields, *group, policy)?);
        }
    }
    Ok(Templates { items })
}

/// A line's templates, for a policy of this address's family.
pub(crate) fn read_templates(fields: &Fields, policy: &Addr) -> Result<Templates, Reason>
    ensures { result ≡ rule.templates_of policy.now fields.now }
{
    templates_among(fields, &BEHIND_TMPL, policy)
}

/// Whether the two addresses of each template have one family.
pub(crate) fn judge_templates(templates: &[Template]) -> Result<(), Reason>
    ensures { result ≡ rule.judged_templates templates.now }
{
    for template in templates {
        judge_family(&template.src, &template.dst)?;
    }
    Ok(())
}
