//! The records of policies.
ghost use Rattle.std.specs.Prelude.{◌≡◌, ◌++◌, OnOk};
ghost use Rattle.std.specs.List.{flat_map};
ghost use Rattle.xf_print.specs.Records.{template_text, policy_name_text, policy_rank_text, policy_text};

use crate::limits::put_limits;
use crate::put::{put, put_flag, put_number};
use crate::selector::{put_identity, put_mark, put_selector};
use crate::words::{action_word, dir_word, level_word, mode_word, ptype_word};
use xf_types::{NoMemory, Policy, Template};

#[tactic(auto, unfolding(crate::specs::Records::template_text))]
fn put_template(out: &mut Vec<u8>, template: &Template) -> Result<(), NoMemory>
    ensures { OnOk result (out.new.items ≡ out.old.items ++ template_text template.now) }
{
    put(out, b" tmpl")?;
    put_identity(
        out,
        &template.src,
        &template.dst,
        template.proto,
        template.spi,
    )?;
    put(out, b" mode ")?;
    put(out, mode_word(template.mode))?;
    put_number(out, b" reqid ", u64::from(template.reqid))?;
    put(out, b" level ")?;
    put(out, level_word(template.level))
}

fn put_templates(out: &mut Vec<u8>, templates: &[Template]) -> Result<(), NoMemory>
    ensures { OnOk result (out.new.items ≡ out.old.items ++ flat_map template_text templates.now) }
{
    for template in templates {
        put_template(out, template)?;
    }
    Ok(())
}

#[tactic(auto, unfolding(crate::specs::Records::policy_name_text))]
fn put_name(out: &mut Vec<u8>, policy: &Policy) -> Result<(), NoMemory>
    ensures { OnOk result (out.new.items ≡ out.old.items ++ policy_name_text policy.now) }
{
    put_number(out, b"policy ", u64::from(policy.index))?;
    put(out, b" dir ")?;
    put(out, dir_word(policy.spec.dir))?;
    put(out, b" ptype ")?;
    put(out, ptype_word(policy.spec.ptype))
}

#[tactic(auto, unfolding(crate::specs::Records::policy_rank_text))]
fn put_rank(out: &mut Vec<u8>, policy: &Policy) -> Result<(), NoMemory>
    ensures { OnOk result (out.new.items ≡ out.old.items ++ policy_rank_text policy.now) }
{
    put_number(out, b" if_id ", u64::from(policy.spec.if_id))?;
    put_number(out, b" priority ", u64::from(policy.spec.priority))?;
    put(out, b" action ")?;
    put(out, action_word(policy.spec.action))?;
    put_number(out, b" added ", policy.added)
}

#[tactic(auto, unfolding(crate::specs::Records::policy_text))]
pub(crate) fn put_policy(out: &mut Vec<u8>, policy: &Policy) -> Result<(), NoMemory>
    ensures { OnOk result (out.new.items ≡ out.old.items ++ policy_text policy.now) }
{
    put_name(out, policy)?;
    put(out, b" ")?;
    put_selector(out, &policy.spec.sel)?;
    put_mark(out, policy.spec.mark)?;
    put_rank(out, policy)?;
    put_limits(out, &policy.spec.limits)?;
    put_templates(out, policy.spec.templates.as_slice())?;
    put_flag(out, b" soft", policy.soft)
}
