//! The records of states.
ghost use Rattle.std.specs.Prelude.{◌≡◌, ◌++◌, OnOk};
ghost use Rattle.xf_print.specs.Records.{state_name_text, state_use_text, state_window_text, state_flags_text, state_selector_text, state_text};

use crate::limits::put_limits;
use crate::put::{put, put_flag, put_number, put_two};
use crate::selector::{put_identity, put_mark, put_selector};
use crate::words::mode_word;
use xf_types::{NoMemory, Sa, SaSpec, Selector};

#[tactic(auto, unfolding(crate::specs::Records::state_name_text))]
fn put_name(out: &mut Vec<u8>, state: &Sa) -> Result<(), NoMemory>
    ensures { OnOk result (out.new.items ≡ out.old.items ++ state_name_text state.now) }
{
    put_number(out, b"state ", state.sid)?;
    put_identity(
        out,
        &state.spec.src,
        &state.spec.dst,
        state.spec.proto,
        state.spec.spi,
    )
}

#[tactic(auto, unfolding(crate::specs::Records::state_use_text))]
fn put_use(out: &mut Vec<u8>, spec: &SaSpec) -> Result<(), NoMemory>
    ensures { OnOk result (out.new.items ≡ out.old.items ++ state_use_text spec.now) }
{
    put_number(out, b" reqid ", u64::from(spec.reqid))?;
    put(out, b" mode ")?;
    put(out, mode_word(spec.mode))?;
    put_number(out, b" seq ", u64::from(spec.seq))?;
    put_mark(out, spec.mark)?;
    put_number(out, b" if_id ", u64::from(spec.if_id))
}

#[tactic(auto, unfolding(crate::specs::Records::state_window_text))]
fn put_window(out: &mut Vec<u8>, state: &Sa) -> Result<(), NoMemory>
    ensures { OnOk result (out.new.items ≡ out.old.items ++ state_window_text state.now) }
{
    put_two(
        out,
        b" replay-window ",
        u64::from(state.spec.window),
        b" added ",
        state.added,
    )
}

#[tactic(auto, unfolding(crate::specs::Records::state_flags_text))]
fn put_flags(out: &mut Vec<u8>, spec: &SaSpec) -> Result<(), NoMemory>
    ensures { OnOk result (out.new.items ≡ out.old.items ++ state_flags_text spec.now) }
{
    put_flag(out, b" wildrecv", spec.wildrecv)?;
    put_flag(out, b" esn", spec.esn)
}

#[tactic(auto, unfolding(crate::specs::Records::state_selector_text))]
fn put_own_selector(out: &mut Vec<u8>, sel: &Option<Selector>) -> Result<(), NoMemory>
    ensures { OnOk result (out.new.items ≡ out.old.items ++ state_selector_text sel.now) }
{
    match sel {
        None => Ok(()),
        Some(sel) => {
            put(out, b" sel ")?;
            put_selector(out, sel)
        }
    }
}

#[tactic(auto, unfolding(crate::specs::Records::state_text))]
pub(crate) fn put_state(out: &mut Vec<u8>, state: &Sa) -> Result<(), NoMemory>
    ensures { OnOk result (out.new.items ≡ out.old.items ++ state_text state.now) }
{
    put_name(out, state)?;
    put_use(out, &state.spec)?;
    put_window(out, state)?;
    put_flags(out, &state.spec)?;
    put_own_selector(out, &state.spec.sel)?;
    put_limits(out, &state.spec.limits)?;
    put_flag(out, b" larval", state.larval)?;
    put_flag(out, b" dying", state.dying)
}
