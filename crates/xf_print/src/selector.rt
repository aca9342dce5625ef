//! Selectors, marks, and what names a state.
ghost use Rattle.std.specs.Prelude.{◌≡◌, ◌++◌, OnOk};
ghost use Rattle.xf_addr.specs.Prefixes.{prefix_text};
ghost use Rattle.xf_print.specs.Selectors.{selector_text, mark_text, identity_text};

use crate::put::{put, put_addr, put_given, put_hex, put_number};
use crate::words::proto_word;
use xf_addr::write_prefix;
use xf_types::{Addr, Mark, NoMemory, Prefix, Proto, Selector};

fn put_prefix(out: &mut Vec<u8>, word: &[u8], prefix: &Prefix) -> Result<(), NoMemory>
    ensures { OnOk result (out.new.items ≡ out.old.items ++ word.now ++ prefix_text prefix.now) }
{
    put(out, word)?;
    write_prefix(out, prefix)
}

#[tactic(auto, unfolding(crate::specs::Selectors::selector_text))]
pub(crate) fn put_selector(out: &mut Vec<u8>, sel: &Selector) -> Result<(), NoMemory>
    ensures { OnOk result (out.new.items ≡ out.old.items ++ selector_text sel.now) }
{
    put_prefix(out, b"src ", &sel.src)?;
    put_prefix(out, b" dst ", &sel.dst)?;
    put_number(out, b" proto ", u64::from(sel.proto))?;
    put_given(out, b" sport ", sel.sport.map(u64::from))?;
    put_given(out, b" dport ", sel.dport.map(u64::from))
}

#[tactic(auto, unfolding(crate::specs::Selectors::mark_text))]
pub(crate) fn put_mark(out: &mut Vec<u8>, mark: Mark) -> Result<(), NoMemory>
    ensures { OnOk result (out.new.items ≡ out.old.items ++ mark_text mark) }
{
    put_hex(out, b" mark ", mark.value)?;
    put_hex(out, b" mask ", mark.mask)
}

#[tactic(auto, unfolding(crate::specs::Selectors::identity_text))]
pub(crate) fn put_identity(
    out: &mut Vec<u8>,
    src: &Addr,
    dst: &Addr,
    proto: Proto,
    spi: u32,
) -> Result<(), NoMemory>
    ensures { OnOk result (out.new.items ≡ out.old.items ++ identity_text src.now dst.now proto spi) }
{
    put_addr(out, b" src ", src)?;
    put_addr(out, b" dst ", dst)?;
    put(out, b" proto ")?;
    put(out, proto_word(proto))?;
    put_hex(out, b" spi ", spi)
}
