//! The words for what isn't a number.
ghost use Rattle.std.specs.Prelude.{◌≡◌};
ghost use Rattle.xf_print.specs.Words as words;

use xf_types::{Action, Dir, Level, Mode, Proto, Ptype};

pub(crate) fn dir_word(dir: Dir) -> &'static [u8]
    ensures { result.now ≡ words.dir_text dir }
{
    match dir {
        Dir::In => b"in",
        Dir::Out => b"out",
        Dir::Fwd => b"fwd",
    }
}

pub(crate) fn ptype_word(ptype: Ptype) -> &'static [u8]
    ensures { result.now ≡ words.ptype_text ptype }
{
    match ptype {
        Ptype::Main => b"main",
        Ptype::Sub => b"sub",
    }
}

pub(crate) fn action_word(action: Action) -> &'static [u8]
    ensures { result.now ≡ words.action_text action }
{
    match action {
        Action::Allow => b"allow",
        Action::Block => b"block",
    }
}

pub(crate) fn proto_word(proto: Proto) -> &'static [u8]
    ensures { result.now ≡ words.proto_text proto }
{
    match proto {
        Proto::Esp => b"esp",
        Proto::Ah => b"ah",
        Proto::Comp => b"comp",
    }
}

pub(crate) fn mode_word(mode: Mode) -> &'static [u8]
    ensures { result.now ≡ words.mode_text mode }
{
    match mode {
        Mode::Transport => b"transport",
        Mode::Tunnel => b"tunnel",
        Mode::Beet => b"beet",
        Mode::Ro => b"ro",
        Mode::InTrigger => b"in_trigger",
    }
}

pub(crate) fn level_word(level: Level) -> &'static [u8]
    ensures { result.now ≡ words.level_text level }
{
    match level {
        Level::Required => b"required",
        Level::Use => b"use",
    }
}
