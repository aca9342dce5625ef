//! The words of the kinds that policies and states name, and what each word gives.
ghost use Rattle.std.specs.Prelude.{◌≡◌};
ghost use Rattle.xf_types.specs.Same as number;
ghost use Rattle.xf_records.specs.Codes as code;

use xf_types::{Action, Dir, Level, Mode, Proto, Ptype};

/// The number of a direction, 0 to 2.
pub fn dir_word(dir: Dir) -> u64
    ensures { result ≡ number.dir_number dir }
{
    u64::from(dir.number())
}

/// The direction that a word gives.
pub(crate) fn dir_in(word: u64) -> Dir
    ensures { result ≡ code.dir_in word }
{
    match word {
        0 => Dir::In,
        1 => Dir::Out,
        _ => Dir::Fwd,
    }
}

/// The number of a ptype: 0 for main, 1 for sub.
pub fn ptype_word(ptype: Ptype) -> u64
    ensures { result ≡ number.ptype_number ptype }
{
    match ptype {
        Ptype::Main => 0,
        Ptype::Sub => 1,
    }
}

/// The ptype that a word gives.
pub(crate) fn ptype_in(word: u64) -> Ptype
    ensures { result ≡ code.ptype_in word }
{
    match word {
        0 => Ptype::Main,
        _ => Ptype::Sub,
    }
}

/// The number of an action.
pub(crate) fn action_word(action: Action) -> u64
    ensures { result ≡ number.action_number action }
{
    match action {
        Action::Allow => 0,
        Action::Block => 1,
    }
}

/// The action that a word gives.
pub(crate) fn action_in(word: u64) -> Action
    ensures { result ≡ code.action_in word }
{
    match word {
        0 => Action::Allow,
        _ => Action::Block,
    }
}

/// The number of a protocol in an IP header.
pub fn proto_word(proto: Proto) -> u64
    ensures { result ≡ number.proto_number proto }
{
    match proto {
        Proto::Esp => 50,
        Proto::Ah => 51,
        Proto::Comp => 108,
    }
}

/// The protocol that a word gives.
pub fn proto_in(word: u64) -> Proto
    ensures { result ≡ code.proto_in word }
{
    match word {
        50 => Proto::Esp,
        51 => Proto::Ah,
        _ => Proto::Comp,
    }
}

/// The number of a mode.
pub(crate) fn mode_word(mode: Mode) -> u64
    ensures { result ≡ number.mode_number mode }
{
    match mode {
        Mode::Transport => 0,
        Mode::Tunnel => 1,
        Mode::Beet => 2,
        Mode::Ro => 3,
        Mode::InTrigger => 4,
    }
}

/// The mode that a word gives.
pub fn mode_in(word: u64) -> Mode
    ensures { result ≡ code.mode_in word }
{
    match word {
        0 => Mode::Transport,
        1 => Mode::Tunnel,
        2 => Mode::Beet,
        3 => Mode::Ro,
        _ => Mode::InTrigger,
    }
}

/// The number of a level.
pub(crate) fn level_word(level: Level) -> u64
    ensures { result ≡ code.level_word level }
{
    match level {
        Level::Required => 0,
        Level::Use => 1,
    }
}

/// The level that a word gives.
pub(crate) fn level_in(word: u64) -> Level
    ensures { result ≡ code.level_in word }
{
    match word {
        0 => Level::Required,
        _ => Level::Use,
    }
}
