//! Tests of a value that stands in one word, or in the few of an address or a mark.
ghost use Rattle.std.specs.Prelude.{◌≡◌, ℕ, ◌+◌, ◌<◌, ◌≤◌, ◌^◌, List};
ghost use Rattle.xf_cells.specs.Words.{Narrows};
ghost use Rattle.xf_types.specs.Selection as flow_test;
ghost use Rattle.xf_types.specs.PolicyList as list;
ghost use Rattle.xf_types.specs.Candidates as candidate;
ghost use Rattle.xf_records.specs.Codes as code;
ghost use Rattle.xf_asked.specs.Asked as asked;

use xf_cells::Load;
use xf_records::{addr_in, byte_in, flag_in, mode_in, port_in, proto_in, small_in};
use xf_types::{Addr, Mark, Mode, Proto, same_addr};

// Whether a port that may be left out is left out or equal.
fn port_fits(word: u64, port: u16) -> bool
    ensures { result ≡ flow_test.matches_port (code.port_in word) port }
{
    match port_in(word) {
        None => true,
        Some(wanted) => wanted == port,
    }
}

// Whether the mark, masked, is the wanted value.
fn has_mark(mark: u32, wanted: Mark) -> bool
    ensures { result ≡ list.has_mark mark wanted }
{
    (mark & wanted.mask) == wanted.value
}

// Whether the address is zero.
fn is_zero(addr: &Addr) -> bool
    ensures { result ≡ candidate.is_zero addr.now }
{
    match addr {
        Addr::V4(number) => *number == 0,
        Addr::V6(number) => *number == 0,
    }
}

// The address at a place.
fn addr_at<L: Load>(l: &mut L, at: u32) -> Addr
    requires lies { at + 3 ≤ L.size l.old }
    requires fits { at + 3 < 2 ^ 32 }
    ensures size { L.size l.new ≡ L.size l.old }
    ensures begun { L.begun l.new ≡ L.begun l.old }
    ensures rest { L.rest l.new ≡ L.rest l.old }
    ensures among { Narrows (L.agrees l.old) (L.agrees l.new) }
    ensures loads { L.loads l.new ≤ L.loads l.old + 3 }
    ensures answer { (image : List ℕ) → L.agrees l.new image → result ≡ asked.addr_at image at }
{
    let family = l.load(at);
    let high = l.load(at + 1);
    let low = l.load(at + 2);
    addr_in(family, high, low)
}

// The mark at a place.
fn mark_at<L: Load>(l: &mut L, at: u32) -> Mark
    requires lies { at + 2 ≤ L.size l.old }
    requires fits { at + 2 < 2 ^ 32 }
    ensures size { L.size l.new ≡ L.size l.old }
    ensures begun { L.begun l.new ≡ L.begun l.old }
    ensures rest { L.rest l.new ≡ L.rest l.old }
    ensures among { Narrows (L.agrees l.old) (L.agrees l.new) }
    ensures loads { L.loads l.new ≤ L.loads l.old + 2 }
    ensures answer { (image : List ℕ) → L.agrees l.new image → result ≡ asked.mark_at image at }
{
    let value = small_in(l.load(at));
    let mask = small_in(l.load(at + 1));
    Mark { value, mask }
}

/// Whether the mark, masked, is the value at a place.
#[tactic(auto, unfolding(crate::specs::Asked::has_mark_at))]
pub(crate) fn has_mark_at<L: Load>(l: &mut L, at: u32, mark: u32) -> bool
    requires lies { at + 2 ≤ L.size l.old }
    requires fits { at + 2 < 2 ^ 32 }
    ensures size { L.size l.new ≡ L.size l.old }
    ensures begun { L.begun l.new ≡ L.begun l.old }
    ensures rest { L.rest l.new ≡ L.rest l.old }
    ensures among { Narrows (L.agrees l.old) (L.agrees l.new) }
    ensures loads { L.loads l.new ≤ L.loads l.old + 2 }
    ensures answer { (image : List ℕ) → L.agrees l.new image → result ≡ asked.has_mark_at image at mark }
{
    has_mark(mark, mark_at(l, at))
}

/// Whether the protocol at a place is 0 or equal.
#[tactic(auto, unfolding(crate::specs::Asked::has_proto_at))]
pub(crate) fn has_proto_at<L: Load>(l: &mut L, at: u32, proto: u8) -> bool
    requires lies { at + 1 ≤ L.size l.old }
    requires fits { at + 1 < 2 ^ 32 }
    ensures size { L.size l.new ≡ L.size l.old }
    ensures begun { L.begun l.new ≡ L.begun l.old }
    ensures rest { L.rest l.new ≡ L.rest l.old }
    ensures among { Narrows (L.agrees l.old) (L.agrees l.new) }
    ensures loads { L.loads l.new ≤ L.loads l.old + 1 }
    ensures answer { (image : List ℕ) → L.agrees l.new image → result ≡ asked.has_proto_at image at proto }
{
    let wanted = byte_in(l.load(at));
    wanted == 0 || wanted == proto
}

/// Whether the port at a place is left out or equal.
#[tactic(auto, unfolding(crate::specs::Asked::has_port_at))]
pub(crate) fn has_port_at<L: Load>(l: &mut L, at: u32, port: u16) -> bool
    requires lies { at + 1 ≤ L.size l.old }
    requires fits { at + 1 < 2 ^ 32 }
    ensures size { L.size l.new ≡ L.size l.old }
    ensures begun { L.begun l.new ≡ L.begun l.old }
    ensures rest { L.rest l.new ≡ L.rest l.old }
    ensures among { Narrows (L.agrees l.old) (L.agrees l.new) }
    ensures loads { L.loads l.new ≤ L.loads l.old + 1 }
    ensures answer { (image : List ℕ) → L.agrees l.new image → result ≡ asked.has_port_at image at port }
{
    port_fits(l.load(at), port)
}

/// Whether the address at a place is this one.
#[tactic(auto, unfolding(crate::specs::Asked::is_addr_at))]
pub(crate) fn is_addr_at<L: Load>(l: &mut L, at: u32, addr: &Addr) -> bool
    requires lies { at + 3 ≤ L.size l.old }
    requires fits { at + 3 < 2 ^ 32 }
    ensures size { L.size l.new ≡ L.size l.old }
    ensures begun { L.begun l.new ≡ L.begun l.old }
    ensures rest { L.rest l.new ≡ L.rest l.old }
    ensures among { Narrows (L.agrees l.old) (L.agrees l.new) }
    ensures loads { L.loads l.new ≤ L.loads l.old + 3 }
    ensures answer { (image : List ℕ) → L.agrees l.new image → result ≡ asked.is_addr_at image at addr.now }
{
    same_addr(&addr_at(l, at), addr)
}

/// Whether the source at a place is this one, or one of the two is zero.
#[tactic(auto, unfolding(crate::specs::Asked::is_source_at))]
pub(crate) fn is_source_at<L: Load>(l: &mut L, at: u32, src: &Addr) -> bool
    requires lies { at + 3 ≤ L.size l.old }
    requires fits { at + 3 < 2 ^ 32 }
    ensures size { L.size l.new ≡ L.size l.old }
    ensures begun { L.begun l.new ≡ L.begun l.old }
    ensures rest { L.rest l.new ≡ L.rest l.old }
    ensures among { Narrows (L.agrees l.old) (L.agrees l.new) }
    ensures loads { L.loads l.new ≤ L.loads l.old + 3 }
    ensures answer { (image : List ℕ) → L.agrees l.new image → result ≡ asked.is_source_at image at src.now }
{
    let addr = addr_at(l, at);
    same_addr(&addr, src) || is_zero(&addr) || is_zero(src)
}

/// Whether the number at a place is this one.
#[tactic(auto, unfolding(crate::specs::Asked::is_word_at))]
pub(crate) fn is_word_at<L: Load>(l: &mut L, at: u32, word: u32) -> bool
    requires lies { at + 1 ≤ L.size l.old }
    requires fits { at + 1 < 2 ^ 32 }
    ensures size { L.size l.new ≡ L.size l.old }
    ensures begun { L.begun l.new ≡ L.begun l.old }
    ensures rest { L.rest l.new ≡ L.rest l.old }
    ensures among { Narrows (L.agrees l.old) (L.agrees l.new) }
    ensures loads { L.loads l.new ≤ L.loads l.old + 1 }
    ensures answer { (image : List ℕ) → L.agrees l.new image → result ≡ asked.is_word_at image at word }
{
    l.load(at) == u64::from(word)
}

/// Whether the SPI at a place is the one that is wanted, where one is.
#[tactic(auto, unfolding(crate::specs::Asked::has_spi_at))]
pub(crate) fn has_spi_at<L: Load>(l: &mut L, at: u32, spi: u32) -> bool
    requires lies { at + 1 ≤ L.size l.old }
    requires fits { at + 1 < 2 ^ 32 }
    ensures size { L.size l.new ≡ L.size l.old }
    ensures begun { L.begun l.new ≡ L.begun l.old }
    ensures rest { L.rest l.new ≡ L.rest l.old }
    ensures among { Narrows (L.agrees l.old) (L.agrees l.new) }
    ensures loads { L.loads l.new ≤ L.loads l.old + 1 }
    ensures answer { (image : List ℕ) → L.agrees l.new image → result ≡ asked.has_spi_at image at spi }
{
    let word = l.load(at);
    spi == 0 || u64::from(spi) == word
}

/// Whether the protocol at a place is this one.
#[tactic(auto, unfolding(crate::specs::Asked::is_proto_at))]
pub(crate) fn is_proto_at<L: Load>(l: &mut L, at: u32, proto: Proto) -> bool
    requires lies { at + 1 ≤ L.size l.old }
    requires fits { at + 1 < 2 ^ 32 }
    ensures size { L.size l.new ≡ L.size l.old }
    ensures begun { L.begun l.new ≡ L.begun l.old }
    ensures rest { L.rest l.new ≡ L.rest l.old }
    ensures among { Narrows (L.agrees l.old) (L.agrees l.new) }
    ensures loads { L.loads l.new ≤ L.loads l.old + 1 }
    ensures answer { (image : List ℕ) → L.agrees l.new image → result ≡ asked.is_proto_at image at proto }
{
    proto_in(l.load(at)) == proto
}

/// Whether the mode at a place is this one.
#[tactic(auto, unfolding(crate::specs::Asked::is_mode_at))]
pub(crate) fn is_mode_at<L: Load>(l: &mut L, at: u32, mode: Mode) -> bool
    requires lies { at + 1 ≤ L.size l.old }
    requires fits { at + 1 < 2 ^ 32 }
    ensures size { L.size l.new ≡ L.size l.old }
    ensures begun { L.begun l.new ≡ L.begun l.old }
    ensures rest { L.rest l.new ≡ L.rest l.old }
    ensures among { Narrows (L.agrees l.old) (L.agrees l.new) }
    ensures loads { L.loads l.new ≤ L.loads l.old + 1 }
    ensures answer { (image : List ℕ) → L.agrees l.new image → result ≡ asked.is_mode_at image at mode }
{
    mode_in(l.load(at)) == mode
}

/// Whether the flag at a place is off.
#[tactic(auto, unfolding(crate::specs::Asked::is_off_at))]
pub(crate) fn is_off_at<L: Load>(l: &mut L, at: u32) -> bool
    requires lies { at + 1 ≤ L.size l.old }
    requires fits { at + 1 < 2 ^ 32 }
    ensures size { L.size l.new ≡ L.size l.old }
    ensures begun { L.begun l.new ≡ L.begun l.old }
    ensures rest { L.rest l.new ≡ L.rest l.old }
    ensures among { Narrows (L.agrees l.old) (L.agrees l.new) }
    ensures loads { L.loads l.new ≤ L.loads l.old + 1 }
    ensures answer { (image : List ℕ) → L.agrees l.new image → result ≡ asked.is_off_at image at }
{
    !flag_in(l.load(at))
}
