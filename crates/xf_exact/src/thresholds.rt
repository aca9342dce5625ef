//! The thresholds that the words tell.
ghost use Rattle.std.specs.Prelude.{◌≡◌, ℕ, ◌+◌, ◌-◌, ◌<◌, ◌≤◌, ◌^◌, List, slice_index};
ghost use Rattle.xf_cells.specs.Words.{Narrows};
ghost use Rattle.xf_image.specs.ExactKeys.{lens_of};
ghost use Rattle.xf_image.specs.Layout.{Fits};
ghost use Rattle.xf_image.specs.Readings.{hthresh4_in, hthresh6_in};

use xf_cells::Load;
use xf_image::PolicyArea;
use xf_types::Addr;

/// A length that a word tells by what it lacks to an address's width.
fn length(width: u8, lacks: u64) -> u8
    ensures { result ≡ width - lacks }
{
    width - lacks.min(u64::from(width)) as u8
}

/// Two lengths, from a place on.
fn lengths<L: Load>(l: &mut L, at: u32, width: u8) -> (u8, u8)
    requires lies { at + 1 < L.size l.old }
    requires fits { L.size l.old < 2 ^ 32 }
    ensures size { L.size l.new ≡ L.size l.old }
    ensures begun { L.begun l.new ≡ L.begun l.old }
    ensures rest { L.rest l.new ≡ L.rest l.old }
    ensures among { Narrows (L.agrees l.old) (L.agrees l.new) }
    ensures loads { L.loads l.new ≤ L.loads l.old + 2 }
    ensures answer { (image : List ℕ) → L.agrees l.new image → result ≡ (width - slice_index image at, width - slice_index image (at + 1)) }
{
    let local = length(width, l.load(at));
    let remote = length(width, l.load(at + 1));
    (local, remote)
}

/// The thresholds, local and remote, of the address's family.
pub(crate) fn lens<L: Load>(area: &PolicyArea, l: &mut L, addr: &Addr) -> (u8, u8)
    requires { Fits area.now (L.size l.old) }
    ensures size { L.size l.new ≡ L.size l.old }
    ensures begun { L.begun l.new ≡ L.begun l.old }
    ensures rest { L.rest l.new ≡ L.rest l.old }
    ensures among { Narrows (L.agrees l.old) (L.agrees l.new) }
    ensures loads { L.loads l.new ≤ L.loads l.old + 2 }
    ensures answer { (image : List ℕ) → L.agrees l.new image → result ≡ lens_of (hthresh4_in area.now image) (hthresh6_in area.now image) addr.now }
{
    let at = area.thresholds_place();
    match addr {
        Addr::V4(_) => lengths(l, at, 32),
        Addr::V6(_) => lengths(l, at + 2, 128),
    }
}
