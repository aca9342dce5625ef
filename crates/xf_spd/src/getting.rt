//! The policy that a key names.
ghost use Rattle.std.specs.Prelude.{◌≡◌, ◌≤◌, ◌*◌, ◌+◌, ℕ, List, IfErr};
ghost use Rattle.xf_types.specs.declared.policy.Policy.{Policy};
ghost use Rattle.xf_types.specs.Machine.{Shown};
ghost use Rattle.xf_types.specs.PolicyRules.{policy_get};
ghost use Rattle.xf_cells.specs.Words.{Narrows};
ghost use Rattle.xf_inexact.specs.Whole.{SpdStands, WholeFits};
ghost use Rattle.xf_spd.specs.Replies.{IsKeyFault, named_reply, policy_reply};

use crate::faults::SpdFault;
use crate::keys::is_bad_key;
use crate::spd::Spd;
use xf_cells::Load;
use xf_listing::{Entry, Listing};
use xf_types::{Policy, PolicyKey};

/// The policy of what is found.
fn told(entry: Option<Entry>) -> Result<Policy, SpdFault>
    ensures is { result ≡ named_reply entry }
    ensures fault { IfErr result IsKeyFault }
{
    match entry {
        None => Err(SpdFault::NoEntry),
        Some(Entry { slot: _, policy }) => Ok(policy),
    }
}

impl Spd {
    /// The policy that a key names. It is Invalid or NoEntry where there is none.
    pub fn get<L: Load>(&self, l: &mut L, key: &PolicyKey) -> Result<Policy, SpdFault>
        requires { WholeFits self.now.area (L.size l.old) }
        ensures size { L.size l.new ≡ L.size l.old }
        ensures begun { L.begun l.new ≡ L.begun l.old }
        ensures rest { L.rest l.new ≡ L.rest l.old }
        ensures among { Narrows (L.agrees l.old) (L.agrees l.new) }
        ensures loads { L.loads l.new ≤ L.loads l.old + 2058 + 16 * self.now.area.slots }
        ensures fault { IfErr result IsKeyFault }
        ensures answer { (image : List ℕ) (s : Shown) (es : List (ℕ × Policy)) → L.agrees l.new image → SpdStands self.now.area image s es → policy_reply result ≡ (policy_get s key.now).reply }
    {
        if is_bad_key(key) {
            return Err(SpdFault::Invalid);
        }
        let entry = Listing { area: self.area }.named(l, key);
        told(entry)
    }
}
