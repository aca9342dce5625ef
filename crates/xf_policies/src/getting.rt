//! The policy that a key names.
ghost use Rattle.std.specs.Prelude.{◌≡◌, ◌≤◌, ◌*◌, ◌+◌, ℕ, List};
ghost use Rattle.xf_types.specs.declared.policy.Policy.{Policy};
ghost use Rattle.xf_types.specs.Machine.{Shown};
ghost use Rattle.xf_types.specs.PolicyRules as rule;
ghost use Rattle.xf_cells.specs.Words.{Narrows};
ghost use Rattle.xf_inexact.specs.Whole.{SpdStands, WholeFits};

use crate::replying::policy_reply;
use xf_cells::Load;
use xf_spd::Spd;
use xf_types::{PolicyKey, Reply};

/// The policy that a key names. Invalid or NoEntry where there is none.
pub fn policy_get<L: Load>(spd: &Spd, l: &mut L, key: &PolicyKey) -> Reply
    requires { WholeFits spd.now.area (L.size l.old) }
    ensures size { L.size l.new ≡ L.size l.old }
    ensures begun { L.begun l.new ≡ L.begun l.old }
    ensures rest { L.rest l.new ≡ L.rest l.old }
    ensures among { Narrows (L.agrees l.old) (L.agrees l.new) }
    ensures loads { L.loads l.new ≤ L.loads l.old + 2058 + 16 * spd.now.area.slots }
    ensures answer { (image : List ℕ) (s : Shown) (es : List (ℕ × Policy)) → L.agrees l.new image → SpdStands spd.now.area image s es → result ≡ (rule.policy_get s key.now).reply }
{
    let answer = spd.get(l, key);
    policy_reply(answer)
}
