//! Other thresholds.
ghost use Rattle.std.specs.Prelude.{◌≡◌, ℕ, true, List};
ghost use Rattle.xf_types.specs.declared.policy.Policy.{Policy};
ghost use Rattle.xf_types.specs.Changes.{shown_after};
ghost use Rattle.xf_types.specs.Machine.{Shown};
ghost use Rattle.xf_types.specs.PolicyRules as rule;
ghost use Rattle.xf_image.specs.Frames.{Frame};
ghost use Rattle.xf_image.specs.Readings.{listed_in};
ghost use Rattle.xf_inexact.specs.Whole.{SpdStands, WholeFits, whole_end};
ghost use Rattle.xf_policies.specs.Answers.{PolicyAnswers};

use xf_cells::Cells;
use xf_spd::Spd;
use xf_types::{Reply, Thresholds};

/// Replaces the thresholds that are given. No slot moves.
pub fn policy_set<C: Cells>(spd: &Spd, c: &mut C, thresholds: &Thresholds) -> Reply
    requires { WholeFits spd.now.area (C.size c.old) }
    ensures size { C.size c.new ≡ C.size c.old }
    ensures begun { C.begun c.new ≡ true }
    ensures rest { C.rest c.new ≡ C.rest c.old }
    ensures frame { Frame spd.now.area.base (whole_end spd.now.area) (C.words c.old) (C.words c.new) }
    ensures done { result ≡ Reply.Done }
    ensures stands { (s : Shown) (es : List (ℕ × Policy)) → SpdStands spd.now.area (C.words c.old) s es → SpdStands spd.now.area (C.words c.new) (shown_after s (rule.policy_set s thresholds.now).change) es }
    ensures slots { (s : Shown) (es : List (ℕ × Policy)) → SpdStands spd.now.area (C.words c.old) s es → listed_in spd.now.area (C.words c.new) ≡ listed_in spd.now.area (C.words c.old) }
    ensures answer { (s : Shown) (es : List (ℕ × Policy)) → SpdStands spd.now.area (C.words c.old) s es → PolicyAnswers spd.now.area (C.words c.new) s 0 result (λ t. rule.policy_set t thresholds.now) }
{
    spd.set(c, thresholds);
    Reply::Done
}
