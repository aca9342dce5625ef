//! How many policies there are.
ghost use Rattle.std.specs.Prelude.{◌≡◌, ℕ, ◌+◌, ◌*◌, ◌<◌, ◌≤◌, ◌^◌, false, cond, List, count_by};
ghost use Rattle.xf_types.specs.declared.network.Dir.TheVariants as dir;
ghost use Rattle.xf_types.specs.declared.policy.Policy.{Policy};
ghost use Rattle.xf_types.specs.Machine.{Shown};
ghost use Rattle.xf_types.specs.PolicyRules as rule;
ghost use Rattle.xf_types.specs.Same.{same_dir};
ghost use Rattle.xf_cells.specs.Words.{Narrows};
ghost use Rattle.xf_inexact.specs.Whole.{SpdStands, WholeFits};
ghost use Rattle.xf_policies.specs.Sweeps.{changes, changes_of, fate_of};
ghost use Rattle.xf_policies.specs.Visits.{IsMore, IsMoreFor};

use crate::sweep::Sweep;
use crate::walking::{Visitor, walk};
use xf_cells::Load;
use xf_spd::Spd;
use xf_types::{Dir, NoMemory, Policy, Reply};

/// How many policies of each direction were shown.
#[derive(Clone, Copy, Debug, PartialEq, Eq)]
pub(crate) struct Tally {
    inward: u32,
    outward: u32,
    forward: u32,
}

/// One more, where the direction is the wanted one.
fn with(count: u32, dir: Dir, wanted: Dir) -> u32
    ensures { IsMore (cond (same_dir dir wanted) 1 0) count result }
{
    if dir == wanted {
        count.saturating_add(1)
    } else {
        count
    }
}

impl Visitor for Tally {
    ghost goes = { λ v p u. IsMoreFor dir.In p v.inward u.inward × (IsMoreFor dir.Out p v.outward u.outward × IsMoreFor dir.Fwd p v.forward u.forward) };

    ghost fails = { false };

    fn visit(&mut self, policy: Policy) -> Result<(), NoMemory> {
        let dir = policy.spec.dir;
        self.inward = with(self.inward, dir, Dir::In);
        self.outward = with(self.outward, dir, Dir::Out);
        self.forward = with(self.forward, dir, Dir::Fwd);
        Ok(())
    }
}

/// How many policies each direction has.
pub fn policy_count<L: Load>(spd: &Spd, l: &mut L) -> Reply
    requires { WholeFits spd.now.area (L.size l.old) }
    ensures size { L.size l.new ≡ L.size l.old }
    ensures begun { L.begun l.new ≡ L.begun l.old }
    ensures rest { L.rest l.new ≡ L.rest l.old }
    ensures among { Narrows (L.agrees l.old) (L.agrees l.new) }
    ensures loads { L.loads l.new ≤ L.loads l.old + 1 + 102 * spd.now.area.slots }
    ensures answer { (image : List ℕ) (s : Shown) (es : List (ℕ × Policy)) → L.agrees l.new image → SpdStands spd.now.area image s es → result ≡ (rule.policy_count s).reply }
{
    let mut tally = Tally {
        inward: 0,
        outward: 0,
        forward: 0,
    };
    let _told = walk(spd, l, &mut tally);
    Reply::PolicyCount {
        inward: tally.inward,
        outward: tally.outward,
        forward: tally.forward,
    }
}

/// How many policies that a walk changes were shown.
#[derive(Clone, Copy, Debug, PartialEq, Eq)]
pub(crate) struct Counter {
    what: Sweep,
    count: u32,
}

impl Visitor for Counter {
    ghost goes = { λ v p u. (u.what ≡ v.what) × IsMore (changes_of (fate_of v.what p)) v.count u.count };

    ghost fails = { false };

    fn visit(&mut self, policy: Policy) -> Result<(), NoMemory> {
        let fate = self.what.fate(&policy);
        self.count = self.count.saturating_add(fate.changes());
        Ok(())
    }
}

/// How many policies a walk changes.
pub(crate) fn count_changes<L: Load>(spd: &Spd, l: &mut L, what: Sweep) -> u32
    requires { WholeFits spd.now.area (L.size l.old) }
    ensures size { L.size l.new ≡ L.size l.old }
    ensures begun { L.begun l.new ≡ L.begun l.old }
    ensures rest { L.rest l.new ≡ L.rest l.old }
    ensures among { Narrows (L.agrees l.old) (L.agrees l.new) }
    ensures loads { L.loads l.new ≤ L.loads l.old + 1 + 102 * spd.now.area.slots }
    ensures answer { (image : List ℕ) (s : Shown) (es : List (ℕ × Policy)) → L.agrees l.new image → SpdStands spd.now.area image s es → result ≡ count_by (changes what) s.policies }
{
    let mut counter = Counter { what, count: 0 };
    let _told = walk(spd, l, &mut counter);
    counter.count
}
