//! What limits say.
ghost use Rattle.std.specs.Prelude.{◌≡◌};
ghost use Rattle.xf_life.specs.Shown.{shown};
ghost use Rattle.xf_types.specs.Lifetime as life;

/// What the limits of a policy or a state say of it.
#[derive(Clone, Copy, PartialEq, Eq, Debug)]
pub enum Verdict {
    /// No limit is met.
    Fine,
    /// A soft limit is met, and no hard one: it is used on, and its end is near.
    Soft,
    /// A hard limit is met: it is at its end.
    Hard,
}

impl Verdict {
    /// The verdict of limits of which a hard one, and a soft one, is met or not.
    pub(crate) fn of_flags(hard: bool, soft: bool) -> Verdict
        ensures { shown result ≡ life.verdict_of_flags hard soft }
    {
        if hard {
            Verdict::Hard
        } else if soft {
            Verdict::Soft
        } else {
            Verdict::Fine
        }
    }

    /// The graver of two.
    pub(crate) fn graver(self, other: Verdict) -> Verdict
        ensures { shown result ≡ life.graver (shown self) (shown other) }
    {
        match (self, other) {
            (Verdict::Hard, _) | (_, Verdict::Hard) => Verdict::Hard,
            (Verdict::Soft, _) | (_, Verdict::Soft) => Verdict::Soft,
            _ => Verdict::Fine,
        }
    }
}
