//! Laws of the definitions. No code calls these functions; proofs cite the lemmas.
ghost use Rattle.xf_exact.specs.HitLaws.{HitLaws};
ghost use Rattle.xf_exact.specs.PartLaws.{PartLaws};
ghost use Rattle.xf_exact.specs.WalkLaws.{WalkLaws};

/// What walks along a chain of an index find, and where those for places end.
pub fn walks()
    ensures { WalkLaws }
{}

/// A hit is the first entry, and the better one of two is asked first.
pub fn hits()
    ensures { HitLaws }
{}

/// The words of a policy list tell its thresholds.
pub fn parts()
    ensures { PartLaws }
{}
