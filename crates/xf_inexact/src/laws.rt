//! Laws of the definitions. No code calls these functions; proofs cite the lemmas.
ghost use Rattle.xf_inexact.specs.BoundLaws.{BoundLaws};
ghost use Rattle.xf_inexact.specs.ChangeLaws.{ChangeLaws};
ghost use Rattle.xf_inexact.specs.FirstLaws.{FirstLaws};
ghost use Rattle.xf_inexact.specs.HoldLaws.{HoldLaws};
ghost use Rattle.xf_inexact.specs.KeyLaws.{KeyLaws};
ghost use Rattle.xf_inexact.specs.PlaceLaws.{PlaceLaws};

use crate::inexact::Inexact;

/// The words of trees, of chains and of policies lie apart.
pub fn places(inexact: &Inexact)
    ensures { PlaceLaws inexact.now }
{}

/// Keys tell bins apart.
pub fn bins()
    ensures { KeyLaws }
{}

/// Nothing is lost by asking the nodes that hold the flow's addresses.
pub fn firsts(inexact: &Inexact)
    ensures { FirstLaws inexact.now }
{}

/// Words of zeros hold no policy, a part none of whose words was written stays, and six nodes are free where one more policy may come.
pub fn holds(inexact: &Inexact)
    ensures { HoldLaws inexact.now }
{}

/// What a lookup loads at most.
pub fn bounds(inexact: &Inexact)
    ensures { BoundLaws inexact.now }
{}

/// Policies of the exact part and records with an equal request change nothing here.
pub fn changes(inexact: &Inexact)
    ensures { ChangeLaws inexact.now }
{}
