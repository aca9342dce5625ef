//! Laws of the definitions. No code calls this function; proofs cite the lemmas.
ghost use Rattle.xf_sadidx.specs.ListLaws.{ListLaws};

/// What the walks find is what the state list says.
pub fn lists()
    ensures { ListLaws }
{}
