//! Laws of the definitions. No code calls this function; proofs cite the lemmas.
ghost use Rattle.xf_doubling.specs.DoublingLaws.{DoublingLaws};

/// What a split, and a doubling that begins, make of an index by hash.
pub fn doublings<A>()
    ensures { DoublingLaws A }
{}
