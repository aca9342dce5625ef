//! Laws of the definitions. No code calls this function; proofs cite the lemmas.
ghost use Rattle.xf_sadimage.specs.StateLaws.{StateLaws};

/// What changes of words make of what they stand for.
pub fn states()
    ensures { StateLaws }
{}
