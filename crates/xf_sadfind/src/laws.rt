//! Laws of the definitions. No code calls this function; proofs cite the lemmas.
ghost use Rattle.xf_sadfind.specs.FindLaws.{FindLaws};

/// What is found is what the rules speak of.
pub fn finds()
    ensures { FindLaws }
{}
