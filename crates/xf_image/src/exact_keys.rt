//! What applies to a flow and is found by exact match stands in one chain of the exact part.
ghost use Rattle.xf_image.specs.KeyLaws.{KeyLaws};

/// The laws of the exact part's chains. No code calls this function; proofs cite the lemmas.
pub fn exact_law()
    ensures { KeyLaws }
{}
