//! Laws of the definitions. No code calls this function; proofs cite the lemmas.
ghost use Rattle.xf_statecalls.specs.Conditions.{ConditionLaws};

/// The conditions of the calls hold where words and values stand for a machine.
pub fn conditions()
    ensures { ConditionLaws }
{}
