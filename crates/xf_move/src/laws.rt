//! Laws of calls for the state in one slot. No code calls these functions; proofs cite the lemmas.
ghost use Rattle.xf_move.specs.HandleLaws.{HandleLaws};

/// What an answer of the state in one slot makes of a pass that took its turn.
#[tactic(auto, using(crate::proofs::Whole::handle_laws))]
pub fn handles()
    ensures { HandleLaws }
{}
