//! What the definitions say together. Nothing is done when this runs.
ghost use Rattle.xf_local.specs.Laws.{OneStateLaws};

/// The machine that has one state alone answers by the rules of one state.
pub fn one_state()
    ensures { OneStateLaws }
{}
