//! What the definitions of the crates below say together. Nothing is done when this runs.
ghost use Rattle.xf_held.specs.Windows.{WindowsAgree};

/// A window says of a number what the machine says, and accepts what the machine accepts.
pub fn windows_agree()
    ensures { WindowsAgree }
{}
