//! What a value stands for that threads hand to each other.
ghost use Rattle.xf_types.specs.Standing.{Standing};

/// A value that stands for a machine, for a state's record with a time and an own part, or for nothing.
pub trait Stands {
    ghost standing: { Self → Standing };
}
