//! What image words mean, as far as the laws need it.

/// The meaning of image words. The laws hold for every meaning, so they rest on no table of words.
pub trait Means {
    ghost use Rattle.std.specs.Prelude.{ℕ, List};
    ghost use Rattle.xf_types.specs.declared.state.Sa.{Sa};
    ghost use Rattle.xf_invariant.specs.Meaning.{Told};

    /// In which bucket a state is.
    ghost bucket_of: { Sa → ℕ };

    /// Which image is good for what is told: the words stand for it.
    ghost good: { List ℕ → Told → Type 0 };

    /// At which place the id of the state in a slot stands.
    ghost id_place: { ℕ → ℕ };
}
