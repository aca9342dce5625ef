//! Laws of images. No code calls these functions; proofs cite the lemmas.
ghost use Rattle.xf_opening.specs.Starts.{StartLaws};

/// A table may begin with an image, and its machine is the image's.
pub fn starts()
    ensures { StartLaws }
{}
