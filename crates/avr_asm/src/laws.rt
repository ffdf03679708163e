//! Laws of texts, for callers' proofs.
ghost use Rattle.avr_asm.specs.Laws.{HasOneImage};

/// A text has one list of words at most.
#[tactic(auto, using(crate::proofs::OneImage::same_words))]
pub fn one_image()
    ensures one { HasOneImage }
{}
