//! Laws of texts, for callers' proofs.
ghost use Rattle.hex_image.specs.GrammarLaw.{FaultsAgree, ImagesAgree};
ghost use Rattle.hex_image.specs.Laws.{HasImageOrFault, HasNeverBoth, HasOneFault, HasOneImage};

/// A text has one image at most, and one position at which the text behind it begins.
pub fn one_image()
    ensures one { HasOneImage }
{}

/// A text has one first faulty line at most, and one first fault there.
pub fn one_fault()
    ensures one { HasOneFault }
{}

/// Each text has an image or a fault, and none has both.
pub fn image_or_fault()
    ensures either { HasImageOrFault }
    ensures never_both { HasNeverBoth }
{}

/// A text has an image, or a first fault, just where the format says so of all its lines at once.
pub fn grammar()
    ensures image { ImagesAgree }
    ensures fault { FaultsAgree }
{}
