//! The image, among the words of flash.

ghost use Rattle.std.specs.Prelude.{◌≡◌};
ghost use Rattle.avr_isa.specs.Image.{word};
ghost use Rattle.flash_words.specs.Layouts.{image_of};

use crate::flash::Flash;
use flash_words::Layout;

/// A word outside the image.
const OUTSIDE: u16 = 0xFFFF;

/// The image's word at a word address, 0xFFFF outside the image. The address has 32 bits, since ELPM
/// reaches beyond word 65,535.
#[tactic(auto, using(crate::proofs::ImageLaws::word_of_image, crate::proofs::ImageLaws::word_behind_image))]
pub fn word_in_image(flash: &Flash, layout: &Layout, a: u32) -> u16
    ensures value { result ≡ word (image_of layout.now flash.now.words) a }
{
    if a < u32::from(layout.image_words) {
        flash.word(a as u16)
    } else {
        OUTSIDE
    }
}
