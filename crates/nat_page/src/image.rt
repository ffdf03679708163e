//! The image that flash holds.

ghost use Rattle.std.specs.Prelude.{◌≡◌, ◌+◌, ◌<◌, Some, IfSome, length};
ghost use Rattle.avr_isa.specs.declared.form.Form.TheVariants.{Nop};
ghost use Rattle.avr_isa.specs.Image.{word as word_of};
ghost use Rattle.avr_decode.specs.Decoding.{the_form};
ghost use Rattle.flash_words.specs.Layouts.{IsRight, image_of};
ghost use Rattle.nat_page.specs.Drafts.{IsOwn};

use avr_decode::decode;
use avr_isa::{Form, Instr};
use flash_model::{Decoded, Flash, Layout, word_in_image};
use nat_template::{TemplateShape, shape};
use page_draft::ImageWords;

/// The image that flash holds.
#[derive(Clone, Copy)]
pub struct FlashImage<'a> {
    /// The flash.
    pub flash: &'a Flash,
    /// How it is divided.
    pub layout: &'a Layout,
}

impl FlashImage<'_> {
    /// The instruction that flash has decoded at an address. None where the word behind is outside the image, and where the
    /// words may be no instruction, for which flash keeps NOP.
    #[inline(always)]
    fn decoded(&self, a: u16) -> Option<Instr>
        requires room { a + 1 < 65536 }
        ensures value { IfSome result (λ instr. the_form (word_of (image_of self.now.layout.now self.now.flash.now.words) a) (word_of (image_of self.now.layout.now self.now.flash.now.words) (a + 1)) ≡ Some instr) }
    {
        if a + 1 >= self.layout.image_words {
            return None;
        }
        match self.flash.decoded(a) {
            Some(decoded) => told(decoded, self.flash.word(a)),
            None => None,
        }
    }

    /// The word of the instruction that flash has decoded at an address, where that word is all of its template.
    #[inline(always)]
    pub(crate) fn own_word(&self, a: u16) -> Option<u16>
        requires right { IsRight self.now.layout.now }
        requires image { length (image_of self.now.layout.now self.now.flash.now.words) ≡ self.now.layout.now.image_words }
        requires inside { a < self.now.layout.now.image_words }
        ensures own { IfSome result (λ word. IsOwn (image_of self.now.layout.now self.now.flash.now.words) a word) }
    {
        match self.decoded(a) {
            Some(instr) => match shape(a, Some(&instr)) {
                TemplateShape::Native => Some(self.word(a)),
                _ => None,
            },
            None => None,
        }
    }
}

/// The instruction, unless it is a NOP whose word is none.
fn told(decoded: &Decoded, first: u16) -> Option<Instr>
    ensures value { IfSome result (λ told. (told ≡ decoded.now.instr) × ((told ≡ Nop) → (first ≡ 0))) }
{
    match decoded.instr.form() {
        Form::Nop => {
            if first == 0 {
                Some(decoded.instr)
            } else {
                None
            }
        }
        _ => Some(decoded.instr),
    }
}

impl ImageWords for FlashImage<'_> {
    ghost use Rattle.std.specs.Prelude.{◌≡◌, length};
    ghost use Rattle.flash_words.specs.Layouts.{image_of};

    ghost words = { λ image. image_of image.layout.now image.flash.now.words };

    ghost counted = { λ image. length (image_of image.layout.now image.flash.now.words) ≡ image.layout.now.image_words };

    fn count(&self) -> usize {
        usize::from(self.layout.image_words)
    }

    fn word(&self, a: u16) -> u16 {
        word_in_image(self.flash, self.layout, u32::from(a))
    }

    fn instruction(&self, a: u16) -> Option<Instr> {
        match self.decoded(a) {
            Some(instr) => Some(instr),
            None => decode(self.word(a), self.word(a + 1)),
        }
    }
}
