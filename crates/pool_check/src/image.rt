//! An image as its words.

use avr_decode::decode;
use avr_isa::Instr;
use page_draft::ImageWords;

/// The image with these words.
#[derive(Clone, Copy)]
pub(crate) struct GivenImage<'a> {
    /// From word 0 on.
    pub words: &'a [u16],
}

impl ImageWords for GivenImage<'_> {
    ghost words = { λ image. image.words.now };

    ghost counted = { λ image. Unit {0} };

    fn count(&self) -> usize {
        self.words.len()
    }

    fn word(&self, a: u16) -> u16 {
        match self.words.get(usize::from(a)) {
            Some(word) => *word,
            None => 0xFFFF,
        }
    }

    fn instruction(&self, a: u16) -> Option<Instr> {
        decode(self.word(a), self.word(a + 1))
    }
}
