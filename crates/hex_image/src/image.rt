//! Program images.
ghost use Rattle.std.specs.Prelude.{◌≡◌, ◌≤◌, ◌<◌, ℕ, List, length, IfOk, OnErr, slice_index_or};
ghost use Rattle.hex_image.specs.Image.{IsImage, most_words};

use base::NoMemory;
use std::alloc::Global;
use std::marker::Model;

/// The most words of an image.
pub const MOST_WORDS: u32 = 24_576;

/// A program image: its words from word address 0 on, at most [`MOST_WORDS`].
#[derive(Drop)]
pub struct Image {
    words: Vec<u16>,
}

// Clauses see the words.
impl Model for Image {
    ghost Value = { List ℕ };

    ghost view = { λ image. image.words.items };

    ghost invariant = { λ image. IsImage image.words.items };
}

impl Image {
    /// The image of these words.
    pub fn from_words(alloc: Global, words: &[u16]) -> Result<Image, NoMemory>
        requires { length words.now ≤ most_words }
        ensures words { IfOk result (λ image. image ≡ words.now) }
        ensures memory { OnErr result (0 < length words.now) }
    {
        let mut copy = Vec::new(alloc);
        copy.extend_from_slice(words)?;
        Ok(Image { words: copy })
    }

    /// The image that has these words.
    pub(crate) fn new(words: Vec<u16>) -> Image
        requires { IsImage words.items }
        ensures words { result ≡ words.items }
    {
        Image { words }
    }

    /// The number of words.
    pub fn len_words(&self) -> u16
        ensures words { result ≡ length self.now }
        ensures image { IsImage self.now }
    {
        self.words.len() as u16
    }

    /// The word at a word address, and 0xFFFF, as erased flash has it, outside the image.
    pub fn word(&self, address: u16) -> u16
        ensures word { result ≡ slice_index_or self.now address 0xFFFF }
    {
        match self.words.get(usize::from(address)) {
            Some(word) => *word,
            None => 0xFFFF,
        }
    }

    /// The words, each as the processor fetches it: of its two bytes the first is the low one.
    pub fn words(&self) -> &[u16]
        ensures words { result.now ≡ self.now }
        ensures image { IsImage self.now }
    {
        self.words.as_slice()
    }
}
