//! Where the words of an image come from.

ghost use Rattle.std.specs.Prelude.{◌≡◌, ◌+◌, ◌<◌, length};
ghost use Rattle.avr_isa.specs.Image.{word as word_of};
ghost use Rattle.avr_decode.specs.Decoding.{the_form};

use avr_isa::Instr;

/// An image of a program, by word addresses.
pub trait ImageWords {
    ghost use Rattle.std.specs.Prelude.{ℕ, List};

    // Its words.
    ghost words: { Self → List ℕ };

    // What is asked before it can count them.
    ghost counted: { Self → Type 0 };

    /// How many words it has.
    fn count(&self) -> usize
        requires counted { counted self.now }
        ensures value { result ≡ length (words self.now) };

    /// The word at an address, 0xFFFF outside the image.
    fn word(&self, a: u16) -> u16
        ensures value { result ≡ word_of (words self.now) a };

    /// The instruction that begins at an address with its word and the one behind it; None where these begin none.
    fn instruction(&self, a: u16) -> Option<Instr>
        requires room { a + 1 < 65536 }
        ensures value { result ≡ the_form (word_of (words self.now) a) (word_of (words self.now) (a + 1)) };
}
