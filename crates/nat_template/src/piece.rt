//! Pieces of a template, and their words.

ghost use Rattle.std.specs.Prelude.{◌≡◌, ◌≤◌, length};
ghost use Rattle.nat_template.specs.Stubs.{words_of};

use crate::entries::BRIDGE;
use arrayvec::ArrayVec;

/// What a template is made of.
#[derive(Clone, Copy)]
pub enum Piece {
    /// One word.
    Fixed(u16),
    /// Three words that lead to this original address: at first a call of the kernel's bridge.
    Link(u16),
}

impl Default for Piece {
    /// An erased word.
    fn default() -> Piece
        ensures value { result ≡ Piece.Fixed 0xFFFF }
    {
        Piece::Fixed(0xFFFF)
    }
}

/// CALL, the first of its two words.
pub const CALL: u16 = 0x940E;

/// The words of pieces whose links are not resolved.
pub(crate) fn written(pieces: &[Piece]) -> ArrayVec<u16, 64>
    requires room { length (words_of pieces.now) ≤ 64 }
    ensures words { result.items ≡ words_of pieces.now }
{
    let mut words = ArrayVec::new();
    for piece in pieces {
        match *piece {
            Piece::Fixed(word) => words.push(word),
            Piece::Link(target) => {
                words.push(CALL);
                words.push(BRIDGE);
                words.push(target);
            }
        }
    }
    words
}
