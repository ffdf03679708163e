//! Pieces in a row.

ghost use Rattle.std.specs.Prelude.{◌≡◌, ◌+◌, ◌≤◌, ◌++◌, length};
ghost use Rattle.arrayvec.specs.ArrayVec.{array_vec_len};
ghost use Rattle.nat_template.specs.Stubs.{words_of};
ghost use Rattle.page_draft.specs.Standing.{size as size_of, width as width_of};
ghost use Rattle.page_draft.specs.CodePages.{filled};

use arrayvec::ArrayVec;
use nat_template::entries::BRIDGE;
use nat_template::{CALL, Piece};

/// CALL of the kernel's bridge.
pub const CALL_BRIDGE: [u16; 2] = [CALL, BRIDGE];

/// How many words the pieces have, each link unresolved or resolved: one for a fixed word, three for a link.
pub fn size(pieces: &[Piece]) -> u16
    requires small { length pieces.now ≤ 128 }
    ensures value { result ≡ size_of pieces.now }
{
    let mut words = 0;
    for piece in pieces {
        words += width(*piece);
    }
    words
}

/// How many words a piece has.
pub fn width(piece: Piece) -> u16
    ensures value { result ≡ width_of piece }
{
    match piece {
        Piece::Fixed(_) => 1,
        Piece::Link(_) => 3,
    }
}

/// Adds the words of pieces, whose links aren't resolved.
pub(crate) fn push_words(words: &mut ArrayVec<u16, 128>, pieces: &[Piece])
    requires room { array_vec_len words.old + size_of pieces.now ≤ 128 }
    ensures words { words.new.items ≡ words.old.items ++ words_of pieces.now }
{
    for piece in pieces {
        match *piece {
            Piece::Fixed(word) => words.push(word),
            Piece::Link(target) => {
                words.push(CALL_BRIDGE[0]);
                words.push(CALL_BRIDGE[1]);
                words.push(target);
            }
        }
    }
}

/// The words, and erased words to the page's end.
#[tactic(auto, using(crate::proofs::DraftLaws::erased_rest))]
pub(crate) fn filled_up(words: &ArrayVec<u16, 128>) -> [u16; 128]
    ensures words { result ≡ filled words.now.items }
{
    let mut page = [0xFFFF; 128];
    page[..words.len()].copy_from_slice(words);
    page
}
