//! Pieces of code where they stand.

ghost use Rattle.std.specs.Prelude.{◌+◌, ◌≤◌, ◌↔◌, IsTrue};
ghost use Rattle.page_draft.specs.Standing.{size as size_of_pieces, Stands, StandsAt, width as width_of};
ghost use Rattle.page_draft.specs.CodePages.{Anywhere};
ghost use Rattle.pool_check.specs.Forms.{IsLinkWords};

use flash_model::JMP;
use nat_template::entries::BRIDGE;
use nat_template::{CALL, Piece};
use page_draft::width;

/// Whether the pieces stand at the front of a page, whatever their links lead to once they are resolved.
pub(crate) fn stands(words: &[u16; 128], pieces: &[Piece]) -> bool
    requires fits { size_of_pieces pieces.now ≤ 128 }
    ensures value { IsTrue result ↔ Stands Anywhere words.now 0 pieces.now }
{
    let mut place = 0;
    for piece in pieces {
        if !stands_at(words, place, *piece) {
            return false;
        }
        place += width(*piece);
    }
    true
}

/// Whether a piece stands at a place of a page.
fn stands_at(words: &[u16; 128], place: u16, piece: Piece) -> bool
    requires inside { place + width_of piece ≤ 128 }
    ensures value { IsTrue result ↔ StandsAt Anywhere words.now place piece }
{
    match piece {
        Piece::Fixed(word) => words[place as usize] == word,
        Piece::Link(target) => {
            is_link(words[place as usize], words[place as usize + 1])
                && words[place as usize + 2] == target
        }
    }
}

/// Whether two words call the kernel's bridge, or jump.
fn is_link(first: u16, second: u16) -> bool
    ensures value { IsTrue result ↔ IsLinkWords first second }
{
    first == CALL && second == BRIDGE || first == JMP
}
