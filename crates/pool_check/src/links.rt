//! Whether a page agrees with the other pages of the pool.

ghost use Rattle.std.specs.Prelude.{◌≡◌, ◌+◌, ◌<◌, ◌≤◌, ◌↔◌, length, IsTrue};
ghost use Rattle.flash_words.specs.Layouts.{IsRight, most_image_pages, most_image_words};
ghost use Rattle.flash_words.specs.Pages.{page_of, word_at};
ghost use Rattle.page_index.specs.Maps.{IsPool};
ghost use Rattle.page_draft.specs.CodePages.{page_pieces, IsCodePage};
ghost use Rattle.nat_page.specs.Links.{EachLink};
ghost use Rattle.page_draft.specs.Standing.{size as size_of_pieces, width as width_of};
ghost use Rattle.pool_check.specs.Forms.{HasForm, first_told, last_told};
ghost use Rattle.pool_check.specs.Links.{ArePages, ArePagesTo, HasLinks, IsAlone, IsHere, IsOneEntry, IsRightLink, IsUnlisted};

use crate::image::GivenImage;
use arrayvec::ArrayVec;
use flash_model::{Flash, JMP, Layout, PAGE_WORDS};
use nat_page::page_words;
use nat_template::Piece;
use page_draft::{remade, width};
use page_index::{address_at, entries, is_free, place_in};

/// Whether this place is that of the one entry of `t`.
fn is_one_entry(flash: &Flash, layout: &Layout, t: u16, place: u16) -> bool
    requires right { IsRight layout.now }
    requires pages { ArePages layout.now flash.now.words }
    ensures value { IsTrue result ↔ IsOneEntry layout.now flash.now.words t place }
{
    let mut found = false;
    for page in layout.pool_first..layout.pool_first + layout.pool_pages {
        if let Some(other) = place_in(flash, page, t) {
            if other != place {
                return false;
            }
            found = true;
        }
    }
    found
}

/// Whether no page of the pool below this one has an entry of the address.
fn is_unlisted(flash: &Flash, layout: &Layout, page: u16, t: u16) -> bool
    requires right { IsRight layout.now }
    requires page { IsPool layout.now page }
    requires pages { ArePagesTo layout.now flash.now.words page }
    ensures value { IsTrue result ↔ IsUnlisted layout.now flash.now.words page t }
{
    for lower in layout.pool_first..page {
        if place_in(flash, lower, t).is_some() {
            return false;
        }
    }
    true
}

/// Whether no page of the pool below this one has an entry of one of its addresses.
pub fn is_alone(flash: &Flash, layout: &Layout, page: u16) -> bool
    requires right { IsRight layout.now }
    requires page { IsPool layout.now page }
    requires pages { ArePagesTo layout.now flash.now.words page }
    ensures value { IsTrue result ↔ IsAlone layout.now flash.now.words page }
{
    if is_free(flash, page) {
        return true;
    }
    for i in 0..entries(flash, page) {
        if !is_unlisted(flash, layout, page, address_at(flash, page, i)) {
            return false;
        }
    }
    true
}

/// Whether each jump in a link goes to the place of the one entry of the link's target. The first piece stands at the
/// word address `base`.
fn do_links_lead(flash: &Flash, layout: &Layout, pieces: &[Piece], base: u16) -> bool
    requires right { IsRight layout.now }
    requires pages { ArePages layout.now flash.now.words }
    requires low { base + size_of_pieces pieces.now ≤ 65535 }
    ensures value { IsTrue result ↔ EachLink (IsRightLink layout.now flash.now.words) base pieces.now }
{
    let mut place = base;
    for piece in pieces {
        if !is_right_piece(flash, layout, place, *piece) {
            return false;
        }
        place += width(*piece);
    }
    true
}

/// Whether a piece at a word address is right: a link that jumps goes to the place of its target's one entry.
fn is_right_piece(flash: &Flash, layout: &Layout, place: u16, piece: Piece) -> bool
    requires right { IsRight layout.now }
    requires pages { ArePages layout.now flash.now.words }
    requires low { place + width_of piece ≤ 65535 }
    ensures value { IsTrue result ↔ IsHere (IsRightLink layout.now flash.now.words) place piece }
{
    match piece {
        Piece::Fixed(_) => true,
        Piece::Link(target) => is_right_link(flash, layout, place, target),
    }
}

/// Whether a link to `t` goes to the place of its one entry, if it jumps.
fn is_right_link(flash: &Flash, layout: &Layout, place: u16, t: u16) -> bool
    requires right { IsRight layout.now }
    requires pages { ArePages layout.now flash.now.words }
    requires low { place < 65535 }
    ensures value { IsTrue result ↔ IsRightLink layout.now flash.now.words place t }
{
    if flash.word(place) != JMP {
        return true;
    }
    is_one_entry(flash, layout, t, flash.word(place + 1))
}

/// Whether a page of the pool, which has its form, agrees with the other pages.
pub(crate) fn has_links(flash: &Flash, layout: &Layout, image: &[u16], page: u16) -> bool
    requires right { IsRight layout.now }
    requires length { length image.now ≡ layout.now.image_words }
    requires page { IsPool layout.now page }
    requires pages { ArePages layout.now flash.now.words }
    requires form { HasForm layout.now image.now page (page_of flash.now.words page) }
    ensures value { IsTrue result ↔ HasLinks layout.now image.now flash.now.words page }
{
    if is_free(flash, page) {
        return true;
    }
    if !is_alone(flash, layout, page) {
        return false;
    }
    do_links_lead(
        flash,
        layout,
        &pieces_of(flash, image, page),
        PAGE_WORDS * page,
    )
}

/// The pieces of a page that is rewritten code.
pub(crate) fn pieces_of(flash: &Flash, image: &[u16], page: u16) -> ArrayVec<Piece, 128>
    requires short { length image.now ≤ most_image_words }
    requires low { page < 480 }
    requires code { IsCodePage image.now (page_of flash.now.words page) 0 }
    ensures pieces { result.items ≡ page_pieces image.now (first_told (page_of flash.now.words page)) (last_told (page_of flash.now.words page)) }
    ensures short { size_of_pieces result.items ≤ 128 }
{
    let words = page_words(flash, page);
    match remade(&GivenImage { words: image }, first_of(&words), words[1]) {
        Some(pieces) => pieces,
        None => unreachable!(),
    }
}

/// The first address of a page of code.
fn first_of(words: &[u16; 128]) -> u16
    requires original { word_at words.now 0 < most_image_pages }
    ensures value { result ≡ first_told words.now }
{
    PAGE_WORDS * words[0] + words[2] / 256
}
