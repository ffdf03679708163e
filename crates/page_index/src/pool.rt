//! The search in all pages of the pool.

ghost use Rattle.std.specs.Prelude.{◌≡◌, ℕ, ◌<◌, ◌↔◌, IsTrue, IfSome, IfNone};
ghost use Rattle.flash_words.specs.Pages.{page_count};
ghost use Rattle.flash_words.specs.Layouts.{IsRight};
ghost use Rattle.page_index.specs.Maps.{IsPool, IsFree};
ghost use Rattle.page_index.specs.Entries.{IsEntry, IsMapped, AreKnown};

use crate::page::{address_in, is_free, mark_offsets, place_in};
use flash_model::{BLANK, Flash, Layout, PAGE_WORDS};

/// The place, a word address of flash, where the code of the original address `t` begins; None where
/// no page has an entry of it.
pub fn entry(flash: &Flash, layout: &Layout, t: u16) -> Option<u16>
    requires right { IsRight layout.now }
    requires mapped { IsMapped layout.now flash.now.words }
    ensures found { IfSome result (λ v. IsEntry layout.now flash.now.words t v) }
    ensures only { (v : ℕ) → IsEntry layout.now flash.now.words t v → result ≡ Some v }
{
    for page in layout.pool_first..layout.pool_first + layout.pool_pages {
        if let Some(place) = place_in(flash, page, t) {
            return Some(place);
        }
    }
    None
}

/// For each address of this original page, by its offset there, whether some page of the pool has an entry of it.
/// One pass along the pool, for one who asks for many of its addresses.
pub fn known_offsets(flash: &Flash, layout: &Layout, original: u16) -> [bool; 128]
    requires right { IsRight layout.now }
    requires mapped { IsMapped layout.now flash.now.words }
    requires original { original < page_count }
    ensures known { AreKnown layout.now flash.now.words original result }
{
    let mut known = [false; 128];
    let end = layout.pool_first + layout.pool_pages;
    let mut from = layout.pool_first;
    'pages: while let Some(page) = flash.page_beginning(from, end, original) {
        mark_offsets(flash, page, original, &mut known);
        from = page + 1;
    }
    known
}

/// The original address whose code begins at this place, a word address of flash; None where that is
/// no entry's place.
///
/// This is the plain form: the program calls `origin` of `page_cursor`, which marks what is known of each place.
pub fn origin(flash: &Flash, layout: &Layout, place: u16) -> Option<u16>
    requires right { IsRight layout.now }
    requires mapped { IsMapped layout.now flash.now.words }
    ensures found { IfSome result (λ t. IsEntry layout.now flash.now.words t place) }
    ensures only { (t : ℕ) → IsEntry layout.now flash.now.words t place → result ≡ Some t }
{
    let page = place / PAGE_WORDS;
    if is_in_pool(layout, page) {
        address_in(flash, page, place)
    } else {
        None
    }
}

/// The lowest page of the pool that is free; None where none is.
pub fn free_page(flash: &Flash, layout: &Layout) -> Option<u16>
    requires right { IsRight layout.now }
    requires mapped { IsMapped layout.now flash.now.words }
    ensures free { IfSome result (λ page. IsPool layout.now page × IsFree flash.now.words page) }
    ensures lowest { IfSome result (λ page. (lower : ℕ) → IsPool layout.now lower → lower < page → ¬ IsFree flash.now.words lower) }
    ensures none { IfNone result ((page : ℕ) → IsPool layout.now page → ¬ IsFree flash.now.words page) }
{
    let end = layout.pool_first + layout.pool_pages;
    let mut from = layout.pool_first;
    'pages: while let Some(page) = flash.page_beginning(from, end, BLANK) {
        if is_free(flash, page) {
            return Some(page);
        }
        from = page + 1;
    }
    None
}

/// Whether the page is one of the pool.
pub fn is_in_pool(layout: &Layout, page: u16) -> bool
    requires right { IsRight layout.now }
    ensures value { IsTrue result ↔ IsPool layout.now page }
{
    layout.pool_first <= page && page < layout.pool_first + layout.pool_pages
}
