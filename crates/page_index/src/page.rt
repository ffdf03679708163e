//! One page of the pool and its map.

ghost use Rattle.std.specs.Prelude.{◌≡◌, ℕ, ◌+◌, ◌*◌, ◌/◌, ◌%◌, ◌<◌, ◌↔◌, ◌⊎◌, true, false, length, slice_index_or, IsTrue, IfSome};
ghost use Rattle.flash_words.specs.Pages.{page_count};
ghost use Rattle.page_index.specs.Maps.{page_word, entry_count, address_of, place_of, IsFree, IsMap};
ghost use Rattle.page_index.specs.Entries.{Lists};

use flash_model::{BLANK, FIRST_ENTRY, Flash, PAGE_WORDS};

/// An entry of a map.
#[derive(Clone, Copy)]
struct MapEntry {
    /// Where in the original page the address lies.
    offset: u16,
    /// Where in this page its code begins.
    place: u16,
}

/// Whether the page is free: its first word tells, since no map begins with 0xFFFF.
pub fn is_free(flash: &Flash, page: u16) -> bool
    requires below_kernel { page < 480 }
    requires mapped { IsFree flash.now.words page ⊎ IsMap flash.now.words page }
    ensures value { IsTrue result ↔ IsFree flash.now.words page }
{
    word(flash, page, 0) == BLANK
}

/// The place of the original address `t`, where this page has its entry.
pub fn place_in(flash: &Flash, page: u16, t: u16) -> Option<u16>
    requires below_kernel { page < 480 }
    requires mapped { IsFree flash.now.words page ⊎ IsMap flash.now.words page }
    ensures found { IfSome result (λ v. (i : ℕ) × Lists flash.now.words page i t v) }
    ensures only { (i v : ℕ) → Lists flash.now.words page i t v → result ≡ Some v }
{
    if word(flash, page, 0) != t / PAGE_WORDS {
        return None;
    }
    for i in 0..entries(flash, page) {
        let entry = map_entry(flash, page, i);
        if entry.offset == t % PAGE_WORDS {
            return Some(PAGE_WORDS * page + entry.place);
        }
    }
    None
}

/// The place of the original address `t`, where the entry with this number is of `t`. The page may have fewer entries.
pub(crate) fn place_if_listed(flash: &Flash, page: u16, i: u16, t: u16) -> Option<u16>
    requires below_kernel { page < 480 }
    requires mapped { IsFree flash.now.words page ⊎ IsMap flash.now.words page }
    requires inside { i + 2 < 128 }
    ensures found { IfSome result (λ v. Lists flash.now.words page i t v) }
{
    let original = word(flash, page, 0);
    if original != t / PAGE_WORDS {
        return None;
    }
    if i >= entries(flash, page) {
        return None;
    }
    let entry = map_entry(flash, page, i);
    if entry.offset != t % PAGE_WORDS {
        return None;
    }
    Some(PAGE_WORDS * page + entry.place)
}

/// Marks the offsets of this page's entries, where it is of this original page.
pub(crate) fn mark_offsets(flash: &Flash, page: u16, original: u16, known: &mut [bool; 128])
    requires below_kernel { page < 480 }
    requires mapped { IsFree flash.now.words page ⊎ IsMap flash.now.words page }
    requires original { original < page_count }
    ensures size { length known.new ≡ length known.old }
    ensures kept { (k : ℕ) → slice_index_or known.old k false ≡ true → slice_index_or known.new k false ≡ true }
    ensures marked { (k i v : ℕ) → k < 128 → Lists flash.now.words page i (128 * original + k) v → slice_index_or known.new k false ≡ true }
    ensures only { (k : ℕ) → k < 128 → slice_index_or known.new k false ≡ true
        → (slice_index_or known.old k false ≡ true) ⊎ ((i : ℕ) × (v : ℕ) × Lists flash.now.words page i (128 * original + k) v) }
{
    if word(flash, page, 0) != original {
        return;
    }
    'entries: for i in 0..entries(flash, page) {
        known[map_entry(flash, page, i).offset as usize] = true;
    }
}

/// Takes the marks off the offsets of this page's entries, where it is of this original page.
pub fn unmark_offsets(flash: &Flash, page: u16, original: u16, known: &mut [bool; 128])
    requires below_kernel { page < 480 }
    requires mapped { IsFree flash.now.words page ⊎ IsMap flash.now.words page }
    requires original { original < page_count }
    ensures size { length known.new ≡ length known.old }
    ensures only { (k : ℕ) → slice_index_or known.new k false ≡ true → slice_index_or known.old k false ≡ true }
    ensures unmarked { (k i v : ℕ) → k < 128 → Lists flash.now.words page i (128 * original + k) v → slice_index_or known.new k false ≡ false }
    ensures kept { (k : ℕ) → k < 128 → slice_index_or known.old k false ≡ true
        → (slice_index_or known.new k false ≡ true) ⊎ ((i : ℕ) × (v : ℕ) × Lists flash.now.words page i (128 * original + k) v) }
{
    if word(flash, page, 0) != original {
        return;
    }
    'entries: for i in 0..entries(flash, page) {
        known[map_entry(flash, page, i).offset as usize] = false;
    }
}

/// The original address whose place is this, where this page has such an entry.
pub(crate) fn address_in(flash: &Flash, page: u16, place: u16) -> Option<u16>
    requires below_kernel { page < 480 }
    requires mapped { IsFree flash.now.words page ⊎ IsMap flash.now.words page }
    ensures found { IfSome result (λ t. (i : ℕ) × Lists flash.now.words page i t place) }
    ensures only { (i t : ℕ) → Lists flash.now.words page i t place → result ≡ Some t }
{
    if is_free(flash, page) {
        return None;
    }
    for i in 0..entries(flash, page) {
        let entry = map_entry(flash, page, i);
        if PAGE_WORDS * page + entry.place == place {
            return Some(PAGE_WORDS * word(flash, page, 0) + entry.offset);
        }
    }
    None
}

/// The number of the page's entries.
pub fn entries(flash: &Flash, page: u16) -> u16
    requires below_kernel { page < 480 }
    requires map { IsMap flash.now.words page }
    ensures value { result ≡ entry_count flash.now.words page }
    ensures bound { result + 2 < 128 }
{
    word(flash, page, 1)
}

/// The original address of entry `i` of the page.
pub fn address_at(flash: &Flash, page: u16, i: u16) -> u16
    requires below_kernel { page < 480 }
    requires map { IsMap flash.now.words page }
    requires listed { i < entry_count flash.now.words page }
    ensures value { result ≡ address_of flash.now.words page i }
{
    PAGE_WORDS * word(flash, page, 0) + map_entry(flash, page, i).offset
}

/// The place of entry `i` of the page.
pub fn place_at(flash: &Flash, page: u16, i: u16) -> u16
    requires below_kernel { page < 480 }
    requires map { IsMap flash.now.words page }
    requires listed { i < entry_count flash.now.words page }
    ensures value { result ≡ place_of flash.now.words page i }
{
    PAGE_WORDS * page + map_entry(flash, page, i).place
}

/// Entry `i` of the page.
fn map_entry(flash: &Flash, page: u16, i: u16) -> MapEntry
    requires below_kernel { page < 480 }
    requires inside { i + 2 < 128 }
    ensures offset { result.offset ≡ page_word flash.now.words page (2 + i) / 256 }
    ensures place { result.place ≡ page_word flash.now.words page (2 + i) % 256 }
{
    let word = word(flash, page, FIRST_ENTRY + i);
    MapEntry {
        offset: word / 256,
        place: word % 256,
    }
}

/// Word `k` of the page.
fn word(flash: &Flash, page: u16, k: u16) -> u16
    requires below_kernel { page < 480 }
    requires inside { k < 128 }
    ensures value { result ≡ page_word flash.now.words page k }
{
    flash.word(PAGE_WORDS * page + k)
}
