//! What is known of places, for one state of flash.

ghost use Rattle.std.specs.Prelude.{◌≡◌, ◌≢◌, ◌/◌, ◌<◌, ◌⊎◌, ℕ, true, false, length, IfSome, slice_index_or};
ghost use Rattle.page_cursor.specs.Marks.{no_entry, with_address, IsQuietAt, IsUnknownAt, StaysAt, IsNoted, IsFresh, IsQuietIn, IsListed, KeepsOthers, Tells};

use flash_model::PAGE_WORDS;
use std::marker::Model;

/// How many places there are.
const PLACES: usize = 65536;

/// How many pages there are.
const PAGES: usize = 512;

/// How many places there are in a page.
const PAGE_PLACES: usize = PAGE_WORDS as usize;

/// The mark of a place where no entry is known. Each lower one is the original address of the entry that begins there, as it
/// stands.
const NO_ENTRY: u16 = 0xFFFF;

/// What is known of a place, a word address of flash.
#[derive(Clone, Copy)]
pub enum Mark {
    /// Nothing.
    Unknown,
    /// No entry begins there, and it is none of the kernel's words.
    Quiet,
    /// The entry of this original address begins there.
    Entry(u16),
}

/// For each place what is known of it.
#[derive(Drop)]
pub(crate) struct Marks {
    /// By the place whether it was noted that no entry begins there. It stands apart from the marks, since most moves of a
    /// program ask for nothing else.
    quiet: [bool; 65536],
    /// By the place its mark.
    marks: [u16; 65536],
    /// The pages of which something is noted: those of number `room` and further on.
    pages: [u16; 512],
    /// How many more there may be. Where it is 0 something may be noted of any page.
    room: usize,
}

impl Model for Marks {
    ghost use Rattle.page_cursor.specs.Marks.{Marking, IsCovered};

    ghost Value = { Marking };

    ghost view = { λ m. record { quiet = m.quiet; marks = m.marks; pages = m.pages; room = m.room } };

    ghost invariant = { λ m. IsCovered (record { quiet = m.quiet; marks = m.marks; pages = m.pages; room = m.room }) };
}

impl Marks {
    /// Marks that are to be forgotten first: zeros throughout, since such a value is made on the heap without one on the stack.
    #[inline(always)]
    pub(crate) fn zeros() -> Marks {
        Marks {
            quiet: [false; PLACES],
            marks: [0; PLACES],
            pages: [0; PAGES],
            room: 0,
        }
    }

    /// Forgets all.
    pub(crate) fn forget(&mut self)
        ensures fresh { IsFresh self.new }
        ensures room { 0 < self.new.room }
    {
        if self.room == 0 {
            clear_all(&mut self.quiet, &mut self.marks);
        } else {
            clear_pages(&mut self.quiet, &mut self.marks, &self.pages, self.room);
        }
        self.room = PAGES;
    }

    /// Forgets all of one page.
    pub(crate) fn forget_page(&mut self, page: u16)
        requires page { page < 512 }
        ensures forgotten { (place : ℕ) → place / 128 ≡ page → IsUnknownAt self.new.quiet self.new.marks place }
        ensures others { KeepsOthers self.old self.new page }
    {
        fill_page(&mut self.quiet, &mut self.marks, page, false);
    }

    /// Forgets all where no other page can be read.
    pub(crate) fn make_room(&mut self)
        ensures kept { (self.new ≡ self.old) ⊎ IsFresh self.new }
        ensures room { 0 < self.new.room }
    {
        if self.room == 0 {
            self.forget();
        }
    }

    /// Whether it was noted that no entry begins at the place.
    #[inline(always)]
    pub(crate) fn is_quiet(&self, place: u16) -> bool
        ensures quiet { result ≡ true → IsQuietAt self.now place }
    {
        self.quiet[place as usize]
    }

    /// What is known of the place.
    #[inline(always)]
    pub(crate) fn mark(&self, place: usize) -> Mark
        requires place { place < 65536 }
        ensures told { Tells self.now place result }
    {
        if self.quiet[place] {
            return Mark::Quiet;
        }
        match self.marks[place] {
            NO_ENTRY => Mark::Unknown,
            address => Mark::Entry(address),
        }
    }

    /// The original address of the entry at the place, if one was noted.
    #[inline(always)]
    pub(crate) fn address(&self, place: u16) -> Option<u16>
        ensures noted { IfSome result (λ t. IsNoted self.now place t) }
        ensures only { (t : ℕ) → IsNoted self.now place t → result ≡ Some t }
    {
        match self.marks[place as usize] {
            NO_ENTRY => None,
            address => Some(address),
        }
    }

    /// Whether this is noted as the original address of the entry at the place.
    #[inline(always)]
    pub(crate) fn has(&self, place: u16, address: u16) -> bool
        requires address { address < 65535 }
        ensures noted { result ≡ true → IsNoted self.now place address }
    {
        self.marks[place as usize] == address
    }

    /// Notes that no entry begins in the page.
    pub(crate) fn quiet_page(&mut self, page: u16)
        requires page { page < 512 }
        requires room { 0 < self.old.room }
        ensures quiet { IsQuietIn self.new page }
        ensures others { KeepsOthers self.old self.new page }
    {
        self.room -= 1;
        self.pages[self.room] = page;
        fill_page(&mut self.quiet, &mut self.marks, page, true);
    }

    /// Notes the original address of the entry at the place.
    #[inline(always)]
    pub(crate) fn note(&mut self, place: u16, address: u16)
        requires known { ¬ IsUnknownAt self.old.quiet self.old.marks place }
        ensures marks { self.new ≡ with_address self.old place address }
        ensures sizes { (length self.old.quiet ≡ 65536) × (length self.old.marks ≡ 65536) }
    {
        self.quiet[place as usize] = false;
        self.marks[place as usize] = address;
    }
}

/// Nothing is known of any place from now on. Not inlined, so that they are cleared where they stand.
#[inline(never)]
fn clear_all(quiet: &mut [bool; 65536], marks: &mut [u16; 65536])
    ensures clear { (place : ℕ) → place < 65536 → IsUnknownAt quiet.new marks.new place }
{
    'quiet: for place in 0..PLACES {
        quiet[place] = false;
    }
    'marks: for place in 0..PLACES {
        marks[place] = NO_ENTRY;
    }
}

/// Nothing is known any more of any place of these pages from one number on.
fn clear_pages(quiet: &mut [bool; 65536], marks: &mut [u16; 65536], pages: &[u16; 512], from: usize)
    requires covered { (place : ℕ) → place < 65536 → IsListed pages.now from (place / 128) ⊎ IsUnknownAt quiet.old marks.old place }
    ensures clear { (place : ℕ) → place < 65536 → IsUnknownAt quiet.new marks.new place }
{
    'pages: for i in from..PAGES {
        fill_page(quiet, marks, pages[i] % PAGES as u16, false);
    }
}

/// No entry is known in the page: none begins there, or nothing is known of it.
fn fill_page(quiet: &mut [bool; 65536], marks: &mut [u16; 65536], page: u16, none_begins: bool)
    requires page { page < 512 }
    ensures filled { (place : ℕ) → place / 128 ≡ page → (slice_index_or quiet.new place false ≡ none_begins) × (slice_index_or marks.new place 0 ≡ no_entry) }
    ensures others { (place : ℕ) → place / 128 ≢ page → StaysAt quiet.new marks.new quiet.old marks.old place }
{
    let first = usize::from(page) * PAGE_PLACES;
    'places: for k in 0..PAGE_PLACES {
        quiet[first + k] = none_begins;
        marks[first + k] = NO_ENTRY;
    }
}
