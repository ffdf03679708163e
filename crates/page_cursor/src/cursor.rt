//! The original address of a place, for control that mostly comes where it was before.

ghost use Rattle.std.specs.Prelude.{◌≡◌, ℕ, List, ◌/◌, ◌<◌, true, false, IfOk, IfSome};
ghost use Rattle.flash_words.specs.declared.layout.Layout.{Layout as LayoutOf};
ghost use Rattle.flash_words.specs.Layouts.{IsRight};
ghost use Rattle.page_index.specs.Maps.{IsPool, IsMap, entry_count};
ghost use Rattle.page_index.specs.Entries.{IsEntry, IsMapped};
ghost use Rattle.page_cursor.specs.Marks.{IsNoted, IsQuietIn, KeepsOthers, Tells};
ghost use Rattle.page_cursor.specs.Cursors.{AreNoted, HaveSameBeside, IsCursor, IsCursorAnywhere, IsPassed};

use crate::marks::{Mark, Marks};
use flash_model::{Flash, KERNEL_FIRST, Layout, MOST_IMAGE_WORDS, PAGE_WORDS};
use kept_drafts::Hints;
use page_index::{address_at, entries, is_free, is_in_pool, place_at};
use std::alloc::{AllocError, Global};

/// How many addresses an image has at most.
const ADDRESSES: usize = MOST_IMAGE_WORDS as usize;

/// For each place whether an entry begins there, and of which address, once control was in its page. [`Cursor::origin`]
/// answers as [`origin`] does, and reads the map of a page where nothing is known of the place. A cursor is right for one
/// state of flash; where entries have changed, let it forget.
///
/// [`origin`]: page_index::origin
#[derive(Drop)]
pub struct Cursor {
    /// What is known of places.
    marks: Marks,
    /// For each original address the place of its entry that was read last, in whatever state of flash. What is known of
    /// the place tells whether it is one still.
    placed: [u16; ADDRESSES],
    /// What is remembered for arrivals, in whatever state of flash.
    pub hints: Hints,
}

impl Cursor {
    /// A cursor that knows nothing yet.
    #[inline(always)]
    pub fn new() -> Cursor
        ensures right { IsCursorAnywhere result }
    {
        let mut cursor = Cursor::zeros();
        cursor.forget();
        cursor
    }

    /// A new cursor on the heap, since it is large, with room for drafts. Not inlined, so that it is made there alone.
    #[inline(never)]
    pub fn boxed(alloc: Global) -> Result<Box<Cursor>, AllocError>
        ensures right { IfOk result (λ cursor. IsCursorAnywhere cursor.value) }
    {
        let mut cursor = Box::new(alloc, Cursor::zeros())?;
        cursor.forget();
        cursor.hints.drafts.make_room(alloc);
        Ok(cursor)
    }

    /// A cursor of zeros, which is to forget first: its marks tell of entries that aren't there.
    #[inline(always)]
    fn zeros() -> Cursor {
        Cursor {
            marks: Marks::zeros(),
            placed: [0; ADDRESSES],
            hints: Hints::new(),
        }
    }

    /// Forgets all that it knows of places, in less time than a new one is made.
    pub fn forget(&mut self)
        ensures right { IsCursorAnywhere self.new }
    {
        self.marks.forget();
    }

    /// Forgets what it knows of the places of a page, which may have other entries now. Those of other pages stayed.
    pub fn forget_page(&mut self, page: u16)
        requires page { page < 512 }
        ensures right { (layout : LayoutOf) (words new : List ℕ) → HaveSameBeside layout words new page → IsCursor layout words self.old → IsCursor layout new self.new }
    {
        self.marks.forget_page(page);
    }

    /// Whether it is known that no entry begins at this place, and that it is none of the kernel's words.
    #[inline(always)]
    pub fn passes(&self, place: u16) -> bool
        ensures passed { result ≡ true → IsPassed self.entry.now place }
    {
        self.marks.is_quiet(place)
    }

    /// What is known of a place, a word address of flash.
    #[inline(always)]
    pub fn mark(&self, place: usize) -> Mark
        requires place { place < 65536 }
        ensures told { Tells self.entry.now.marks place result }
    {
        self.marks.mark(place)
    }

    /// The original address whose code begins at this place, a word address of flash; None where that
    /// is no entry's place.
    #[inline(always)]
    pub fn origin(&mut self, flash: &Flash, layout: &Layout, place: u16) -> Option<u16>
        requires right { IsRight layout.now }
        requires mapped { IsMapped layout.now flash.now.words }
        requires cursor { IsCursor layout.now flash.now.words self.old }
        ensures found { IfSome result (λ t. IsEntry layout.now flash.now.words t place) }
        ensures only { (t : ℕ) → IsEntry layout.now flash.now.words t place → result ≡ Some t }
        ensures cursor { IsCursor layout.now flash.now.words self.new }
    {
        if let Some(address) = self.marks.address(place) {
            return Some(address);
        }
        if self.passes(place) {
            return None;
        }
        // No entry begins in the kernel's words.
        if place >= KERNEL_FIRST {
            return None;
        }
        self.find(flash, layout, place)
    }

    /// What [`Cursor::origin`] gives at a place of which nothing is known: its page is read.
    #[inline(never)]
    fn find(&mut self, flash: &Flash, layout: &Layout, place: u16) -> Option<u16>
        requires right { IsRight layout.now }
        requires mapped { IsMapped layout.now flash.now.words }
        requires cursor { IsCursor layout.now flash.now.words self.old }
        requires low { place < 0xF000 }
        ensures found { IfSome result (λ t. IsEntry layout.now flash.now.words t place) }
        ensures only { (t : ℕ) → IsEntry layout.now flash.now.words t place → result ≡ Some t }
        ensures cursor { IsCursor layout.now flash.now.words self.new }
    {
        self.read_page(flash, layout, place / PAGE_WORDS);
        self.marks.address(place)
    }

    /// Reads the page's map, so that all of its places are known.
    fn read_page(&mut self, flash: &Flash, layout: &Layout, page: u16)
        requires right { IsRight layout.now }
        requires mapped { IsMapped layout.now flash.now.words }
        requires cursor { IsCursor layout.now flash.now.words self.old }
        requires below_kernel { page < 480 }
        ensures read { (t place : ℕ) → place / 128 ≡ page → IsEntry layout.now flash.now.words t place → IsNoted self.new.marks place t }
        ensures cursor { IsCursor layout.now flash.now.words self.new }
    {
        self.marks.make_room();
        self.marks.quiet_page(page);
        if !is_code_page(flash, layout, page) {
            return;
        }
        note_entries(&mut self.marks, &mut self.placed, flash, page);
    }

    /// The place, a word address of flash, where the code of the original address `t` begins, if that is known or the hint at
    /// `t` leads there.
    #[inline(always)]
    pub fn go_to(&mut self, flash: &Flash, layout: &Layout, t: u16) -> Option<u16>
        requires right { IsRight layout.now }
        requires mapped { IsMapped layout.now flash.now.words }
        requires cursor { IsCursor layout.now flash.now.words self.old }
        ensures found { IfSome result (λ v. IsEntry layout.now flash.now.words t v) }
        ensures cursor { IsCursor layout.now flash.now.words self.new }
    {
        if usize::from(t) < ADDRESSES {
            let place = self.placed[usize::from(t)];
            if self.marks.has(place, t) {
                return Some(place);
            }
        }
        match self.hints.places.hinted(flash, layout, t) {
            None => None,
            Some(listed) => Some(listed.place),
        }
    }
}

/// Whether the page is one of the pool that isn't free.
fn is_code_page(flash: &Flash, layout: &Layout, page: u16) -> bool
    requires right { IsRight layout.now }
    requires mapped { IsMapped layout.now flash.now.words }
    ensures map { result ≡ true → IsPool layout.now page × IsMap flash.now.words page }
    ensures none { result ≡ false → (t place : ℕ) → place / 128 ≡ page → ¬ IsEntry layout.now flash.now.words t place }
{
    if !is_in_pool(layout, page) {
        return false;
    }
    if is_free(flash, page) {
        return false;
    }
    true
}

/// Notes all entries of the page, where it was noted that none begins.
fn note_entries(marks: &mut Marks, placed: &mut [u16; ADDRESSES], flash: &Flash, page: u16)
    requires below_kernel { page < 480 }
    requires map { IsMap flash.now.words page }
    requires quiet { IsQuietIn marks.old page }
    ensures noted { AreNoted flash.now.words marks.new page (entry_count flash.now.words page) }
    ensures others { KeepsOthers marks.old marks.new page }
{
    'entries: for i in 0..entries(flash, page) {
        let place = place_at(flash, page, i);
        let address = address_at(flash, page, i);
        marks.note(place, address);
        placed[usize::from(address)] = place;
    }
}
