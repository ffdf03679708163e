//! Where entries of original addresses were seen last, so that most are found without a search of all pages.

ghost use Rattle.std.specs.Prelude.{◌≡◌, ℕ, ◌/◌, ◌<◌, IfSome, IfOk, IfErr};
ghost use Rattle.flash_words.specs.Layouts.{IsRight};
ghost use Rattle.flash_words.specs.Pages.{page_count};
ghost use Rattle.page_index.specs.Entries.{IsEntry, IsListed, IsMapped};
ghost use Rattle.page_index.specs.Surveys.{IsSurvey};

use crate::page::place_if_listed;
use crate::pool::{entry, is_in_pool};
use crate::survey::{Survey, survey_of};
use flash_model::{FIRST_ENTRY, Flash, Layout, MOST_ENTRIES, MOST_IMAGE_WORDS, PAGE_WORDS};

/// How many addresses an image has at most.
const ADDRESSES: usize = MOST_IMAGE_WORDS as usize;

/// An entry of the pool, as a hint leads to it.
#[derive(Clone, Copy)]
pub struct Listed {
    /// The word address in flash of the map's word that lists it.
    pub word: u16,
    /// Its place, a word address of flash.
    pub place: u16,
}

/// For each original address a hint, where an entry of it was seen last. A hint is checked against flash where it is
/// read. So it may come from any flash, and nothing has to be forgotten where flash changes.
#[derive(Clone, Copy)]
pub struct Places {
    /// By the address, the word address in flash of the map's word that listed it; 0 where none was seen.
    listed: [u16; ADDRESSES],
}

impl Places {
    /// Places with no hint.
    pub fn new() -> Places {
        Places {
            listed: [0; ADDRESSES],
        }
    }

    /// The place, a word address of flash, where the code of the original address `t` begins, as [`entry`] finds it.
    /// Where no page has an entry of it, an `Err` tells what a page of `t` wants to know of the pool.
    ///
    /// [`entry`]: crate::entry
    pub fn find(&mut self, flash: &Flash, layout: &Layout, t: u16) -> Result<u16, Survey>
        requires right { IsRight layout.now }
        requires mapped { IsMapped layout.now flash.now.words }
        ensures found { IfOk result (λ v. IsEntry layout.now flash.now.words t v) }
        ensures only { (v : ℕ) → IsEntry layout.now flash.now.words t v → result ≡ Ok v }
        ensures survey { IfErr result (IsSurvey layout.now flash.now.words (t / 128)) }
    {
        match self.hinted(flash, layout, t) {
            Some(listed) => Ok(listed.place),
            None => self.search(flash, layout, t),
        }
    }

    /// The entry that the hint leads to, where the map's word that it names lists the address.
    #[inline(always)]
    pub fn hinted(&self, flash: &Flash, layout: &Layout, t: u16) -> Option<Listed>
        requires right { IsRight layout.now }
        requires mapped { IsMapped layout.now flash.now.words }
        ensures found { IfSome result (λ l. IsListed layout.now flash.now.words l.word t l.place) }
    {
        if usize::from(t) >= ADDRESSES {
            return None;
        }
        let listed = self.listed[usize::from(t)];
        let page = listed / PAGE_WORDS;
        if listed % PAGE_WORDS < FIRST_ENTRY || !is_in_pool(layout, page) {
            return None;
        }
        match place_if_listed(flash, page, listed % PAGE_WORDS - FIRST_ENTRY, t) {
            Some(place) => Some(Listed {
                word: listed,
                place,
            }),
            None => None,
        }
    }

    /// Finds the place by a search of all pages, without the hints. The entries of a page that has one of `t` get their hints.
    #[inline(never)]
    fn search(&mut self, flash: &Flash, layout: &Layout, t: u16) -> Result<u16, Survey>
        requires right { IsRight layout.now }
        requires mapped { IsMapped layout.now flash.now.words }
        ensures found { IfOk result (λ v. IsEntry layout.now flash.now.words t v) }
        ensures only { (v : ℕ) → IsEntry layout.now flash.now.words t v → result ≡ Ok v }
        ensures survey { IfErr result (IsSurvey layout.now flash.now.words (t / 128)) }
    {
        let survey = survey_of(flash, layout, t / PAGE_WORDS);
        if !survey.known[(t % PAGE_WORDS) as usize] {
            return Err(survey);
        }
        match entry(flash, layout, t) {
            Some(place) => {
                self.note_page(flash, place / PAGE_WORDS);
                Ok(place)
            }
            None => Err(survey),
        }
    }

    /// Notes a hint at each address that the page lists, if it is a code page.
    pub fn note_page(&mut self, flash: &Flash, page: u16)
        requires page { page < page_count }
    {
        let first = PAGE_WORDS * page;
        let original = usize::from(PAGE_WORDS) * usize::from(flash.word(first));
        for i in 0..flash.word(first + 1).min(MOST_ENTRIES) {
            let listed = first + FIRST_ENTRY + i;
            let address = original + usize::from(flash.word(listed) / 256);
            if address < ADDRESSES {
                self.listed[address] = listed;
            }
        }
    }
}
