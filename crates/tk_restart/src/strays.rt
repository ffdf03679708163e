//! Links that lead to no entry.

ghost use Rattle.std.specs.Prelude.{◌≡◌, ◌<◌};
ghost use Rattle.flash_words.specs.Layouts.{most_entries};
ghost use Rattle.tk_restart.specs.Strays.{is_stray, is_listed, is_item};

use flash_model::{FIRST_ENTRY, Flash, Layout, MOST_ENTRIES, MOST_IMAGE_PAGES, PAGE_WORDS};
use nat_page::LinkTest;

/// Those links that jump to a place which no page of the pool has an entry of their target at.
#[derive(Clone, Copy)]
pub(crate) struct Strays<'a> {
    /// The flash.
    pub flash: &'a Flash,
    /// How it is divided.
    pub layout: &'a Layout,
}

impl LinkTest for Strays<'_> {
    ghost use Rattle.tk_restart.specs.Strays.{is_stray};

    ghost test = { λ strays. is_stray strays.layout.now strays.flash.now.words };

    fn picks(&self, t: u16, place: u16) -> bool {
        leads_nowhere(self.flash, self.layout, t, place)
    }
}

/// Whether a link to `t` that jumps to this place leads to no entry of `t`.
fn leads_nowhere(flash: &Flash, layout: &Layout, t: u16, place: u16) -> bool
    ensures value { result ≡ is_stray layout.now flash.now.words t place }
{
    let page = place / PAGE_WORDS;
    if page < layout.pool_first {
        return true;
    }
    if page - layout.pool_first >= layout.pool_pages {
        return true;
    }
    !lists(flash, t, place)
}

/// Whether the page of a place has an entry of `t` there.
fn lists(flash: &Flash, t: u16, place: u16) -> bool
    ensures value { result ≡ is_listed flash.now.words t place }
{
    if flash.word(place / PAGE_WORDS * PAGE_WORDS) >= MOST_IMAGE_PAGES {
        return false;
    }
    'entries: for i in 0..MOST_ENTRIES {
        if is_entry(flash, i, t, place) {
            return true;
        }
    }
    false
}

/// Whether entry `i` of the page of a place is of `t`, and there.
fn is_entry(flash: &Flash, i: u16, t: u16, place: u16) -> bool
    requires near { i < most_entries }
    ensures value { result ≡ is_item flash.now.words t place i }
{
    let first = place / PAGE_WORDS * PAGE_WORDS;
    if i >= flash.word(first + 1) {
        return false;
    }
    let entry = flash.word(first + FIRST_ENTRY + i);
    let original = u32::from(flash.word(first));
    if 128 * original + u32::from(entry / 256) != u32::from(t) {
        return false;
    }
    entry % 256 == place % PAGE_WORDS
}
