//! How many pages of the pool are used.

ghost use Rattle.std.specs.Prelude.{◌≡◌};
ghost use Rattle.flash_words.specs.Layouts.{IsRight};
ghost use Rattle.flash_words.specs.Memory.{IsWhole};
ghost use Rattle.nat_page.specs.Used.{used_pages};

use flash_model::{BLANK, Flash, Layout, PAGE_WORDS};

/// How many pages of the pool are used: those whose first word isn't erased.
pub fn pages_in_use(flash: &Flash, layout: &Layout) -> u16
    requires right { IsRight layout.now }
    ensures value { result ≡ used_pages layout.now flash.now.words }
    ensures whole { IsWhole flash.now }
{
    let mut pages = 0;
    for i in 0..layout.pool_pages {
        if flash.word(PAGE_WORDS * (layout.pool_first + i)) != BLANK {
            pages += 1;
        }
    }
    pages
}
