//! A page as a loss of power may leave it.

ghost use Rattle.std.specs.Prelude.{◌≡◌, ℕ, List, ◌<◌, ◌^◌, []};
ghost use Rattle.flash_words.specs.Pages.{page_count};
ghost use Rattle.flash_words.specs.Layouts.{IsRight};
ghost use Rattle.flash_words.specs.declared.layout.Layout.{Layout};
ghost use Rattle.flash_words.specs.Operations.{erased_page, programmed_page};
ghost use Rattle.page_index.specs.Maps.{IsPool};
ghost use Rattle.pool_check.specs.Links.{HaveFormsAround};

use crate::operating::{erase, program};
use flash_model::Flash;

/// Gives a page these words, by an erase and a program: so a loss of power may leave it, whatever they are.
pub fn tear(flash: &mut Flash, page: u16, words: &[u16; 128])
    requires page { page < page_count }
    requires sound { flash.old.failing ≡ [] }
    requires room { flash.old.ops < 2 ^ 62 }
    ensures after { flash.new ≡ programmed_page (erased_page flash.old page) page words.now }
    // Where it is a page of the pool, those outside the pool have the form that they had.
    ensures around { (layout : Layout) → (image : List ℕ) → IsRight layout → IsPool layout page
        → HaveFormsAround layout image flash.old.words → HaveFormsAround layout image flash.new.words }
{
    erase(flash, page);
    program(flash, page, words);
}
