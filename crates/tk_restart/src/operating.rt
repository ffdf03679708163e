//! Operations on a flash of which none is to fail.

ghost use Rattle.std.specs.Prelude.{◌≡◌, ◌<◌, ◌^◌, []};
ghost use Rattle.flash_words.specs.Pages.{page_of, blank, page_count};
ghost use Rattle.flash_words.specs.Memory.{IsWhole};
ghost use Rattle.flash_words.specs.Operations.{erased_page, programmed_page};

use flash_model::Flash;

/// Erases a page.
pub(crate) fn erase(flash: &mut Flash, page: u16)
    requires page { page < page_count }
    requires sound { flash.old.failing ≡ [] }
    requires room { flash.old.ops < 2 ^ 63 }
    ensures after { flash.new ≡ erased_page flash.old page }
    ensures whole { IsWhole flash.old × IsWhole flash.new }
{
    match flash.erase(page) {
        Ok(()) => {}
        Err(_) => unreachable!(),
    }
}

/// Programs a page that is erased.
pub(crate) fn program(flash: &mut Flash, page: u16, words: &[u16; 128])
    requires page { page < page_count }
    requires sound { flash.old.failing ≡ [] }
    requires room { flash.old.ops < 2 ^ 63 }
    requires erased { page_of flash.old.words page ≡ blank }
    ensures after { flash.new ≡ programmed_page flash.old page words.now }
{
    match flash.program(page, words) {
        Ok(()) => {}
        Err(_) => unreachable!(),
    }
}
