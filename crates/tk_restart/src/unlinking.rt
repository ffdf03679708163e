//! The second pass over the pool: stubs that lead to no entry call the kernel's bridge again.

ghost use Rattle.std.specs.Prelude.{◌≡◌, ◌+◌, ◌<◌, ◌^◌, ◌⊎◌, [], length};
ghost use Rattle.flash_words.specs.Layouts.{IsRight, image_of};
ghost use Rattle.flash_words.specs.Memory.{IsWhole};
ghost use Rattle.page_index.specs.Maps.{IsPool, IsFree};
ghost use Rattle.page_draft.specs.CodePages.{IsCodePage};
ghost use Rattle.tk_restart.specs.Unlinking.{AreCodes, unlinked_page, Unlinks};

use crate::operating::{erase, program};
use crate::strays::Strays;
use flash_model::{BLANK, Flash, Layout, PAGE_WORDS};
use nat_page::without_links;

/// Makes each stub that jumps to no entry call the bridge.
pub(crate) fn unlink(flash: &mut Flash, layout: &Layout)
    requires right { IsRight layout.now }
    requires image { length (image_of layout.now flash.old.words) ≡ layout.now.image_words }
    requires whole { length flash.old.words ≡ 65536 }
    requires codes { AreCodes layout.now (image_of layout.now flash.old.words) flash.old.words }
    requires sound { flash.old.failing ≡ [] }
    requires room { flash.old.ops + 1000 < 2 ^ 63 }
    ensures unlinks { Unlinks layout.now (image_of layout.now flash.old.words) flash.old flash.new }
{
    'pages: for k in 0..layout.pool_pages {
        unlink_page(flash, layout, layout.pool_first + k);
    }
}

/// Makes each stub of one page that jumps to no entry call the bridge.
fn unlink_page(flash: &mut Flash, layout: &Layout, page: u16)
    requires right { IsRight layout.now }
    requires image { length (image_of layout.now flash.old.words) ≡ layout.now.image_words }
    requires page { IsPool layout.now page }
    requires code { IsFree flash.old.words page ⊎ IsCodePage (image_of layout.now flash.old.words) flash.old.words page }
    requires sound { flash.old.failing ≡ [] }
    requires room { flash.old.ops + 1 < 2 ^ 63 }
    ensures after { flash.new ≡ unlinked_page layout.now (image_of layout.now flash.old.words) flash.old page }
    ensures whole { IsWhole flash.old }
{
    if flash.word(PAGE_WORDS * page) == BLANK {
        return;
    }
    let without = without_links(flash, layout, page, &Strays { flash, layout });
    if !without.any {
        return;
    }
    erase(flash, page);
    program(flash, page, &without.words);
}
