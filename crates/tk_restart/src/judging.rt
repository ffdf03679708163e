//! What becomes of one page.

ghost use Rattle.std.specs.Prelude.{◌≡◌, length};
ghost use Rattle.flash_words.specs.Layouts.{IsRight};
ghost use Rattle.flash_words.specs.Memory.{IsWhole};
ghost use Rattle.page_index.specs.Maps.{IsPool};
ghost use Rattle.tk_restart.specs.Sweeping.{ArePagesBelow, IsJudged};

use flash_model::{Flash, Layout};
use nat_page::page_words;
use pool_check::{is_alone, is_blank, is_code};

/// What becomes of a page of the pool.
#[derive(Clone, Copy)]
pub(crate) enum Fate {
    /// It is kept.
    Stays,
    /// It is blank, and remains so.
    Blank,
    /// It is erased.
    Goes,
}

/// Judges a page, where those below are judged.
pub(crate) fn judge(flash: &Flash, image: &[u16], layout: &Layout, page: u16) -> Fate
    requires right { IsRight layout.now }
    requires length { length image.now ≡ layout.now.image_words }
    requires page { IsPool layout.now page }
    requires pages { ArePagesBelow layout.now flash.now.words page }
    ensures judged { IsJudged layout.now image.now flash.now.words page result }
    ensures whole { IsWhole flash.now }
{
    let words = page_words(flash, page);
    if is_blank(&words) {
        return Fate::Blank;
    }
    if !is_code(image, &words) {
        return Fate::Goes;
    }
    if !is_alone(flash, layout, page) {
        return Fate::Goes;
    }
    Fate::Stays
}
