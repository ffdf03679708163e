//! The first pass over the pool: each page is kept, or erased.

ghost use Rattle.std.specs.Prelude.{◌≡◌, ◌<◌, ◌^◌, [], length};
ghost use Rattle.flash_words.specs.Layouts.{IsRight};
ghost use Rattle.flash_words.specs.Memory.{IsWhole};
ghost use Rattle.page_index.specs.Maps.{IsPool};
ghost use Rattle.tk_restart.specs.Sweeping.{ArePagesBelow, IsJudged, after_fate, counted, Sweeps};

use crate::judging::{Fate, judge};
use crate::operating::erase;
use flash_model::{Flash, Layout};

/// How many pages of the pool a restart kept, and how many that weren't blank it erased.
#[derive(Clone, Copy)]
pub struct Kept {
    /// Those that are kept.
    pub kept: u16,
    /// Those that were erased.
    pub dropped: u16,
}

/// Keeps what is rewritten code of the image, and erases the rest.
pub(crate) fn sweep(flash: &mut Flash, image: &[u16], layout: &Layout) -> Kept
    requires right { IsRight layout.now }
    requires length { length image.now ≡ layout.now.image_words }
    requires sound { flash.old.failing ≡ [] }
    requires room { flash.old.ops < 2 ^ 62 }
    ensures sweeps { Sweeps layout.now image.now flash.old flash.new result }
    ensures whole { length flash.old.words ≡ 65536 }
{
    let mut told = Kept {
        kept: 0,
        dropped: 0,
    };
    'pages: for k in 0..layout.pool_pages {
        let fate = sweep_page(flash, image, layout, layout.pool_first + k);
        told = with(told, fate);
    }
    told
}

/// Keeps a page, or erases it.
fn sweep_page(flash: &mut Flash, image: &[u16], layout: &Layout, page: u16) -> Fate
    requires right { IsRight layout.now }
    requires length { length image.now ≡ layout.now.image_words }
    requires page { IsPool layout.now page }
    requires pages { ArePagesBelow layout.now flash.old.words page }
    requires sound { flash.old.failing ≡ [] }
    requires room { flash.old.ops < 2 ^ 63 }
    ensures judged { IsJudged layout.now image.now flash.old.words page result }
    ensures after { flash.new ≡ after_fate flash.old page result }
    ensures whole { IsWhole flash.old }
{
    let fate = judge(flash, image, layout, page);
    match fate {
        Fate::Goes => erase(flash, page),
        Fate::Stays => {}
        Fate::Blank => {}
    }
    fate
}

/// The numbers with one page more.
fn with(told: Kept, fate: Fate) -> Kept
    requires few { told.kept < 1000 }
    requires small { told.dropped < 1000 }
    ensures value { result ≡ counted told fate }
{
    match fate {
        Fate::Stays => Kept {
            kept: told.kept + 1,
            dropped: told.dropped,
        },
        Fate::Blank => told,
        Fate::Goes => Kept {
            kept: told.kept,
            dropped: told.dropped + 1,
        },
    }
}
