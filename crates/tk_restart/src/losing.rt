//! What a loss of power in an operation on flash leaves.
ghost use Rattle.std.specs.Prelude.{◌≡◌, ℕ, ◌<◌, ◌≤◌, List, [], IfSome};
ghost use Rattle.flash_words.specs.Pages.{page_count};
ghost use Rattle.flash_words.specs.Layouts.{IsRight};
ghost use Rattle.flash_words.specs.declared.layout.Layout.{Layout};
ghost use Rattle.page_index.specs.Maps.{IsPool};
ghost use Rattle.pool_check.specs.Links.{HaveFormsAround};
ghost use Rattle.tk_restart.specs.Losing.{lost_in, torn_words as words_torn};

use crate::tearing::tear;
use base::next_number;
use flash_model::{Flash, PAGE_WORDS};

/// Gives the page of a refused operation the words of a loss of power.
pub fn lose(flash: &mut Flash, op: Option<u64>, page: Option<u16>)
    requires page { IfSome page (λ page. page < page_count) }
    requires sound { flash.old.failing ≡ [] }
    requires few { flash.old.ops ≡ 0 }
    ensures after { flash.new ≡ lost_in op page flash.old }
    // Where it is a page of the pool, those outside the pool have the form that they had.
    ensures around { (layout : Layout) → (image : List ℕ) → IsRight layout → IfSome page (IsPool layout)
        → HaveFormsAround layout image flash.old.words → HaveFormsAround layout image flash.new.words }
    ensures sound { flash.new.failing ≡ [] }
    ensures few { flash.new.ops ≤ 2 }
{
    let Some(op) = op else {
        return;
    };
    let Some(page) = page else {
        return;
    };
    tear(flash, page, &torn_words(op));
}

/// The words of a page where power was lost in the operation of this number.
#[tactic(auto, using(crate::proofs::TornWords::next_low, crate::proofs::TornWords::number_next))]
fn torn_words(op: u64) -> [u16; 128]
    ensures words { result ≡ words_torn op 128 }
{
    let mut words = [0; 128];
    let mut x = (op % 0x1_0000_0000) as u32;
    'words: for k in 0..PAGE_WORDS {
        x = next_number(x);
        words[k as usize] = (x >> 16) as u16;
    }
    words
}
