//! One stub resolved.

ghost use Rattle.std.specs.Prelude.{◌≡◌, ℕ, ◌+◌, ◌/◌, ◌%◌, ◌<◌, ◌≤◌, ◌^◌, ◌↔◌};
ghost use Rattle.flash_words.specs.Pages.{page_of};
ghost use Rattle.flash_words.specs.Layouts.{IsRight, image_of};
ghost use Rattle.page_index.specs.Entries.{IsEntry};
ghost use Rattle.page_draft.specs.Standing.{jump_word};
ghost use Rattle.nat_page.specs.Faithful.{IsFaithful};
ghost use Rattle.nat_page.specs.Links.{with_two_words};
ghost use Rattle.nat_page.specs.Used.{used_pages};
ghost use Rattle.branch_bridge.specs.Operating.{perform, stop_of, mended};
ghost use Rattle.branch_bridge.specs.Resolving.{CanResolve, resolving};

use crate::rewriting::{ResolveStop, rewrite};
use flash_model::{Flash, Layout, PAGE_WORDS};
use nat_page::page_words;
use nat_template::resolved;

/// Resolves the stub whose call of the kernel's bridge stands at the word address `stub`: a jump to `place`,
/// the place of the address that the stub leads to, takes the place of the call. The stub's page is erased
/// and programmed once. The contract speaks of the pool of this layout; the code needs none.
pub fn resolve(flash: &mut Flash, layout: &Layout, stub: u16, place: u16) -> Result<(), ResolveStop>
    requires right { IsRight layout.now }
    requires code { IsFaithful layout.now (image_of layout.now flash.old.words) flash.old.words }
    requires stub { CanResolve layout.now (image_of layout.now flash.old.words) flash.old.words stub place }
    requires room { flash.old.ops + 1 < 2 ^ 63 }
    // The whole flash is told.
    ensures performed { perform flash.old (resolving flash.old.words stub place) ≡ record { memory = flash.new; stop = stop_of result } }
    // With the words put in that a torn page lacks, the pool is faithful to the same image.
    ensures code { IsFaithful layout.now (image_of layout.now flash.old.words) (mended flash.new.words (stop_of result)) }
    ensures image { image_of layout.now (mended flash.new.words (stop_of result)) ≡ image_of layout.now flash.old.words }
    ensures used { used_pages layout.now (mended flash.new.words (stop_of result)) ≡ used_pages layout.now flash.old.words }
    ensures ops { flash.new.ops ≤ flash.old.ops + 2 }
    ensures entries { (a v : ℕ) → IsEntry layout.now flash.old.words a v ↔ IsEntry layout.now (mended flash.new.words (stop_of result)) a v }
{
    let words = patched(flash, stub, place);
    rewrite(flash, stub / PAGE_WORDS, &words)
}

/// The words of the stub's page with the jump in them.
#[tactic(auto, unfolding(nat_page::specs::Links::with_two_words))]
fn patched(flash: &Flash, stub: u16, place: u16) -> [u16; 128]
    requires room { stub % 128 + 1 < 128 }
    ensures words { result ≡ with_two_words (page_of flash.now.words (stub / 128)) (stub % 128) jump_word place }
{
    let at = (stub % PAGE_WORDS) as usize;
    let jump = resolved(place);
    let mut words = page_words(flash, stub / PAGE_WORDS);
    words[at] = jump[0];
    words[at + 1] = jump[1];
    words
}
