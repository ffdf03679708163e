//! The links of one page that call the kernel's bridge again.

ghost use Rattle.std.specs.Prelude.{◌≡◌, ◌+◌, ◌*◌, ◌%◌, ◌<◌, ◌≤◌, [], true, false, length};
ghost use Rattle.flash_words.specs.Pages.{page_of, word_count, page_count};
ghost use Rattle.flash_words.specs.Layouts.{IsRight, image_of};
ghost use Rattle.flash_words.specs.Memory.{IsWhole};
ghost use Rattle.nat_template.specs.Stubs.{call_word, bridge_entry};
ghost use Rattle.page_index.specs.Maps.{IsPool};
ghost use Rattle.page_draft.specs.Standing.{size};
ghost use Rattle.page_draft.specs.CodePages.{IsCodePage};
ghost use Rattle.nat_page.specs.Links.{with_two_words};
ghost use Rattle.nat_page.specs.Unlinking.{leads_into, is_picked, links_where, with_calls, stubs_where, are_some, IsPatched};

use crate::image::FlashImage;
use flash_model::{Flash, JMP, Layout, PAGE_WORDS};
use nat_template::Piece;
use page_draft::{CALL_BRIDGE, remade};

/// Which links that are resolved are to call the kernel's bridge again.
pub trait LinkTest {
    ghost use Rattle.std.specs.Prelude.{ℕ, Bool};

    // Of a link to an address, with a place.
    ghost test: { Self → ℕ → ℕ → Bool };

    /// Whether a link to `t` that jumps to `place` is one.
    fn picks(&self, t: u16, place: u16) -> bool
        ensures value { result ≡ test self.now t place };
}

/// Those that lead into a page.
#[derive(Clone, Copy)]
pub struct LeadsInto {
    /// The page.
    pub page: u16,
}

impl LinkTest for LeadsInto {
    ghost use Rattle.nat_page.specs.Unlinking.{leads_into};

    ghost test = { λ links. leads_into links.page };

    fn picks(&self, _t: u16, place: u16) -> bool {
        place / PAGE_WORDS == self.page
    }
}

/// The words of a page whose links call the kernel's bridge again.
#[derive(Clone, Copy)]
pub struct Unlinked {
    /// The words.
    pub words: [u16; 128],
    /// Whether there is any such link.
    pub any: bool,
}

/// The words of this used page, with a call of the kernel's bridge in each stub that jumps where the test picks it.
pub fn without_links<L: LinkTest>(flash: &Flash, layout: &Layout, page: u16, links: &L) -> Unlinked
    requires right { IsRight layout.now }
    requires image { length (image_of layout.now flash.now.words) ≡ layout.now.image_words }
    requires pool { IsPool layout.now page }
    requires run { IsCodePage (image_of layout.now flash.now.words) flash.now.words page }
    ensures words { result.words ≡ page_of (with_calls flash.now.words (stubs_where (L.test links.now) (image_of layout.now flash.now.words) flash.now.words page)) page }
    ensures any { result.any ≡ are_some (stubs_where (L.test links.now) (image_of layout.now flash.now.words) flash.now.words page) }
{
    let first = PAGE_WORDS * page;
    let t = PAGE_WORDS * flash.word(first) + flash.word(first + 2) / 256;
    let mut patch = Unlinked {
        words: page_words(flash, page),
        any: false,
    };
    if let Some(pieces) = remade(&FlashImage { flash, layout }, t, flash.word(first + 1)) {
        unlink(flash, links, page, &pieces, &mut patch);
    }
    patch
}

/// Puts a call into each link of the page's pieces that the test picks.
fn unlink<L: LinkTest>(flash: &Flash, links: &L, page: u16, pieces: &[Piece], patch: &mut Unlinked)
    requires low { page < 480 }
    requires fits { size pieces.now ≤ 128 }
    requires patch { IsPatched flash.now.words page patch.old [] }
    ensures patched { IsPatched flash.now.words page patch.new (links_where flash.now.words (L.test links.now) (128 * page) pieces.now) }
{
    let mut at = PAGE_WORDS * page;
    'pieces: for piece in pieces {
        match *piece {
            Piece::Fixed(_) => at += 1,
            Piece::Link(t) => {
                unlink_one(flash, links, at, t, patch);
                at += 3;
            }
        }
    }
}

/// Puts a call into one link, where the test picks it.
#[tactic(auto, unfolding(crate::specs::Links::with_two_words))]
fn unlink_one<L: LinkTest>(flash: &Flash, links: &L, at: u16, t: u16, patch: &mut Unlinked)
    requires room { at % 128 + 2 < 128 }
    ensures stays { is_picked flash.now.words (L.test links.now) at t ≡ false → patch.new ≡ patch.old }
    ensures calls { is_picked flash.now.words (L.test links.now) at t ≡ true
        → (patch.new.words ≡ with_two_words patch.old.words (at % 128) call_word bridge_entry) × (patch.new.any ≡ true) }
    ensures whole { length flash.now.words ≡ word_count }
{
    if flash.word(at) == JMP && links.picks(t, flash.word(at + 1)) {
        let k = (at % PAGE_WORDS) as usize;
        patch.words[k] = CALL_BRIDGE[0];
        patch.words[k + 1] = CALL_BRIDGE[1];
        patch.any = true;
    }
}

/// The words of a page.
pub fn page_words(flash: &Flash, page: u16) -> [u16; 128]
    requires page { page < page_count }
    ensures words { result ≡ page_of flash.now.words page }
    ensures whole { IsWhole flash.now }
{
    let mut words = [0; 128];
    words.copy_from_slice(flash.page(page));
    words
}
