//! All pages of a flash.

ghost use Rattle.std.specs.Prelude.{◌≡◌, length, MatchOption};
ghost use Rattle.flash_words.specs.Layouts.{IsRight};
ghost use Rattle.nat_page.specs.Faithful.{IsFaithful};
ghost use Rattle.nat_page.specs.Used.{used_pages};
ghost use Rattle.pool_check.specs.Links.{HaveForms, HaveLinks};
ghost use Rattle.pool_check.specs.Verdicts.{IsFirstUnlinked, IsVerdict};
ghost use Rattle.pool_check.specs.declared.checking.Verdict.TheVariants.{Faithful};

use crate::form::page_form;
use crate::links::has_links;
use flash_model::{Flash, Layout, PAGES};
use nat_page::{page_words, pages_in_use};

/// What a checker says of a flash.
#[derive(Clone, Copy, PartialEq, Eq)]
pub enum Verdict {
    /// The pool is faithful, and has so many pages that are used.
    Faithful {
        /// How many.
        pages: u16,
    },
    /// This page, and none below, has not the form that it must have.
    Form {
        /// Its number.
        page: u16,
    },
    /// Each page has its form; this page of the pool, and none below, doesn't agree with the others.
    Links {
        /// Its number.
        page: u16,
    },
}

/// Checks a flash that should hold this image and rewritten code of it: first the form of each page, and then what each
/// page of the pool owes to the others.
pub fn check(flash: &Flash, image: &[u16], layout: &Layout) -> Verdict
    requires right { IsRight layout.now }
    requires length { length image.now ≡ layout.now.image_words }
    ensures verdict { IsVerdict layout.now image.now flash.now.words result }
    // Of a pool that is faithful it says so.
    ensures faithful { IsFaithful layout.now image.now flash.now.words → result ≡ Faithful (used_pages layout.now flash.now.words) }
{
    for page in 0..PAGES as u16 {
        if !page_form(image, layout, page, &page_words(flash, page)) {
            return Verdict::Form { page };
        }
    }
    match first_unlinked(flash, image, layout) {
        Some(page) => Verdict::Links { page },
        None => Verdict::Faithful {
            pages: pages_in_use(flash, layout),
        },
    }
}

/// The lowest page of the pool that doesn't agree with the others.
fn first_unlinked(flash: &Flash, image: &[u16], layout: &Layout) -> Option<u16>
    requires right { IsRight layout.now }
    requires length { length image.now ≡ layout.now.image_words }
    requires forms { HaveForms layout.now image.now flash.now.words }
    ensures first { MatchOption result (HaveLinks layout.now image.now flash.now.words) (IsFirstUnlinked layout.now image.now flash.now.words) }
{
    for page in layout.pool_first..layout.pool_first + layout.pool_pages {
        if !has_links(flash, layout, image, page) {
            return Some(page);
        }
    }
    None
}
