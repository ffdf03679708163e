//! The stubs into a page that call the kernel's bridge again.

ghost use Rattle.std.specs.Prelude.{◌≡◌, ◌≢◌, ℕ, ◌+◌, ◌*◌, ◌<◌, ◌≤◌, ◌^◌, ◌⊎◌, OnOk};
ghost use Rattle.flash_words.specs.Layouts.{IsRight, image_of};
ghost use Rattle.page_index.specs.Maps.{IsPool, IsFree};
ghost use Rattle.page_index.specs.Entries.{IsEntry};
ghost use Rattle.nat_page.specs.Faithful.{IsFaithful};
ghost use Rattle.nat_page.specs.Links.{IsUnresolved};
ghost use Rattle.nat_page.specs.Used.{is_used};
ghost use Rattle.branch_bridge.specs.Operating.{perform, stop_of, mended};
ghost use Rattle.branch_bridge.specs.Unresolving.{unlinking, unresolved_in, IsApart};

use crate::rewriting::{ResolveStop, rewrite};
use flash_model::{BLANK, Flash, Layout, PAGE_WORDS};
use nat_page::{LeadsInto, without_links};

/// Each other used page that has stubs that jump into the victim gets the call of the kernel's bridge in the
/// place of all of them, by one erase and one program; in ascending order.
pub fn unresolve(flash: &mut Flash, layout: &Layout, victim: u16) -> Result<(), ResolveStop>
    requires right { IsRight layout.now }
    requires code { IsFaithful layout.now (image_of layout.now flash.old.words) flash.old.words }
    requires room { flash.old.ops < 2 ^ 62 }
    // The whole flash is told.
    ensures performed { unresolved_in layout.now victim flash.old ≡ record { memory = flash.new; stop = stop_of result } }
    // With the words put in that a torn page lacks, the pool is faithful to the same image, and each entry stays.
    ensures code { IsFaithful layout.now (image_of layout.now flash.old.words) (mended flash.new.words (stop_of result)) }
    ensures image { image_of layout.now (mended flash.new.words (stop_of result)) ≡ image_of layout.now flash.old.words }
    ensures entries { (a v : ℕ) → IsEntry layout.now flash.old.words a v → IsEntry layout.now (mended flash.new.words (stop_of result)) a v }
    // No stub of another page leads into the victim, and stubs that called the bridge do so still.
    ensures apart { OnOk result ((page : ℕ) → IsPool layout.now page → page ≢ victim
        → IsFree flash.new.words page ⊎ IsApart layout.now (image_of layout.now flash.old.words) flash.new.words victim page) }
    ensures same { OnOk result ((a v : ℕ) → IsEntry layout.now flash.new.words a v → IsEntry layout.now flash.old.words a v) }
    ensures stubs { OnOk result ((s t : ℕ) → IsUnresolved layout.now (image_of layout.now flash.old.words) flash.old.words s t
        → IsUnresolved layout.now (image_of layout.now flash.old.words) flash.new.words s t) }
    ensures uses { (page : ℕ) → is_used (mended flash.new.words (stop_of result)) page ≡ is_used flash.old.words page }
    ensures ops { flash.new.ops ≤ flash.old.ops + 2 * layout.now.pool_pages }
{
    let end = layout.pool_first + layout.pool_pages;
    let mut from = layout.pool_first;
    // A page that has no jump into the victim has no stub into it.
    'pages: while let Some(page) = flash.page_jumping_into(from, end, victim) {
        match unlink_page(flash, layout, victim, page) {
            Ok(()) => {}
            Err(stop) => return Err(stop),
        }
        from = page + 1;
    }
    Ok(())
}

/// One page. Not inlined, since the room that its words want is cleared where it begins.
#[inline(never)]
fn unlink_page(
    flash: &mut Flash,
    layout: &Layout,
    victim: u16,
    page: u16,
) -> Result<(), ResolveStop>
    requires right { IsRight layout.now }
    requires code { IsFaithful layout.now (image_of layout.now flash.old.words) flash.old.words }
    requires pool { IsPool layout.now page }
    requires room { flash.old.ops + 1 < 2 ^ 63 }
    ensures performed { perform flash.old (unlinking (image_of layout.now flash.old.words) flash.old.words victim page)
        ≡ record { memory = flash.new; stop = stop_of result } }
{
    if page == victim {
        return Ok(());
    }
    if flash.word(PAGE_WORDS * page) == BLANK {
        return Ok(());
    }
    let without = without_links(flash, layout, page, &LeadsInto { page: victim });
    if !without.any {
        return Ok(());
    }
    rewrite(flash, page, &without.words)
}
