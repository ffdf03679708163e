//! The pool after a loss of power.

ghost use Rattle.std.specs.Prelude.{◌≡◌, ◌<◌, ◌^◌, [], length};
ghost use Rattle.flash_words.specs.Layouts.{IsRight};
ghost use Rattle.flash_words.specs.Memory.{Memory};
ghost use Rattle.nat_page.specs.Faithful.{IsFaithful};
ghost use Rattle.nat_page.specs.Used.{used_pages};
ghost use Rattle.pool_check.specs.Links.{HaveFormsAround};
ghost use Rattle.tk_restart.specs.declared.sweeping.Kept.{Kept};
ghost use Rattle.tk_restart.specs.Restarting.{Restarts};

use crate::sweeping::{Kept, sweep};
use crate::unlinking::unlink;
use flash_model::{Flash, Layout};

/// Makes the pool faithful to the image again, whatever it holds, and tells how many pages it kept and dropped. No
/// operation on flash is to fail. Each page that is dropped takes one, and each that is kept and has stubs to change
/// takes two.
pub fn restart(flash: &mut Flash, image: &[u16], layout: &Layout) -> Kept
    requires right { IsRight layout.now }
    requires length { length image.now ≡ layout.now.image_words }
    requires around { HaveFormsAround layout.now image.now flash.old.words }
    requires sound { flash.old.failing ≡ [] }
    requires room { flash.old.ops < 2 ^ 62 }
    ensures restarts { Restarts layout.now image.now flash.old flash.new result }
    // The rules leave no choice.
    ensures only { (other : Memory) (told : Kept) → Restarts layout.now image.now flash.old other told → (other.words ≡ flash.new.words) × (told ≡ result) }
    ensures faithful { IsFaithful layout.now image.now flash.new.words }
    ensures used { used_pages layout.now flash.new.words ≡ result.kept }
    ensures sound { flash.new.failing ≡ [] }
{
    let told = sweep(flash, image, layout);
    unlink(flash, layout);
    told
}
