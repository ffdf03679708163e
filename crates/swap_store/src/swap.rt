//! The slots, and the two ways to use one.

ghost use Rattle.std.specs.Prelude.{◌≡◌, ◌≤◌, ◌<◌, length, IfOk};
ghost use Rattle.swap_store.specs.Slots.{IsWhole, most_slots, page_in, with_page, zero_page, zero_slots};

use base::NoMemory;
use std::alloc::Global;
use std::marker::Model;

/// The swap area. Contracts see the list of its pages.
#[derive(Drop)]
pub struct Swap {
    pages: Vec<[u8; 256]>,
}

impl Model for Swap {
    ghost use Rattle.std.specs.Prelude.{List, ℕ};
    ghost use Rattle.swap_store.specs.Slots.{IsWhole};

    ghost Value = { List (List ℕ) };

    ghost view = { λ s. s.pages.items };

    ghost invariant = { λ s. IsWhole s.pages.items };
}

impl Swap {
    /// A swap area of this many slots, all of whose bytes are 0.
    #[tactic(auto, unfolding(crate::specs::Slots::zero_slots))]
    pub fn new(alloc: Global, slots: u8) -> Result<Swap, NoMemory>
        requires { slots ≤ most_slots }
        ensures value { IfOk result (λ swap. swap ≡ zero_slots slots) }
        ensures count { IfOk result (λ swap. length swap ≡ slots) }
        ensures whole { IfOk result IsWhole }
    {
        let mut pages = Vec::new(alloc);
        pages.resize(slots as usize, zeros())?;
        Ok(Swap { pages })
    }

    /// How many slots there are, 0 to 251.
    pub fn slots(&self) -> u8
        ensures value { result ≡ length self.now }
        ensures whole { IsWhole self.now }
    {
        self.pages.len() as u8
    }

    /// Copies the page in a slot.
    #[tactic(auto, unfolding(crate::specs::Slots::page_in))]
    pub fn read(&self, slot: u8, into: &mut [u8; 256])
        requires { slot < length self.now }
        ensures value { into.new ≡ page_in self.now slot }
        ensures whole { IsWhole self.now }
    {
        into.copy_from_slice(&self.pages[slot as usize]);
    }

    /// Puts a page into a slot.
    #[tactic(auto, unfolding(crate::specs::Slots::with_page))]
    pub fn write(&mut self, slot: u8, page: &[u8; 256])
        requires { slot < length self.old }
        ensures after { self.new ≡ with_page self.old slot page.now }
        ensures count { length self.new ≡ length self.old }
        ensures whole { IsWhole self.old × IsWhole self.new }
    {
        self.pages[slot as usize].copy_from_slice(page);
    }
}

#[tactic(auto, unfolding(crate::specs::Slots::zero_page))]
fn zeros() -> [u8; 256]
    ensures value { result ≡ zero_page }
{
    [0; 256]
}
