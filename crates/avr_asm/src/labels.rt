//! Labels and their addresses.

ghost use Rattle.std.specs.Prelude.{◌≡◌, ℕ, List, [], OnOk};
ghost use Rattle.avr_asm.specs.Labels.{address_in, label_after, HasLabels};

use crate::name::Name;
use base::NoMemory;
use std::alloc::Global;
use std::collections::BTreeMap;

/// Labels and their addresses. The names are parts of the text.
#[derive(Drop)]
pub(crate) struct Labels<'a> {
    map: BTreeMap<&'a [u8], u32>,
}

impl<'a> Labels<'a> {
    /// No labels.
    pub(crate) fn new(alloc: Global) -> Labels<'a>
        ensures none { HasLabels result [] }
    {
        Labels {
            map: BTreeMap::new(alloc),
        }
    }

    /// The address of a label.
    pub(crate) fn find(&self, name: &[u8]) -> Option<u32>
        ensures value { result ≡ address_in self.now name.now }
    {
        self.map.get(name).copied()
    }

    /// Adds a label with an address.
    #[tactic(auto, using(std::proofs::lemmas::Map::Text::btree_map_updates_str))]
    pub(crate) fn add(&mut self, name: &'a [u8], address: u32) -> Result<(), NoMemory>
        ensures added { OnOk result ((q : List ℕ) → address_in self.new q ≡ label_after name.now address q (address_in self.old q)) }
    {
        match self.map.insert(name, address) {
            Ok(_) => Ok(()),
            Err(_) => Err(NoMemory),
        }
    }
}
