//! The count of comparisons.
ghost use Rattle.std.specs.Prelude.{◌≡◌, ◌↔◌, ◌⊎◌, ◌+◌, ◌-◌, ◌^◌, [], true, min, if◌then◌else◌};

use crate::case::Case;

/// What is compared of an answer.
#[derive(Drop)]
pub(crate) struct Answer {
    pub status: usize,
    pub text: Vec<u8>,
    /// What the first call kept.
    pub keeps: &'static [u8],
}

/// How many answers were as their case wants them, and how many were not. Only a comparison counts.
#[derive(Drop)]
pub(crate) struct Tally {
    same: u64,
    other: u64,
}

impl Tally {
    /// No answer was compared.
    pub(crate) fn new() -> Tally {
        Tally { same: 0, other: 0 }
    }

    /// Compares an answer with what its case wants, counts it, and tells whether they are the same. The count of these
    /// rises by one, up to its type's end, and the other stays.
    pub(crate) fn count(&mut self, case: &Case, answer: &Answer) -> bool
        ensures wanted { result ≡ true ↔ (answer.now.status ≡ case.now.status) × (answer.now.text.items ≡ case.now.text.items)
            × ((case.now.keeps.items ≡ []) ⊎ (case.now.keeps.items ≡ answer.now.keeps.now)) }
        ensures same { self.new.same ≡ (if result then min (self.old.same + 1) (2 ^ 64 - 1) else self.old.same) }
        ensures other { self.new.other ≡ (if result then self.old.other else min (self.old.other + 1) (2 ^ 64 - 1)) }
    {
        if is_wanted(case, answer) && is_kept(case, answer) {
            self.same = self.same.saturating_add(1);
            true
        } else {
            self.other = self.other.saturating_add(1);
            false
        }
    }

    /// How many were the same.
    pub(crate) fn same(&self) -> u64
        ensures value { result ≡ self.now.same }
    {
        self.same
    }

    /// How many were not.
    pub(crate) fn other(&self) -> u64
        ensures value { result ≡ self.now.other }
    {
        self.other
    }
}

/// Whether status and text are those of the case.
fn is_wanted(case: &Case, answer: &Answer) -> bool
    ensures value { result ≡ true ↔ (answer.now.status ≡ case.now.status) × (answer.now.text.items ≡ case.now.text.items) }
{
    answer.status == case.status && answer.text.as_slice() == case.text.as_slice()
}

/// Whether this is what the case wants to be kept, if it says so.
fn is_kept(case: &Case, answer: &Answer) -> bool
    ensures value { result ≡ true ↔ (case.now.keeps.items ≡ []) ⊎ (case.now.keeps.items ≡ answer.now.keeps.now) }
{
    case.keeps.is_empty() || case.keeps.as_slice() == answer.keeps
}
