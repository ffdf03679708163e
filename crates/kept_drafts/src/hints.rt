//! What is remembered for arrivals.

use crate::kept_drafts::KeptDrafts;
use page_index::Places;

/// What is remembered for arrivals, so that they cost less. All of it is checked where it is used. So it may come from any flash,
/// and nothing has to be forgotten where flash changes.
#[derive(Drop)]
pub struct Hints {
    /// Where entries were seen last.
    pub places: Places,
    /// Pages that were drafted.
    pub drafts: KeptDrafts,
}

impl Hints {
    /// No hint, and no room for drafts.
    #[inline(always)]
    pub fn new() -> Hints {
        Hints {
            places: Places::new(),
            drafts: KeptDrafts::new(),
        }
    }
}
