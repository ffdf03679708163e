//! What a page for an original page's addresses wants to know of the pool.

ghost use Rattle.std.specs.Prelude.{◌<◌};
ghost use Rattle.flash_words.specs.Pages.{page_count};
ghost use Rattle.flash_words.specs.Layouts.{IsRight};
ghost use Rattle.page_index.specs.Entries.{IsMapped};
ghost use Rattle.page_index.specs.Surveys.{IsSurvey};

use crate::pool::{free_page, known_offsets};
use flash_model::{Flash, Layout};

/// What a page for the addresses of one original page wants to know of the pool.
#[derive(Clone, Copy)]
pub struct Survey {
    /// The lowest page that is free; None where none is.
    pub free: Option<u16>,
    /// For each address of the original page, by its offset there, whether some page has an entry of it.
    pub known: [bool; 128],
}

/// Looks at each page of the pool.
pub(crate) fn survey_of(flash: &Flash, layout: &Layout, original: u16) -> Survey
    requires right { IsRight layout.now }
    requires mapped { IsMapped layout.now flash.now.words }
    requires original { original < page_count }
    ensures survey { IsSurvey layout.now flash.now.words original result }
{
    Survey {
        free: free_page(flash, layout),
        known: known_offsets(flash, layout, original),
    }
}
