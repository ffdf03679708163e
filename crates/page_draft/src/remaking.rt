//! The page that a run has, made anew.

ghost use Rattle.std.specs.Prelude.{◌≡◌, ◌+◌, ◌-◌, ◌<◌, ◌≤◌, length, MatchOption};
ghost use Rattle.arrayvec.specs.ArrayVec.{array_vec_len};
ghost use Rattle.flash_words.specs.Layouts.{most_entries, most_image_words};
ghost use Rattle.page_draft.specs.Standing.{size as size_of};
ghost use Rattle.page_draft.specs.CodePages.{page_pieces, IsPage};
ghost use Rattle.page_draft.specs.Remaking.{CanNotTake, HasTaken};

use crate::draft::Draft;
use crate::instruction::{Instruction, read};
use crate::words::ImageWords;
use arrayvec::ArrayVec;
use flash_words::PAGE_WORDS;
use nat_template::Piece;

/// The pieces of the page of just so many instructions from `t`; None where these are no run that fits into a page.
/// The page tells both: its first word and its first map word the address, its second word the number.
pub fn remade<I: ImageWords>(image: &I, t: u16, count: u16) -> Option<ArrayVec<Piece, 128>>
    requires counted { I.counted image.now }
    requires short { length (I.words image.now) ≤ most_image_words }
    requires some { 1 ≤ count }
    requires few { count < most_entries }
    ensures page { MatchOption result (¬ IsPage (I.words image.now) t (count - 1))
        (λ pieces. IsPage (I.words image.now) t (count - 1) × (pieces.items ≡ page_pieces (I.words image.now) t (count - 1))) }
{
    let mut draft = Draft::new();
    let mut pc = t;
    'walk: for _taken in 1..count {
        let here = take(&mut draft, image, t, count, pc)?;
        if here.ends {
            return None;
        }
        pc = here.next;
    }
    let last = take(&mut draft, image, t, count, pc)?;
    if 2 + count + draft.size + last.closing_size > PAGE_WORDS {
        return None;
    }
    draft.close(&last);
    Some(draft.pieces(t))
}

/// Takes one more instruction, at the pc, into a page of so many from `t`.
fn take<I: ImageWords>(
    draft: &mut Draft,
    image: &I,
    t: u16,
    count: u16,
    pc: u16,
) -> Option<Instruction>
    requires counted { I.counted image.now }
    requires short { length (I.words image.now) ≤ most_image_words }
    requires few { count < most_entries }
    requires sized { draft.old.size ≡ size_of draft.old.code.items }
    requires room { 2 + count + draft.old.size ≤ 128 }
    requires more { array_vec_len draft.old.entries < count }
    ensures taken { MatchOption result
        (CanNotTake (I.words image.now) t count draft.old.size pc)
        (HasTaken (I.words image.now) t count pc draft.old draft.new) }
{
    if usize::from(pc) >= image.count() {
        return None;
    }
    if pc / PAGE_WORDS != t / PAGE_WORDS {
        return None;
    }
    let here = read(image, pc);
    if 2 + count + draft.size + here.code_size > PAGE_WORDS {
        return None;
    }
    draft.add(&here);
    Some(here)
}
