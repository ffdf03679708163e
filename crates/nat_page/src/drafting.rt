//! The page of an address, drafted: its run is read, as far as it goes.

ghost use Rattle.std.specs.Prelude.{◌≡◌, ℕ, ◌+◌, ◌/◌, ◌<◌, ◌≤◌, MatchOption, IfSome, [], length};
ghost use Rattle.arrayvec.specs.ArrayVec.{array_vec_len};
ghost use Rattle.flash_words.specs.Layouts.{IsRight, image_of};
ghost use Rattle.page_index.specs.Entries.{AreKnown};
ghost use Rattle.nat_page.specs.Making.{HasNoEntry};
ghost use Rattle.page_draft.specs.Drafts.{IsRead};
ghost use Rattle.nat_page.specs.Drafted.{StopsBehind, IsDraftedPage};
ghost use Rattle.nat_page.specs.Drafts.{GoesOn, IsDrafting, IsDrafted, IsOwn, own_instruction, IsDraftingOwn};

use crate::image::FlashImage;
use flash_model::{Flash, Layout, PAGE_WORDS};
use nat_template::stub_size;
use page_draft::{Draft, Instruction, read};

/// The page of an address, as it is drafted for any page of the pool that is free.
#[derive(Clone, Copy)]
pub struct DraftedPage {
    /// Its words.
    pub words: [u16; 128],
    /// How many of them stand in front of its code: two, and the map.
    pub front: u16,
    /// How many stand in front of the erased ones.
    pub size: u16,
    /// The address of its run's last instruction.
    pub last: u16,
    /// The address behind its run.
    pub next: u16,
}

/// Drafts the page of `t`, for one who knows already which addresses of its original page have entries, by their offsets there.
pub fn draft_page(flash: &Flash, layout: &Layout, known: &[bool; 128], t: u16) -> DraftedPage
    requires right { IsRight layout.now }
    requires known { AreKnown layout.now flash.now.words (t / 128) known.now }
    requires image { length (image_of layout.now flash.now.words) ≡ layout.now.image_words }
    requires inside { t < layout.now.image_words }
    requires unknown { HasNoEntry layout.now flash.now.words t }
    ensures drafted { IsDraftedPage layout.now (image_of layout.now flash.now.words) flash.now.words t result }
    ensures few { result.front ≤ 128 }
{
    let mut draft = Draft::new();
    let here = draft_run(flash, layout, known, t, &mut draft);
    let front = 2 + draft.entries.len() as u16;
    DraftedPage {
        words: draft.words(t),
        front,
        size: front + draft.size,
        last: here.pc,
        next: here.next,
    }
}

/// Gathers the run from `t`, as far as it goes, and tells its last instruction. `known` tells of each address of its original page
/// whether it has an entry.
fn draft_run(
    flash: &Flash,
    layout: &Layout,
    known: &[bool; 128],
    t: u16,
    draft: &mut Draft,
) -> Instruction
    requires right { IsRight layout.now }
    requires known { AreKnown layout.now flash.now.words (t / 128) known.now }
    requires image { length (image_of layout.now flash.now.words) ≡ layout.now.image_words }
    requires inside { t < layout.now.image_words }
    requires unknown { HasNoEntry layout.now flash.now.words t }
    requires entries { draft.old.entries.items ≡ [] }
    requires code { draft.old.code.items ≡ [] }
    requires size { draft.old.size ≡ 0 }
    ensures drafted { IsDrafted layout.now (image_of layout.now flash.now.words) flash.now.words t draft.new result }
{
    let mut here = read(&FlashImage { flash, layout }, t);
    'run: while let Some(next) = next_in_run(
        flash,
        layout,
        known,
        words_with(draft, &here),
        &here,
    ) {
        draft.add(&here);
        here = past_own_words(flash, layout, known, draft, t, next);
    }
    draft.add(&here);
    draft.close(&here);
    here
}

/// The instruction behind this one, where the run goes on to it. The others have `words` words with the
/// page's first two and the map; `known` tells of each address of their original page whether it has an entry.
fn next_in_run(
    flash: &Flash,
    layout: &Layout,
    known: &[bool; 128],
    words: usize,
    here: &Instruction,
) -> Option<Instruction>
    requires right { IsRight layout.now }
    requires known { AreKnown layout.now flash.now.words (here.now.pc / 128) known.now }
    requires image { length (image_of layout.now flash.now.words) ≡ layout.now.image_words }
    requires inside { here.now.pc < layout.now.image_words }
    requires read { IsRead (image_of layout.now flash.now.words) here.now }
    requires words { words ≤ 128 }
    ensures next { MatchOption result
        (StopsBehind layout.now (image_of layout.now flash.now.words) flash.now.words here.now.pc words)
        (λ next. GoesOn layout.now (image_of layout.now flash.now.words) flash.now.words here.now.pc words next) }
{
    if here.ends {
        return None;
    }
    if here.next / PAGE_WORDS != here.pc / PAGE_WORDS {
        return None;
    }
    if here.next >= layout.image_words {
        return None;
    }
    if known[(here.next % PAGE_WORDS) as usize] {
        return None;
    }
    let next = read(&FlashImage { flash, layout }, here.next);
    if words + 1 + usize::from(next.code_size) + usize::from(next.closing_size) > 128 {
        return None;
    }
    Some(next)
}

/// Takes instructions into the draft that have their own words for templates, as far as the run goes from one to the next,
/// beginning with `here`. The last one, which isn't taken, is told.
fn past_own_words(
    flash: &Flash,
    layout: &Layout,
    known: &[bool; 128],
    draft: &mut Draft,
    t: u16,
    here: Instruction,
) -> Instruction
    requires right { IsRight layout.now }
    requires known { AreKnown layout.now flash.now.words (t / 128) known.now }
    requires image { length (image_of layout.now flash.now.words) ≡ layout.now.image_words }
    requires drafting { IsDrafting layout.now (image_of layout.now flash.now.words) flash.now.words t draft.old here }
    ensures drafting { IsDrafting layout.now (image_of layout.now flash.now.words) flash.now.words t draft.new result }
    ensures on { here.pc ≤ result.pc }
{
    let image = FlashImage { flash, layout };
    let first = match image.own_word(here.pc) {
        Some(first) => first,
        None => return here,
    };
    let pc = take_own_words(flash, layout, known, draft, t, here.pc, first);
    if pc == here.pc {
        here
    } else {
        read(&image, pc)
    }
}

/// Takes such instructions, from the one at the pc on. The address of the last one, which isn't taken, is told. `t` serves the
/// contract alone.
fn take_own_words(
    flash: &Flash,
    layout: &Layout,
    known: &[bool; 128],
    draft: &mut Draft,
    t: u16,
    pc: u16,
    first: u16,
) -> u16
    requires right { IsRight layout.now }
    requires known { AreKnown layout.now flash.now.words (t / 128) known.now }
    requires image { length (image_of layout.now flash.now.words) ≡ layout.now.image_words }
    requires own { IsOwn (image_of layout.now flash.now.words) pc first }
    requires drafting { IsDrafting layout.now (image_of layout.now flash.now.words) flash.now.words t draft.old (own_instruction (image_of layout.now flash.now.words) pc first) }
    ensures drafting { IsDraftingOwn layout.now (image_of layout.now flash.now.words) flash.now.words t draft.new result }
    ensures on { pc ≤ result }
{
    let mut pc = pc;
    let mut first = first;
    'run: while let Some(next) = own_word_behind(
        flash,
        layout,
        known,
        4 + draft.entries.len() + usize::from(draft.size),
        pc,
    ) {
        draft.add_word(pc, first);
        pc += 1;
        first = next;
    }
    pc
}

/// The word of the instruction behind one that has its own word for a template, where the run goes on to it, and it has too.
/// `words` and `known` are as with [`next_in_run`].
#[inline(always)]
fn own_word_behind(
    flash: &Flash,
    layout: &Layout,
    known: &[bool; 128],
    words: usize,
    pc: u16,
) -> Option<u16>
    requires right { IsRight layout.now }
    requires known { AreKnown layout.now flash.now.words (pc / 128) known.now }
    requires image { length (image_of layout.now flash.now.words) ≡ layout.now.image_words }
    requires inside { pc < layout.now.image_words }
    requires words { words ≤ 128 }
    ensures next { IfSome result (λ word. IsOwn (image_of layout.now flash.now.words) (pc + 1) word × ((first : ℕ) → IsOwn (image_of layout.now flash.now.words) pc first
        → GoesOn layout.now (image_of layout.now flash.now.words) flash.now.words pc words (own_instruction (image_of layout.now flash.now.words) (pc + 1) word))) }
{
    let next = pc + 1;
    if next / PAGE_WORDS != pc / PAGE_WORDS {
        return None;
    }
    if next >= layout.image_words {
        return None;
    }
    if known[(next % PAGE_WORDS) as usize] {
        return None;
    }
    if words + 2 + usize::from(stub_size(next, next + 1)) > 128 {
        return None;
    }
    let image = FlashImage { flash, layout };
    image.own_word(next)
}

/// The words of the draft's page with this instruction as one more, without its closing.
fn words_with(draft: &Draft, here: &Instruction) -> usize
    requires room { draft.now.size + here.now.code_size ≤ 128 }
    ensures value { result ≡ array_vec_len draft.now.entries + draft.now.size + here.now.code_size + 3 }
{
    2 + draft.entries.len() + 1 + usize::from(draft.size) + usize::from(here.code_size)
}
