//! The page of a run, while the run is read.

ghost use Rattle.std.specs.Prelude.{◌≡◌, ◌+◌, ◌-◌, ◌*◌, ◌%◌, ◌<◌, ◌≤◌, ◌∷◌, ◌++◌, [], All, length, map};
ghost use Rattle.arrayvec.specs.ArrayVec.{array_vec_len};
ghost use Rattle.flash_words.specs.Layouts.{most_entries};
ghost use Rattle.nat_template.specs.declared.piece.Piece.TheVariants.{Fixed};
ghost use Rattle.nat_template.specs.Stubs.{words_of};
ghost use Rattle.page_draft.specs.Standing.{size as size_of};
ghost use Rattle.page_draft.specs.CodePages.{filled};
ghost use Rattle.page_draft.specs.Drafts.{Adds, code_of, closing_of, draft_pieces};

use crate::instruction::Instruction;
use crate::pieces::{filled_up, push_words};
use arrayvec::ArrayVec;
use flash_words::PAGE_WORDS;
use nat_template::{Piece, TemplateShape};

/// The most entries of a page.
const MOST_ENTRIES: usize = flash_words::MOST_ENTRIES as usize;

/// The entries and the code of a page.
#[derive(Drop)]
pub struct Draft {
    /// For each instruction 256 times its offset in the original page, and the words of code in front of
    /// its template.
    pub entries: ArrayVec<u16, MOST_ENTRIES>,
    /// The templates, and the closing.
    pub code: ArrayVec<Piece, 128>,
    /// How many words these have.
    pub size: u16,
}

impl Draft {
    /// A draft with no instruction.
    pub fn new() -> Draft
        ensures entries { result.entries.items ≡ [] }
        ensures code { result.code.items ≡ [] }
        ensures size { result.size ≡ 0 }
    {
        Draft {
            entries: ArrayVec::new(),
            code: ArrayVec::new(),
            size: 0,
        }
    }

    /// Adds the instruction.
    #[inline(always)]
    pub fn add(&mut self, here: &Instruction)
        requires entries { array_vec_len self.old.entries < most_entries }
        requires sized { self.old.size ≡ size_of self.old.code.items }
        requires read { here.now.code_size ≡ size_of (code_of here.now) }
        requires room { self.old.size + here.now.code_size ≤ 128 }
        ensures adds { Adds self.old self.new here.now }
    {
        self.entries.push(256 * (here.pc % PAGE_WORDS) + self.size);
        add_code(&mut self.code, here);
        self.size += here.code_size;
    }

    /// Adds an instruction that has its own word for a template.
    #[inline(always)]
    pub fn add_word(&mut self, pc: u16, word: u16)
        requires entries { array_vec_len self.old.entries < most_entries }
        requires sized { self.old.size ≡ size_of self.old.code.items }
        requires room { self.old.size + 1 ≤ 128 }
        ensures entries { self.new.entries.items ≡ self.old.entries.items ++ (256 * (pc % 128) + self.old.size) ∷ [] }
        ensures code { self.new.code.items ≡ self.old.code.items ++ Fixed word ∷ [] }
        ensures size { self.new.size ≡ self.old.size + 1 }
    {
        self.entries.push(256 * (pc % PAGE_WORDS) + self.size);
        self.code.push(Piece::Fixed(word));
        self.size += 1;
    }

    /// Adds the closing of the last instruction.
    pub fn close(&mut self, last: &Instruction)
        requires sized { self.old.size ≡ size_of self.old.code.items }
        requires read { last.now.closing_size ≡ size_of (closing_of last.now) }
        requires room { self.old.size + last.now.closing_size ≤ 128 }
        ensures entries { self.new.entries ≡ self.old.entries }
        ensures code { self.new.code.items ≡ self.old.code.items ++ closing_of last.now }
        ensures size { self.new.size ≡ self.old.size + last.now.closing_size }
    {
        self.code.try_extend_from_slice(&last.closing()).unwrap();
        self.size += last.closing_size;
    }

    /// The pieces of the page, for the run from `t`.
    pub fn pieces(&self, t: u16) -> ArrayVec<Piece, 128>
        requires sized { self.now.size ≡ size_of self.now.code.items }
        requires fits { 2 + array_vec_len self.now.entries + self.now.size ≤ 128 }
        requires small { All (λ entry. entry < 65536 - 128) self.now.entries.items }
        ensures pieces { result.items ≡ draft_pieces t self.now.entries.items self.now.code.items }
    {
        let count = self.entries.len() as u16;
        let mut pieces = ArrayVec::new();
        pieces.push(Piece::Fixed(t / PAGE_WORDS));
        pieces.push(Piece::Fixed(count));
        push_map(&mut pieces, &self.entries, 2 + count);
        pieces.try_extend_from_slice(&self.code).unwrap();
        pieces
    }

    /// The 128 words of the page, for the run from `t`. No link is resolved.
    #[tactic(auto, using(crate::proofs::DraftLaws::draft_words))]
    pub fn words(&self, t: u16) -> [u16; 128]
        requires sized { self.now.size ≡ size_of self.now.code.items }
        requires fits { 2 + array_vec_len self.now.entries + self.now.size ≤ 128 }
        requires small { All (λ entry. entry < 65536 - 128) self.now.entries.items }
        ensures words { result ≡ filled (words_of (draft_pieces t self.now.entries.items self.now.code.items)) }
    {
        let count = self.entries.len() as u16;
        let mut words = ArrayVec::new();
        words.push(t / PAGE_WORDS);
        words.push(count);
        push_map_words(&mut words, &self.entries, 2 + count);
        push_words(&mut words, &self.code);
        filled_up(&words)
    }
}

/// Adds the template of the instruction, which is mostly its own word.
#[tactic(auto, unfolding(nat_template::specs::Templates::template_by))]
fn add_code(code: &mut ArrayVec<Piece, 128>, here: &Instruction)
    requires room { array_vec_len code.old + size_of (code_of here.now) ≤ 128 }
    ensures code { code.new.items ≡ code.old.items ++ code_of here.now }
{
    match here.shape {
        TemplateShape::Native => code.push(Piece::Fixed(here.first)),
        _ => add_template(code, here),
    }
}

/// Adds any template. It stands apart, so that what is its own word needs no room for one.
#[inline(never)]
fn add_template(code: &mut ArrayVec<Piece, 128>, here: &Instruction)
    requires room { array_vec_len code.old + size_of (code_of here.now) ≤ 128 }
    ensures code { code.new.items ≡ code.old.items ++ code_of here.now }
{
    code.try_extend_from_slice(&here.code()).unwrap();
}

/// Adds the map's words: in front of each template stand this many more words.
fn push_map(pieces: &mut ArrayVec<Piece, 128>, entries: &[u16], more: u16)
    requires room { array_vec_len pieces.old + length entries.now ≤ 128 }
    requires small { All (λ entry. entry + more < 65536) entries.now }
    ensures pieces { pieces.new.items ≡ pieces.old.items ++ map (λ entry. Fixed (entry + more)) entries.now }
{
    for entry in entries {
        pieces.push(Piece::Fixed(*entry + more));
    }
}

/// Adds the map's words as they stand in flash.
fn push_map_words(words: &mut ArrayVec<u16, 128>, entries: &[u16], more: u16)
    requires room { array_vec_len words.old + length entries.now ≤ 128 }
    requires small { All (λ entry. entry + more < 65536) entries.now }
    ensures words { words.new.items ≡ words.old.items ++ map (λ entry. entry + more) entries.now }
{
    for entry in entries {
        words.push(*entry + more);
    }
}
