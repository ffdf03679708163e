//! The program's own words and instructions, read from flash.

ghost use Rattle.std.specs.Prelude.{◌≡◌, ◌+◌, ◌%◌, ◌<◌, ◌≤◌, ◌↔◌, IsTrue, true, Some as Just, is_some, IfSome};
ghost use Rattle.avr_isa.specs.Image.{word, byte};
ghost use Rattle.avr_decode.specs.Program.{instruction_at};
ghost use Rattle.flash_words.specs.Layouts.{image_of};
ghost use Rattle.flat_machine.specs.FlatMachine.{next_size};

use avr_decode::{decode, size_by_first_word};
use avr_isa::Instr;
use flash_model::{Flash, Layout, word_in_image};

/// The program's instruction at a word address; None where its words there are no instruction.
pub fn instruction_in_image(flash: &Flash, layout: &Layout, at: u16) -> Option<Instr>
    ensures value { result ≡ instruction_at (image_of layout.now flash.now.words) at }
{
    let first = word_in_image(flash, layout, u32::from(at));
    decode(first, word_behind(flash, layout, at))
}

/// The program's instruction at a word address where it has one. Flash has it decoded, but for the image's last word.
pub fn known_instruction(flash: &Flash, layout: &Layout, at: u16) -> Instr
    requires known { is_some (instruction_at (image_of layout.now flash.now.words) at) ≡ true }
    ensures value { instruction_at (image_of layout.now flash.now.words) at ≡ Just result }
{
    match kept_instruction(flash, layout, at) {
        Some(instr) => *instr,
        None => instruction_in_image(flash, layout, at).unwrap(),
    }
}

/// The program's instruction at a word address where it has one, if flash has it decoded.
#[inline(always)]
pub fn kept_instruction<'a>(flash: &'a Flash, layout: &Layout, at: u16) -> Option<&'a Instr>
    requires known { is_some (instruction_at (image_of layout.now flash.now.words) at) ≡ true }
    ensures value { IfSome result (λ instr. instruction_at (image_of layout.now flash.now.words) at ≡ Just instr.now) }
{
    if has_both_words(layout, at) {
        if let Some(decoded) = flash.decoded(at) {
            return Some(&decoded.instr);
        }
    }
    None
}

/// The program's byte at a byte address.
pub fn byte_in_image(flash: &Flash, layout: &Layout, a: u32) -> u8
    ensures value { result ≡ byte (image_of layout.now flash.now.words) a }
{
    let word = word_in_image(flash, layout, a / 2);
    if a % 2 == 0 {
        (word & 0xFF) as u8
    } else {
        (word >> 8) as u8
    }
}

/// How many words a skip at a word address passes, where its condition holds: the size of the instruction
/// behind it, and 1 where there is none.
pub fn next_size_in_image(flash: &Flash, layout: &Layout, at: u16) -> u16
    ensures value { result ≡ next_size (image_of layout.now flash.now.words) at }
    ensures range { (1 ≤ result) × (result ≤ 2) }
{
    if has_both_words(layout, at) {
        if let Some(decoded) = flash.decoded(at) {
            return decoded.next_size;
        }
    }
    size_by_first_word(word_behind(flash, layout, at))
}

/// Whether the words at an address and behind it are both in the image.
fn has_both_words(layout: &Layout, at: u16) -> bool
    ensures value { IsTrue result ↔ (at + 1 < layout.now.image_words) }
{
    u32::from(at) + 1 < u32::from(layout.image_words)
}

/// The word behind an address; behind the last address comes the first.
fn word_behind(flash: &Flash, layout: &Layout, at: u16) -> u16
    ensures value { result ≡ word (image_of layout.now flash.now.words) ((at + 1) % 65536) }
{
    word_in_image(flash, layout, u32::from(at.wrapping_add(1)))
}
