//! Both passes.

ghost use Rattle.std.specs.Prelude.{◌≡◌, ◌≤◌, length, None, IfOk, IfErr};
ghost use Rattle.hex_image.specs.Image.{most_words};
ghost use Rattle.avr_asm.specs.AsmText.{AsmText, fault_of, IsRefusal};

use crate::fault::AsmError;
use crate::first_pass::first_pass;
use crate::second_pass::second_pass;
use base::NoMemory;
use hex_image::Image;
use std::alloc::Global;

/// The image of a text.
///
/// # Errors
///
/// The first faulty line, and its fault; `NoMemory` where memory is wanting.
pub fn assemble(alloc: Global, text: &[u8]) -> Result<Image, AsmError>
    requires short { length text.now ≤ 2097152 }

    // No line has a fault, and these are the words of its lines.
    ensures sound { IfOk result (λ image. fault_of text.now ≡ None) }
    ensures words { IfOk result (AsmText text.now) }

    // The first line with a fault, and its first.
    ensures bad { IfErr result (IsRefusal text.now) }
{
    let words = match words_of(alloc, text) {
        Ok(words) => words,
        Err(error) => return Err(error),
    };
    match Image::from_words(alloc, words.as_slice()) {
        Ok(image) => Ok(image),
        Err(NoMemory) => Err(AsmError::NoMemory),
    }
}

/// The words of a text.
fn words_of(alloc: Global, text: &[u8]) -> Result<Vec<u16>, AsmError>
    requires short { length text.now ≤ 2097152 }
    ensures sound { IfOk result (λ words. fault_of text.now ≡ None) }
    ensures words { IfOk result (λ words. AsmText text.now words.items) }
    ensures few { IfOk result (λ words. length words.items ≤ most_words) }
    ensures bad { IfErr result (IsRefusal text.now) }
{
    match first_pass(alloc, text) {
        Ok(pass) => second_pass(alloc, text, &pass.labels),
        Err(error) => Err(error),
    }
}
