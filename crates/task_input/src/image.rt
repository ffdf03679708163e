//! The image of several tasks.

ghost use Rattle.std.specs.Prelude.{◌≡◌, ◌≤◌, ◌↔◌, ℕ, IsTrue, IfOk, MatchOption};
ghost use Rattle.task_input.specs.Images.{IsApart, IsMisplaced, IsFirstMisplaced, task_words};

use base::NoMemory;
use flash_words::BLANK;
use hex_image::Image;
use std::alloc::Global;

/// The words of a task's quarter.
pub const QUARTER: u16 = 4096;

/// The least word address at which no task's word may stand, and one does: behind the last quarter, or at one of
/// the last two words of a quarter.
pub fn misplaced_word(image: &Image, count: u8) -> Option<u16>
    requires { count ≤ 4 }
    ensures cases { MatchOption result ((address : ℕ) → ¬ IsMisplaced count image.now address) (IsFirstMisplaced count image.now) }
{
    'words: for address in 0..image.len_words() {
        if is_apart(address, count) && image.word(address) != BLANK {
            return Some(address);
        }
    }
    None
}

/// Whether no task's word may stand at a word address.
fn is_apart(address: u16, count: u8) -> bool
    requires { count ≤ 4 }
    ensures cases { IsTrue result ↔ IsApart count address }
{
    QUARTER * u16::from(count) <= address || QUARTER - 2 <= address % QUARTER
}

/// The image of as many quarters as there are tasks: the words of an image, and blank words behind them.
pub fn task_image(alloc: Global, image: &Image, count: u8) -> Result<Image, NoMemory>
    requires { count ≤ 4 }
    ensures words { IfOk result (λ whole. whole ≡ task_words count image.now) }
{
    let mut words = Vec::new(alloc);
    'words: for address in 0..QUARTER * u16::from(count) {
        if words.push(image.word(address)).is_err() {
            return Err(NoMemory);
        }
    }
    Image::from_words(alloc, words.as_slice())
}
