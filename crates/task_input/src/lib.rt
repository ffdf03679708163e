//! What up to four tasks on one mote are told: their scripts, which are one text, and their image.
//!
//! ```rust
//! let scripts = read_scripts(alloc, text, 2)?; // lines such as `task 1 at 5 uart 0x41`
//! if let Some(address) = misplaced_word(&image, 2) { .. } // a word that no task has
//! let whole = task_image(alloc, &image, 2)?; // the words of both quarters
//! ```
//!
//! Task i has the words 4096·i to 4096·i + 4095 of the image. `specs/Scripts` is what a script of several tasks says, and
//! `specs/Images` which words may not stand; docs/TASKS.md tells both. [`grammar`] is the law that the former say what the format
//! says of all lines at once (`specs/GrammarLaw`): each task's own lines are a script.
#![tactic(auto)]

mod image;
mod laws;
mod lines;
mod script;

pub use image::{QUARTER, misplaced_word, task_image};
pub use laws::grammar;
pub use script::read_scripts;
