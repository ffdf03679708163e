//! What is shown of a watched run.
ghost use Rattle.std.specs.Prelude.{◌≡◌, IfSome};
ghost use Rattle.tk_watch.specs.Kept.{IsPossible};
ghost use Rattle.tk_watch.specs.Words.{view_in, views};

use arrayvec::ArrayVec;

/// What is printed where the words ask for no view.
pub(crate) const USAGE: &[u8] =
    b"usage: tkwatch lines | state | memory | profile | trace N COUNT | visits 0xPC.. | changes 0xADDR COUNT | accesses 0xADDR COUNT [--steps N] [--quantum Q] [--swap S]\n";

/// How many places are looked for at most.
pub const MOST_PLACES: usize = 16;

/// How many bytes are watched at most.
pub const MOST_BYTES: usize = 64;

/// Word addresses.
pub type Places = ArrayVec<u16, MOST_PLACES>;

/// What is shown of a watched run.
#[derive(Drop)]
pub enum View {
    /// Each device line, with its step.
    Lines,
    /// What stands at the stop, a line each.
    State,
    /// The program's memory, in rows.
    Memory,
    /// How many steps began at each address.
    Profile,
    /// What stands after so many steps, and after each later one, so many times.
    Trace(u64, u64),
    /// After which steps the program stands at one of these word addresses.
    Visits(Places),
    /// Which of the bytes from a data address on a step changes, so many of them.
    Changes(u16, u8),
    /// Which of the bytes from a data address on a step reads or writes by address, so many of them.
    Accesses(u16, u32),
}

impl View {
    /// The view of this word, of those that are one word.
    pub(crate) fn named(word: &str) -> Option<View>
        ensures view { result ≡ view_in views word.now }
        ensures possible { IfSome result IsPossible }
    {
        Some(match word {
            "lines" => View::Lines,
            "state" => View::State,
            "memory" => View::Memory,
            "profile" => View::Profile,
            _ => return None,
        })
    }
}
