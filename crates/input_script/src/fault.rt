//! Why a script is refused.
ghost use Rattle.std.specs.Prelude.{◌≡◌, ◌≤◌, length};
ghost use Rattle.input_script.specs.Script.{script_word};

use thiserror::Error;

/// What is wrong with a line, in the order in which faults are looked for.
#[derive(Debug, Clone, Copy, PartialEq, Eq, Error)]
pub enum ScriptFault {
    /// The line is no event, no fail line, no comment and not empty.
    #[error("form")]
    Form,
    /// An earlier event, or for a fail line an earlier fail line, has a greater number.
    #[error("order")]
    Order,
    /// The number is above 4,294,967,295, that of a fail line is 0, or an adc value is above 0x3FF.
    #[error("range")]
    Range,
    /// 65,536 events and fail lines came before.
    #[error("events")]
    TooMany,
}

impl ScriptFault {
    /// The word by which it is told.
    pub fn word(self) -> &'static [u8]
        ensures word { result.now ≡ script_word self }
        ensures short { length result.now ≤ 8 }
    {
        match self {
            ScriptFault::Form => b"form",
            ScriptFault::Order => b"order",
            ScriptFault::Range => b"range",
            ScriptFault::TooMany => b"events",
        }
    }
}

/// Why a script was not read.
#[derive(Debug, Clone, Copy, PartialEq, Eq)]
pub enum ScriptError {
    /// The first faulty line, counted from 1, and its first fault.
    Bad { line: u32, fault: ScriptFault },
    /// Memory was wanting.
    NoMemory,
}
