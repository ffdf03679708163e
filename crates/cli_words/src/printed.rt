//! The jobs that print one line.
ghost use Rattle.std.specs.Prelude.{◌≡◌};
ghost use Rattle.printed_text.specs.FaultyLines.{hex_part, script_part};
ghost use Rattle.hex_image.specs.HexText.{hex_word};
ghost use Rattle.input_script.specs.Script.{script_word};
ghost use Rattle.cli_words.specs.Printed.{bad_part, no_memory, read_fault, too_long, usage};

use crate::job::Job;
use crate::status::Status;
use hex_image::HexFault;
use input_script::ScriptFault;
use printed_text::{
    bad_hex_line, bad_script_line, no_memory_line, read_fault_line, too_long_line, usage_line,
};

/// The usage line.
pub fn usage(status: Status) -> Job
    ensures job { result ≡ usage status }
{
    Job::Print(status, usage_line())
}

/// The source failed.
pub fn read_fault() -> Job
    ensures job { result ≡ read_fault }
{
    Job::Print(Status::ReadFault, read_fault_line())
}

/// The input has more than 2,097,152 bytes.
pub fn too_long() -> Job
    ensures job { result ≡ too_long }
{
    Job::Print(Status::BadInput, too_long_line())
}

/// Memory was wanted and not found.
pub fn no_memory() -> Job
    ensures job { result ≡ no_memory }
{
    Job::Print(Status::NoMemory, no_memory_line())
}

/// The HEX text is broken: its first faulty line, from 1, and its first fault.
pub fn bad_hex(line: u32, fault: HexFault) -> Job
    ensures job { result ≡ bad_part hex_part line (hex_word fault) }
{
    Job::Print(Status::BadInput, bad_hex_line(line, fault))
}

/// The script is broken: its first faulty line, from 1 at the script's first, and its first fault.
pub fn bad_script(line: u32, fault: ScriptFault) -> Job
    ensures job { result ≡ bad_part script_part line (script_word fault) }
{
    Job::Print(Status::BadInput, bad_script_line(line, fault))
}
