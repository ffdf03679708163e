//! The lines that stand as they are.
ghost use Rattle.std.specs.Prelude.{◌≡◌};
ghost use Rattle.printed_text.specs.PlainLines.{no_memory_line, read_fault_line, too_long_line, usage_line};

use text_lines::{Text, whole};

/// The usage line.
pub fn usage_line() -> Text
    ensures text { result.items ≡ usage_line }
{
    whole(b"usage: tkernel run [--steps N] [--quantum Q] [--swap S]\n")
}

/// The source failed.
pub fn read_fault_line() -> Text
    ensures text { result.items ≡ read_fault_line }
{
    whole(b"read fault\n")
}

/// The input has more than 2,097,152 bytes.
pub fn too_long_line() -> Text
    ensures text { result.items ≡ too_long_line }
{
    whole(b"input too long\n")
}

/// What is printed where memory was wanted and not found.
pub const NO_MEMORY: &[u8; 10] = b"no memory\n";

/// Memory was wanted and not found.
pub fn no_memory_line() -> Text
    ensures text { result.items ≡ no_memory_line }
{
    whole(NO_MEMORY)
}
