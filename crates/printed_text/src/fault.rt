//! The lines that name what is wrong with an input.
ghost use Rattle.std.specs.Prelude.{◌≡◌, ◌≤◌, length};
ghost use Rattle.avr_asm.specs.AsmText.{asm_word};
ghost use Rattle.flash_dump.specs.DumpLines.{dump_word};
ghost use Rattle.hex_image.specs.HexText.{hex_word};
ghost use Rattle.input_script.specs.Script.{script_word};
ghost use Rattle.printed_text.specs.FaultyLines.{asm_part, bad_image_text, bad_line_text, dump_part, hex_part, script_part};

use avr_asm::AsmFault;
use flash_dump::DumpFault;
use hex_image::HexFault;
use input_script::ScriptFault;
use text_lines::{Text, push, push_address, push_number, whole};

/// The HEX text is broken: its first faulty line, from 1, and the line's first fault.
pub fn bad_hex_line(line: u32, fault: HexFault) -> Text
    ensures text { result.items ≡ bad_line_text hex_part line (hex_word fault) }
{
    bad_line(b"bad hex line ", line, fault.word())
}

/// The script is broken.
pub fn bad_script_line(line: u32, fault: ScriptFault) -> Text
    ensures text { result.items ≡ bad_line_text script_part line (script_word fault) }
{
    bad_line(b"bad script line ", line, fault.word())
}

/// The dump is broken.
pub fn bad_dump_line(line: u32, fault: DumpFault) -> Text
    ensures text { result.items ≡ bad_line_text dump_part line (dump_word fault) }
{
    bad_line(b"bad dump line ", line, fault.word())
}

/// The source is broken.
pub fn bad_asm_line(line: u32, fault: AsmFault) -> Text
    ensures text { result.items ≡ bad_line_text asm_part line (asm_word fault) }
{
    bad_line(b"bad asm line ", line, fault.word())
}

/// The first word of an image that no task has.
#[tactic(auto, unfolding(crate::specs::FaultyLines::bad_image_text))]
pub fn bad_image_line(address: u16) -> Text
    ensures text { result.items ≡ bad_image_text address }
{
    let mut text = whole(b"bad task image ");
    push_address(&mut text, address);
    push(&mut text, b"\n");
    text
}

/// The line that names a faulty line of a part of the input, and its fault.
#[tactic(auto, unfolding(crate::specs::FaultyLines::bad_line_text))]
fn bad_line(part: &[u8], line: u32, word: &[u8]) -> Text
    requires part { length part.now ≤ 40 }
    requires word { length word.now ≤ 40 }
    ensures text { result.items ≡ bad_line_text part.now line word.now }
{
    let mut text = Text::new();
    push(&mut text, part);
    push_number(&mut text, u64::from(line));
    push(&mut text, b" ");
    push(&mut text, word);
    push(&mut text, b"\n");
    text
}
