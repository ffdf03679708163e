//! The line of a write to an output of a device.
ghost use Rattle.std.specs.Prelude.{◌≡◌, ◌≤◌, length};
ghost use Rattle.arrayvec.specs.ArrayVec.{array_vec_len};
ghost use Rattle.printed_text.specs.DeviceLines.{device_line_text, port_name};

use mote_devices::{Line, Port};
use text_lines::{Text, push, push_byte};

/// The name of the output, and the value that was written.
#[tactic(auto, unfolding(crate::specs::DeviceLines::device_line_text))]
pub fn device_line(line: Line) -> Text
    ensures text { result.items ≡ device_line_text line }
    ensures short { array_vec_len result ≤ 14 }
{
    let mut text = Text::new();
    push(&mut text, name(line.port));
    push(&mut text, b" ");
    push_byte(&mut text, line.value);
    push(&mut text, b"\n");
    text
}

fn name(port: Port) -> &'static [u8]
    ensures name { result.now ≡ port_name port }
    ensures short { length result.now ≤ 8 }
{
    match port {
        Port::PortA => b"PORTA",
        Port::PortB => b"PORTB",
        Port::PortC => b"PORTC",
        Port::PortD => b"PORTD",
        Port::DdrA => b"DDRA",
        Port::DdrB => b"DDRB",
        Port::DdrC => b"DDRC",
        Port::DdrD => b"DDRD",
        Port::Uart0 => b"UART0",
    }
}
