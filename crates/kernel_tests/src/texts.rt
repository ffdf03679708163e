//! Lines as users see them.

use mote_devices::{Line, Port};
use printed_text::device_line;

#[test]
fn a_line_has_the_outputs_name_and_the_value(rt: HostRuntime) {
    let rows: [(Port, u8, &[u8]); 4] = [
        (Port::PortA, 0x0F, b"PORTA 0x0F\n"),
        (Port::PortD, 0xFF, b"PORTD 0xFF\n"),
        (Port::DdrB, 0x00, b"DDRB 0x00\n"),
        (Port::Uart0, 0xA9, b"UART0 0xA9\n"),
    ];
    for (port, value, line) in rows {
        assert!(rt; device_line(Line { port, value }).as_slice() == line);
    }
}
