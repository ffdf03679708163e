//! Which reads of registers are polls, and which ports their writes are seen at.

ghost use Rattle.std.specs.Prelude.{◌≡◌};
ghost use Rattle.mote_devices.specs.Registers.{is_polled as is_polled_test};
ghost use Rattle.mote_devices.specs.Accesses.{line_at as line_at_of};

use crate::line::{Line, Port};
use avr_isa::IoRegister;

/// The outputs of ports A to D.
pub(crate) const OUTPUTS: [Port; 4] = [Port::PortA, Port::PortB, Port::PortC, Port::PortD];

/// The directions of their pins.
pub(crate) const DIRECTIONS: [Port; 4] = [Port::DdrA, Port::DdrB, Port::DdrC, Port::DdrD];

/// Whether a read of the register is a poll.
pub(crate) fn is_polled(register: IoRegister) -> bool
    ensures value { result ≡ is_polled_test register }
{
    !matches!(
        register,
        IoRegister::Stored | IoRegister::Direction(_) | IoRegister::Output(_)
    )
}

/// A byte at the port with a number, if there is one.
pub(crate) fn line_at(ports: &[Port], number: u8, value: u8) -> Option<Line>
    ensures line { result ≡ line_at_of ports.now number value }
{
    let port = *ports.get(number as usize)?;
    Some(Line { port, value })
}
