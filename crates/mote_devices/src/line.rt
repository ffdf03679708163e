//! What a write shows outside.

/// An output that is seen outside.
#[derive(Clone, Copy, PartialEq, Eq)]
pub enum Port {
    PortA,
    PortB,
    PortC,
    PortD,
    /// The direction of port A's pins.
    DdrA,
    DdrB,
    DdrC,
    DdrD,
    /// The serial port.
    Uart0,
}

/// One byte that was written to an output.
#[derive(Clone, Copy, PartialEq, Eq)]
pub struct Line {
    pub port: Port,
    pub value: u8,
}
