//! The inputs of the mote's devices.

/// What a device receives.
#[derive(Clone, Copy, PartialEq, Eq)]
pub enum Input {
    /// The pins of a port, 0 to 3 for ports A to D, are as in this byte.
    Pin(u8, u8),
    /// The serial port receives this byte.
    Uart(u8),
    /// The converter's result, 0 to 0x3FF.
    Adc(u16),
    /// The interrupt INTk of this k, 0 to 7, is requested.
    Int(u8),
}

/// An input, and the number of the poll at which it takes effect: the first poll is number 1, and an
/// event with number 0 or 1 takes effect at it.
#[derive(Clone, Copy)]
pub struct Event {
    pub at: u32,
    pub input: Input,
}
