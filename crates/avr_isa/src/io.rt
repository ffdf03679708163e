//! The I/O registers: how a program may access each, and what it does.
ghost use Rattle.std.specs.Prelude.{◌≡◌};
ghost use Rattle.avr_isa.specs.IoTable.{can_read, can_write, register_at};

/// The data address of EIMSK.
pub const EIMSK: u16 = 0x59;

/// The data address of RAMPZ.
pub const RAMPZ: u16 = 0x5B;

/// The directions in which a program may access an I/O register.
#[derive(Clone, Copy)]
pub struct IoAccess {
    pub read: bool,
    pub write: bool,
}

const NEITHER: IoAccess = IoAccess {
    read: false,
    write: false,
};

const READ_ONLY: IoAccess = IoAccess {
    read: true,
    write: false,
};

const BOTH: IoAccess = IoAccess {
    read: true,
    write: true,
};

/// What an I/O register does. Ports are numbered: 0 to 3 are A to D.
#[derive(Clone, Copy)]
pub enum IoRegister {
    /// A read gives the last value written.
    Stored,
    /// The direction of a port's pins (DDRx): stored, and each write is seen outside.
    Direction(u8),
    /// The output of a port (PORTx): stored, and each write is seen outside.
    Output(u8),
    /// The pins of a port (PINx).
    Pins(u8),
    /// Whether a byte was received (UCSR0A).
    SerialStatus,
    /// The byte received, and the byte to send (UDR0).
    SerialData,
    /// The low byte of the converter's result (ADCL).
    ConverterLow,
    /// Its high bits (ADCH).
    ConverterHigh,
    /// The converter's control and status (ADCSRA).
    ConverterControl,
    /// The timer's count (TCNT0).
    Timer,
}

/// How a program may access the I/O register at a data address, and what the register does (ATmega128
/// datasheet, "Register Summary"). An address that is no register of the profile allows nothing.
#[tactic(auto, unfolding(crate::specs::IoTable::can_read, crate::specs::IoTable::can_write, crate::specs::IoTable::register_at))]
#[inline(always)]
pub fn io_row(a: u16) -> (IoAccess, IoRegister)
    ensures read { result.0.read ≡ can_read a }
    ensures write { result.0.write ≡ can_write a }
    ensures register { result.1 ≡ register_at a }
{
    match a {
        0x24 => (READ_ONLY, IoRegister::ConverterLow), // ADCL
        0x25 => (READ_ONLY, IoRegister::ConverterHigh), // ADCH
        0x26 => (BOTH, IoRegister::ConverterControl), // ADCSRA
        0x27 => (BOTH, IoRegister::Stored), // ADMUX
        0x29 => (BOTH, IoRegister::Stored), // UBRR0L
        0x2A => (BOTH, IoRegister::Stored), // UCSR0B
        0x2B => (BOTH, IoRegister::SerialStatus), // UCSR0A
        0x2C => (BOTH, IoRegister::SerialData), // UDR0
        0x30 => (READ_ONLY, IoRegister::Pins(3)), // PIND
        0x31 => (BOTH, IoRegister::Direction(3)), // DDRD
        0x32 => (BOTH, IoRegister::Output(3)), // PORTD
        0x33 => (READ_ONLY, IoRegister::Pins(2)), // PINC
        0x34 => (BOTH, IoRegister::Direction(2)), // DDRC
        0x35 => (BOTH, IoRegister::Output(2)), // PORTC
        0x36 => (READ_ONLY, IoRegister::Pins(1)), // PINB
        0x37 => (BOTH, IoRegister::Direction(1)), // DDRB
        0x38 => (BOTH, IoRegister::Output(1)), // PORTB
        0x39 => (READ_ONLY, IoRegister::Pins(0)), // PINA
        0x3A => (BOTH, IoRegister::Direction(0)), // DDRA
        0x3B => (BOTH, IoRegister::Output(0)), // PORTA
        0x52 => (BOTH, IoRegister::Timer), // TCNT0
        0x53 => (BOTH, IoRegister::Stored), // TCCR0
        0x55 => (BOTH, IoRegister::Stored), // MCUCR
        EIMSK => (BOTH, IoRegister::Stored),
        0x5A => (BOTH, IoRegister::Stored), // EICRB
        RAMPZ => (BOTH, IoRegister::Stored),
        0x5D => (BOTH, IoRegister::Stored), // SPL
        0x5E => (BOTH, IoRegister::Stored), // SPH
        0x5F => (BOTH, IoRegister::Stored), // SREG
        0x6A => (BOTH, IoRegister::Stored), // EICRA
        0x90 => (BOTH, IoRegister::Stored), // UBRR0H
        0x95 => (BOTH, IoRegister::Stored), // UCSR0C
        _ => (NEITHER, IoRegister::Stored),
    }
}

/// How a program may access the I/O register at a data address. The stack pointer and SREG, 0x5D to
/// 0x5F, allow both.
pub fn io_access(a: u16) -> IoAccess
    ensures read { result.read ≡ can_read a }
    ensures write { result.write ≡ can_write a }
{
    io_row(a).0
}
