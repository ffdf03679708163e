//! The kernel's entries, word addresses of flash (docs/LOADER.md; `specs/Stubs` defines them).

/// An arrival at an original address.
pub const BRIDGE: u16 = 0xF000;

/// The end of a quantum, at the last crossing that a stub counts.
pub const QUANTUM: u16 = 0xF002;

/// An instruction that reaches memory.
pub const MEM: u16 = 0xF004;

/// A call, whose return address is pushed.
pub const PUSH_RETURN: u16 = 0xF006;

/// RET or RETI.
pub const RETURN: u16 = 0xF008;

/// A jump or call through Z.
pub const INDIRECT: u16 = 0xF00A;

/// A jump to its own address.
pub const SELF: u16 = 0xF00C;

/// What is not executed.
pub const FAULT: u16 = 0xF00E;
