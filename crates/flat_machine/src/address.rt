//! The classes of data addresses.

ghost use Rattle.std.specs.Prelude.{◌≡◌};
ghost use Rattle.flat_machine.specs.Addresses.{is_stack as is_stack_test};
ghost use Rattle.flat_machine.specs.Classes.{class_of};

/// What stands at a data address of the program's machine.
#[derive(Clone, Copy, PartialEq, Eq)]
pub enum AddrClass {
    /// r0 to r31.
    Register,
    /// SPL, SPH and SREG, which the core has itself.
    Cpu,
    /// A register of a device, or nothing: every other address below 0x0100.
    Io,
    /// The stack window.
    Stack,
    /// The heap: all other addresses.
    Heap,
}

/// The class of a data address.
#[tactic(auto, unfolding(crate::specs::Classes::class_of))]
pub fn class(a: u16) -> AddrClass
    ensures value { result ≡ class_of a }
{
    match a {
        0x0000..=0x001F => AddrClass::Register,
        0x005D..=0x005F => AddrClass::Cpu,
        0x0020..=0x00FF => AddrClass::Io,
        _ if is_stack(a) => AddrClass::Stack,
        _ => AddrClass::Heap,
    }
}

/// Whether a data address is in the stack window.
pub fn is_stack(a: u16) -> bool
    ensures value { result ≡ is_stack_test a }
{
    0x0D00 <= a && a <= 0x10FF
}
