//! The registers of the core.

ghost use Rattle.std.specs.Prelude.{◌≡◌};
ghost use Rattle.avr_exec.specs.Registers.{is_own as is_own_test};

use avr_isa::Reg;

/// The first data address above those that the core answers itself.
pub(crate) const OWN_END: u16 = 0x60;

/// The registers of an AVR core.
#[derive(Clone, Copy, PartialEq, Eq)]
pub struct Cpu {
    /// r0 to r31.
    pub r: [u8; 32],
    /// The status register: C Z N V S H T I from bit 0 on.
    pub sreg: u8,
    /// The stack pointer, which points below the last byte pushed.
    pub sp: u16,
    /// The program counter, in words.
    pub pc: u16,
}

impl Cpu {
    ghost use Rattle.std.specs.Prelude.{◌≡◌, ◌<◌, true};
    ghost use Rattle.avr_exec.specs.Registers.{register as register_of, with_register, pair as pair_of, with_pair, is_own, own_byte as own_byte_of, with_own_byte};

    /// The register of this number.
    pub fn register(&self, number: u8) -> u8
        requires { number < 32 }
        ensures { result ≡ register_of self.now number }
    {
        self.r[number as usize]
    }

    /// Writes the register of this number.
    pub fn set_register(&mut self, number: u8, value: u8)
        requires { number < 32 }
        ensures { self.new ≡ with_register self.old number value }
    {
        self.r[number as usize] = value;
    }

    /// The byte in a register.
    pub fn byte(&self, r: &Reg) -> u8
        ensures { result ≡ register_of self.now r.now }
    {
        self.register(r.get())
    }

    /// Writes the byte in a register.
    pub fn set_byte(&mut self, d: &Reg, value: u8)
        ensures { self.new ≡ with_register self.old d.now value }
    {
        self.set_register(d.get(), value);
    }

    /// The pair whose low register has this number.
    pub fn pair(&self, low: u8) -> u16
        requires { low < 31 }
        ensures { result ≡ pair_of self.now low }
    {
        let first = usize::from(low);
        u16::from_le_bytes([self.r[first], self.r[first + 1]])
    }

    /// Writes the pair whose low register has this number.
    pub fn set_pair(&mut self, low: u8, value: u16)
        requires { low < 31 }
        ensures { self.new ≡ with_pair self.old low value }
    {
        let first = usize::from(low);
        self.r[first] = (value & 0xFF) as u8;
        self.r[first + 1] = (value >> 8) as u8;
    }

    /// The byte at a data address that the core answers itself.
    #[tactic(auto, unfolding(crate::specs::Registers::own_byte))]
    pub(crate) fn own_byte(&self, address: u16) -> u8
        requires { is_own address ≡ true }
        ensures { result ≡ own_byte_of self.now address }
    {
        match address {
            0x5D => (self.sp & 0xFF) as u8,
            0x5E => (self.sp >> 8) as u8,
            0x5F => self.sreg,
            _ => self.register(address as u8),
        }
    }

    /// Writes the byte at a data address that the core answers itself.
    #[tactic(auto, unfolding(crate::specs::Registers::with_own_byte))]
    pub(crate) fn set_own_byte(&mut self, address: u16, value: u8)
        requires { is_own address ≡ true }
        ensures after { self.new ≡ with_own_byte self.old address value }
        ensures pc { self.new.pc ≡ self.old.pc }
    {
        match address {
            0x5D => self.sp = (self.sp >> 8 << 8) + u16::from(value),
            0x5E => self.sp = (u16::from(value) << 8) + (self.sp & 0xFF),
            0x5F => self.sreg = value,
            _ => self.set_register(address as u8, value),
        }
    }
}

/// Whether the core answers a data address itself: r0 to r31, SPL, SPH and SREG.
pub(crate) fn is_own_address(address: u16) -> bool
    ensures { result ≡ is_own_test address }
{
    address < OWN_END && (address < 0x20 || 0x5D <= address)
}
