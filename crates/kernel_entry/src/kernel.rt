//! The kernel's state, its answers, and what is known of a run between two of them.

use flash_model::Layout;
use flat_machine::Part;
use mote_core::Mote;
use mote_devices::Line;

/// The mote, with what the kernel knows of it.
#[derive(Drop)]
pub struct Kernel {
    pub mote: Mote,
    pub layout: Layout,
    /// The words of the image that the program may run.
    pub part: Part,
    /// How many crossings make a checkpoint.
    pub quantum: u8,
}

/// Why the program stopped: the address of the instruction in the image; with it, for `Read` the word address, and for
/// the last three the data address that it would have touched.
#[derive(Clone, Copy)]
pub enum Stop {
    /// An RJMP or JMP to its own address with interrupts off.
    Halted(u16),
    /// SLEEP, and no interrupt will end it.
    Asleep(u16),
    /// The words are no instruction.
    Illegal(u16),
    /// SPM.
    SelfProgram(u16),
    /// LPM or ELPM of a word of the image that the program may not read.
    Read(u16, u16),
    /// A register of a device that may not be accessed so.
    Io(u16, u16),
    /// A byte outside the stack window.
    Stack(u16, u16),
    /// A store to one more page of the heap, when all slots are given.
    SwapFull(u16, u16),
}

/// How the program goes on.
#[derive(Clone, Copy)]
pub enum Served {
    /// Behind the descriptor, where the pc is now. What a device showed comes with it.
    Resume(Option<Line>),
    /// At this address of the image. `stub` is the flash address of the call of BRIDGE that led here.
    Goto { target: u16, stub: Option<u16> },
    /// At this address, behind a SLEEP that an interrupt ended.
    Woke { target: u16 },
    /// Not at all.
    Stopped(Stop),
}

/// What becomes of an interrupt before the program goes on.
#[derive(Clone, Copy)]
pub enum Taken {
    /// None is taken.
    Nothing,
    /// One was taken, and the program goes on at its vector.
    Vector(u16),
    /// The return address would lie outside the stack window.
    Stopped(Stop),
}

/// An arrival that is owed: it is made before anything else but an interrupt.
#[derive(Clone, Copy)]
pub struct Owed {
    /// The original address to arrive at.
    pub target: u16,
    /// The flash word address of the stub that asked for it, where one did.
    pub stub: Option<u16>,
}

/// How a run ends. `Spent` is an answer alone: a run that is spent has not ended, and goes on when it is asked
/// for more.
#[derive(Clone, Copy)]
pub enum End {
    /// The bound of steps was reached.
    Spent,
    /// The program stopped by itself.
    Stopped(Stop),
    /// The program left its image, for this address.
    Wild(u16),
    /// The operation on flash of this number was refused.
    Flash(u64),
}
