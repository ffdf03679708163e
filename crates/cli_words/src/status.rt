//! The exit statuses of the program.
ghost use Rattle.std.specs.Prelude.{◌≡◌};
ghost use Rattle.cli_words.specs.Status.{number_of};

/// How a call ended.
#[derive(Clone, Copy, Debug, PartialEq, Eq)]
pub enum Status {
    /// The program halted, or sleeps.
    Done,
    /// The bound of steps was reached.
    Spent,
    /// The program ended by a fault of its own.
    Fault,
    /// The input is too long, or broken.
    BadInput,
    /// The words are no command.
    Usage,
    /// The input could not be read.
    ReadFault,
    /// The output could not be written.
    WriteFault,
    /// Memory was wanted and not found.
    NoMemory,
    /// An operation on flash was refused.
    FlashFault,
}

impl Status {
    /// The number that the process ends with.
    pub fn number(self) -> u8
        ensures number { result ≡ number_of self }
    {
        match self {
            Status::Done => 0,
            Status::Spent => 1,
            Status::Fault => 2,
            Status::BadInput => 3,
            Status::Usage => 4,
            Status::ReadFault => 5,
            Status::WriteFault => 6,
            Status::NoMemory => 8,
            Status::FlashFault => 9,
        }
    }
}
