//! Why a bus refuses a call.

/// Why a call of a bus, and so the instruction that made it, stopped. Nothing was changed.
#[derive(Clone, Copy, PartialEq, Eq)]
pub enum BusStop {
    /// An access to this I/O register, by its data address, that the device doesn't allow.
    Io(u16),
    /// A push, pop, call or return that would touch this data address outside the stack's room.
    Stack(u16),
    /// A store at this data address for which the memory has no room left.
    SwapFull(u16),
}
