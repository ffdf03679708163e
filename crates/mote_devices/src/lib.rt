//! The mote's devices: ports, the serial port USART0, the converter, and the registers that only store.
//!
//! A program reaches them by data addresses. [`Devices`] plays a script of inputs against it: a read of
//! an input register is a *poll*, and each input takes effect at the poll with its number. Inputs that
//! request external interrupts leave them pending; [`Devices::sleep`] goes on to the first that is enabled.
//!
//! ```rust
//! let mut devices = Devices::new(script);
//! let waiting = devices.read(0x2B)? & 0x80 != 0; // UCSR0A: a poll
//! let line = devices.write(0x3B, 0x55)?; // PORTA: the line PortA, 0x55
//! ```
//!
//! Contracts see the devices as plain data (`specs/State`), and `read`, `write` and `modify` as
//! functions of it (`specs/Accesses`). `specs/Registers` says which registers are polled and which are
//! seen outside, and `specs/Inputs` when an input takes effect; `specs/Waking` has the interrupts.
//! `proofs/AccessLaws` has what the layers above need of them.
#![tactic(auto)]

mod devices;
mod inputs;
mod line;
mod register;

pub use devices::{Devices, IoStop};
pub use line::{Line, Port};
