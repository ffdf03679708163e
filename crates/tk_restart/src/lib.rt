//! A restart after a loss of power: what is kept of a code pool, whatever it holds.
//!
//! Power may be lost at any operation on flash, those of a restart too. The page of that operation then holds
//! any words. [`restart`] asks nothing of the pool: going up through it, it keeps each page that is rewritten code
//! of the image and has no entry of an address that a page kept before has, and erases what else isn't blank. Then
//! each stub of a page that is kept calls the kernel's bridge again where it jumps to no entry of such a page.
//!
//! ```rust
//! flash.renew(); // no operation is to fail any more
//! let Kept { kept, dropped } = restart(&mut flash, image, &layout);
//! ```
//!
//! `specs/Keeping` says which pages are kept, and what flash holds then, and `specs/Restarting` what the call answers
//! and which operations it makes. That a pool is then faithful to the image, and that the rules leave no choice, are
//! clauses of [`restart`]. [`tear`] gives a page any words, to try a restart on, and [`lose`] those that stand for a loss of
//! power in the operation of a number (`specs/Losing`).
#![tactic(auto)]

mod judging;
mod losing;
mod operating;
mod restarting;
mod strays;
mod sweeping;
mod tearing;
mod unlinking;

pub use losing::lose;
pub use restarting::restart;
pub use sweeping::Kept;
pub use tearing::tear;
