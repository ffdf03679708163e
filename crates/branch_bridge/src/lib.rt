//! Arrivals: what happens where control comes to an original address.
//!
//! [`arrive`] gives the place where the rewritten code of the address begins. Where no page has it, the page is
//! made: in the lowest free page of the pool, or else in the one that RING names, which is recycled.
//! [`arrive_with_hints`] does the same with hints at the places of entries, and with drafts that are kept.
//! [`arrive_through`] is the whole arrival, through a stub that is resolved then; [`arrive_at_known_place`] is the usual
//! one, through none, at an address whose place is known, which leaves flash as it is.
//!
//! ```rust
//! let arrival = arrive_through(&mut sram, &mut flash, &layout, &mut hints, t, Some(stub));
//! if let Some(place) = arrival.place { /* control goes on there */ }
//! if let Some(refused) = arrival.refused { /* outside the image, or flash refused an operation */ }
//! ```
//!
//! [`resolve`] makes one stub jump to its place, and [`unresolve`] makes all stubs that jump into a page call the
//! kernel's bridge again.
//!
//! `specs/Operating` says what operations on flash do, one after another, up to the first that is refused, and
//! `specs/Tried` what stands then. `specs/Resolving`, `specs/Unresolving` and `specs/Arrivals` say which operations
//! the calls try, what else they change, and what they answer. docs/LOADER.md has the same in prose.
//!
//! Public laws: `PerformLaws` and `TriedLaws` (operations in a row), `RecycleLaws` (a page that none leads into is
//! erased), `ArrivalLaws` (which operations an arrival tries), `RestLaws` (bytes beside RING and the tables, and
//! RING at boot).
#![tactic(auto)]

mod arrival;
mod resolving;
mod rewriting;
mod through;
mod unresolving;

pub use arrival::{ArriveStop, Moved, Refused, arrive, arrive_with_hints};
pub use resolving::resolve;
pub use rewriting::{ResolveStop, Torn};
pub use through::{Arrival, arrive_at_known_place, arrive_through};
pub use unresolving::unresolve;
