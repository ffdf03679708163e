//! The heap: 251 virtual pages of 256 bytes, of which eight lie in SRAM frames and the others in
//! swap slots.
//!
//! [`load`] and [`store`] reach one byte of the heap. A page that is in no frame is brought into the
//! one that is replaced next; a dirty page is written to its slot first. A page gets its slot at its
//! first store, and reads as zeros before. The frame table, the swap map and the two counts stand in
//! SRAM, so [`sram_layout::Sram`] and [`swap_store::Swap`] are all there is.
//!
//! Contracts see one list of 65,536 bytes (`specs/Memory.antt`). `specs/Paged.antt` says when cells,
//! frames and slots fit together; it holds at boot, and both calls keep it. `specs/Changes.antt` says
//! what each call leaves. `proofs/` has laws for the layers above: what each call leaves, as laws of
//! the functions of `specs/Paging.antt` (`LoadLaws`, `StoreLaws`), what writes elsewhere in SRAM leave
//! (`SamePagingLaws`), the heap at boot (`BootLaws`), and that as many pages have a slot as slots are
//! given (`CountLaws`).
#![tactic(auto)]

mod frames;
mod heap;

pub use heap::{SwapFull, load, load_in_frame, store, store_in_frame};
