//! Stores of pages, which keep the memory of granules and the set of free granules.
//!
//! Any store is seen as a list of pages of 4,096 bytes and a flag for each page. A block of pages is taken, written and
//! read, and given back cleared. No call but `build` takes memory. The crates that use a store are proved once, for any
//! `PageStore`. A store requires of its caller that pages are taken before they are written or given back.
//!
//! `RawPages` are the pages of a machine in one allocation. A page that was never written costs nothing: all such pages
//! share one page of zeros, and a page gets a slot when it is first written. Pointers are used in the six functions of
//! `row.rt` alone.
#![tactic(auto)]

mod pages;
mod plain;
mod row;
mod slots;
mod store;
mod words;

pub use pages::RawPages;
pub use plain::PlainStore;
pub use store::{BuildError, PageStore};
pub use words::{set_word_in, word_in, write_in, write_rising_in};
