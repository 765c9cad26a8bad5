//! A buddy allocator of 4 KiB pages. It has a list of free blocks for each order.
//!
//! The lists have the maximal free blocks: those that are inside no larger one. A block is cut out of one of the
//! smallest order that suffices. When it is given back, it is merged with its free buddies. The links are in a table
//! beside the pages, by number, since free pages are zero. A mask of ten bits says which lists have a block. So no call
//! searches a list, and all loops are over orders, but for the clearing of pages.
#![tactic(auto)]

mod arena;
mod blocks;
mod index;
mod links;
mod lists;

pub use arena::BuddyArena;
