//! Types for numbers in a checked range: those of granules, IPA granules, RECs and builds, the order of a block, IPA
//! widths, RTT levels, page offsets and VMIDs.
//!
//! Each type keeps its range: each value of it is in range. Granules, IPA granules and pages are counted in units of 4
//! KiB. In contracts, a value of a number type is its number.
#![tactic(auto)]

mod block;
mod granule;
mod ids;
mod ipa;
pub mod law;
mod level;
mod page;
mod vmid_set;
mod width;

pub use block::{Order, align_down, buddy_of};
pub use granule::{Gran, MOST_PAGES};
pub use ids::{BuildId, RecNo, Vmid};
pub use ipa::{IpaGran, index_at, is_protected, start_table};
pub use level::Level;
pub use page::PageOff;
pub use vmid_set::VmidSet;
pub use width::{IpaWidth, Root};
