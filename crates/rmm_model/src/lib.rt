//! A model of the Realm Management Monitor, RMM 1.0: definitions of the machine and the commands, and the types of
//! their values.
//!
//! A machine is a list of granules and a list of pages; a translation table is its page of 512 words. In
//! `specs/Command` each command is a list of checks and an effect, and `specs/Call` has what a call by registers does.
//!
//! The measurement of a realm begins as a hash of the realm's parameters. DATA_CREATE, REC_CREATE and RTT_INIT_RIPAS
//! extend it by a descriptor of 256 bytes, which has the measurement before.
#![tactic(auto)]

mod access;
mod answer;
mod children;
mod condition;
mod digest;
mod entry;
mod granule;
mod level;
mod measure;
mod realm;
mod rec;
mod step;
mod table;

pub use access::AccessSize;
pub use answer::{FailedCondition, error_input, error_rtt};
pub use children::ChildWords;
pub use condition::Condition;
pub use entry::{Changeable, RmmRipas, RmmRttEntry, entry_from_word};
pub use granule::{RmmGranule, RmmGranuleState};
pub use level::{entry_index, entry_number, entry_offset, entry_size, start_table_index};
pub use measure::{Extension, extend, initial, page_digest, rec_digest};
pub use realm::{RmmRealm, RmmRealmState, RttWalk, start_count};
pub use rec::{LastExit, PsciRequest, RipasRequest, RmmRec, RmmRecState, aux_address};
pub use step::{GuestStep, Queued, StepOutcome, StepResult, StepWords};
pub use table::{first_fixed, first_live, has_live, has_parts};
