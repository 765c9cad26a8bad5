//! The simulated RMM, over any store of pages. It has commands named after the Realm Management Interface, and
//! attributes of realms and RECs. The operations of a history are performed on it.
//!
//! An RMM is seen as the machine of the definitions, with a flag for each granule that says whether it is free. The
//! answer and the effect of each command are those of its definition on the named granules; a refusal changes nothing.
//! A caller has to have taken the granules that a command names.
//!
//! A `RealmDesc` and a `Rec` are each seen as a record of their attributes, which gives the machine's record of a realm
//! or of a REC. Each method says all that it changes. None of them takes memory or refuses a call: a command checks
//! first whether it is allowed. The bytes by which commands extend a realm's measurement are this profile's own, not
//! those of DEN0137.
//!
//! One function performs each operation but a take and its reverse, with one contract: the answer and the machine are
//! those of the operation's definition. `law` proves that the model accepts each operation that is performed, if it
//! meets the requirements on a build's command. The reverse of a build's newest open operation is not refused, unless
//! that operation created a REC that is running.
//!
//! Take and UnTake are no commands: the RMM's `take`, `take_at` and `give` do them. `law` proves that the model accepts
//! the Take of a free block, and the UnTake of a block whose Take is its build's newest open operation.
#![tactic(auto)]

mod data;
mod granule;
mod inputs;
pub mod law;
mod locate;
mod measurement;
mod monitor;
mod operation;
mod places;
mod reading;
mod realm;
mod realm_attributes;
mod realm_operation;
mod rec;
mod rec_attributes;
mod run;
mod table;

pub use measurement::{data_event, extend_measurement, rec_event, ripas_event};
pub use monitor::Monitor;
pub use operation::perform;
pub use realm_attributes::RealmDesc;
pub use rec_attributes::Rec;
