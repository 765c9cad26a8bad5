//! The granules of a platform: their attributes, their contents in a page store, and functions that the RMM's checks
//! use. RMM 1.0, RMI.
//!
//! `Granules` is seen as a machine. Each call of it reads or writes one granule or VMID, and the contract says which in
//! the words of `rmm_model`. So nothing above sees a store, its flags or its bytes. Memory is taken by `open` alone.
//!
//! The crate also has the readings that failure conditions need: granules by their addresses, walks and the entries
//! where they end, pages of parameters, and requests of RECs. An RMM that ends at the first check that fails makes
//! these readings, and so does a judge that evaluates all checks. The readings change nothing, and take no memory.
#![tactic(auto)]

mod descriptor;
mod granule;
mod granules;
mod operand;
mod psci;
mod realm;
mod realm_edit;
mod realm_params;
mod rec_edit;
mod rec_params;
mod record;
mod ripas;
mod run_page;
mod table;
mod taking;
mod walking;

pub use descriptor::has_attributes;
pub use granule::{granule_after, granule_named, is_same_owner, realm_in};
pub use granules::Granules;
pub use operand::OperandConditions;
pub use psci::{PSCI_SUCCESS, is_pending, is_status, target_of};
pub use realm::{is_realm_live, start_table, state_of};
pub use realm_edit::RealmEdit;
pub use realm_params::{can_start, is_start, is_start_table, is_supported, is_vmid_valid};
pub use rec_edit::RecEdit;
pub use rec_params::{are_aux_aligned, are_aux_apart, are_aux_delegated, are_aux_inside};
pub use ripas::{init_changeable, set_changeable};
pub use run_page::{is_no_mmio, refuses_gic};
pub use table::{first_entry, is_block_too_high, is_homogeneous};
pub use walking::{entry_at, memory_below, table_below, top, walk};
