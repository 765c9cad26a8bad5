//! Theorems on properties of the modelled RMM 1.0 that hold whatever calls are made.
//!
//! The definitions are those of `rmm_model`. The theorems are a crate of their own, so that only this crate is checked
//! again when a theorem is added.
#![tactic(auto)]

pub mod law;
