//! Readers and writers that remember whether a call has failed, and a buffer for reading lines.
//!
//! Nothing outside of `Told` calls the device or sets the flag. So the contract of a caller can state that the caller
//! returns a device error exactly if the device has failed.
#![tactic(auto)]

mod lines;
mod told;

pub use lines::{Lines, Next};
pub use told::{DeviceFailed, ReadError, Told};
