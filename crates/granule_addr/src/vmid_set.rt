//! Sets of VMIDs.
ghost use Rattle.std.specs.Prelude.{◌≡◌, ℕ, true, false};
ghost use Rattle.granule_addr.specs.Vmids.{is_used, IsMarked};

use crate::Vmid;
use std::marker::Model;

/// A set of VMIDs, kept as a flag for each number from 0 to 255.
#[derive(Drop)]
pub struct VmidSet {
    flags: [bool; 256],
}

impl Model for VmidSet {
    ghost use Rattle.std.specs.Prelude.{Bool, List};

    ghost Value = { List Bool };

    ghost view = { λ set. set.flags };
}

impl VmidSet {
    /// Creates the empty set.
    pub fn new() -> VmidSet
        ensures { (vmid : ℕ) → is_used result vmid ≡ false }
    {
        VmidSet {
            flags: [false; 256],
        }
    }

    /// Returns whether the set has the VMID.
    pub fn contains(&self, vmid: Vmid) -> bool
        ensures { result ≡ is_used self.now vmid }
    {
        self.flags[vmid.number() as usize]
    }

    /// Adds the VMID to the set.
    pub fn insert(&mut self, vmid: Vmid)
        ensures { IsMarked self.old self.new vmid true }
    {
        self.flags[vmid.number() as usize] = true;
    }

    /// Removes the VMID from the set.
    pub fn remove(&mut self, vmid: Vmid)
        ensures { IsMarked self.old self.new vmid false }
    {
        self.flags[vmid.number() as usize] = false;
    }
}
