//! The pool from which realms get their VMIDs.
ghost use Rattle.std.specs.Prelude.{◌≡◌, ℕ, true, false, IfSome, IfNone};
ghost use Rattle.std.specs.Bool.{OnTrue, OnFalse};
ghost use Rattle.granule_addr.specs.Vmids.{is_used};
ghost use Rattle.build_journal.specs.Vmids.{is_free, IsLowestFree, IsClaimed};

use granule_addr::{Vmid, VmidSet};
use std::marker::Model;

/// A pool of a machine's VMIDs that records which of them are in use. The VMIDs are the numbers from 1 to a maximum.
#[derive(Drop)]
pub struct VmidPool {
    vmids: u8,
    used: VmidSet,
}

impl Model for VmidPool {
    ghost use Rattle.build_journal.specs.Vmids.{Vmids};

    ghost Value = { Vmids };

    ghost view = { λ pool. record { vmids = pool.vmids; used = pool.used } };
}

impl VmidPool {
    /// Creates a pool of the VMIDs from 1 to `vmids`. None of them is in use.
    pub fn new(vmids: u8) -> VmidPool
        ensures range { result.vmids ≡ vmids }
        ensures none { (vmid : ℕ) → is_used result.used vmid ≡ false }
    {
        VmidPool {
            vmids,
            used: VmidSet::new(),
        }
    }

    /// Returns the lowest free VMID, or `None` if no VMID is free.
    pub fn lowest_free(&self) -> Option<Vmid>
        ensures lowest { IfSome result (IsLowestFree self.now) }
        ensures none { IfNone result ((vmid : ℕ) → is_free self.now vmid ≡ false) }
    {
        for number in 1..=self.vmids {
            let vmid = Vmid::new(number).unwrap();
            if !self.used.contains(vmid) {
                return Some(vmid);
            }
        }
        None
    }

    /// Marks the VMID as in use if it is free, and returns whether it was free. Nothing changes if the VMID was not
    /// free.
    pub fn claim(&mut self, vmid: Vmid) -> bool
        ensures answer { result ≡ is_free self.old vmid }
        ensures claimed { OnTrue result (IsClaimed self.old self.new vmid true) }
        ensures unchanged { OnFalse result (self.new ≡ self.old) }
    {
        if vmid.number() > self.vmids || self.used.contains(vmid) {
            return false;
        }
        self.used.insert(vmid);
        true
    }

    /// Removes a VMID from the set of VMIDs in use.
    pub fn give_back(&mut self, vmid: Vmid)
        ensures { IsClaimed self.old self.new vmid false }
    {
        self.used.remove(vmid);
    }
}
