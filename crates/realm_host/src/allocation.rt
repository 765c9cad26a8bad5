//! The VMID, the REC number and the byte that the host supplies for a command.
ghost use Rattle.std.specs.Prelude.{◌≡◌, Some, IfOk, IfErr, length, slice_get, unwrap_or};
ghost use Rattle.std.specs.List.{All};
ghost use Rattle.realm_model.specs.Running.{next_number};
ghost use Rattle.realm_model.specs.World.{realm_of};
ghost use Rattle.host_commands.specs.Needs.{operands};
ghost use Rattle.host_ledger.specs.View.{world_of};
ghost use Rattle.host_ledger.specs.Vmids.{lowest_vmid};
ghost use Rattle.realm_host.specs.Allocation.{allocated_for, byte_read, IsPeekRefused};

use crate::{Cmd, Host};
use granule_addr::{BuildId, Gran, RecNo, Vmid};
use host_commands::Allocated;
use page_arena::PageStore;
use realm_model::Rmi;

impl<S: PageStore> Host<S> {
    // Returns the values that are allocated for a command with these granules, or the RMM's refusal to read a byte.
    pub(crate) fn allocated_for(
        &self,
        build: BuildId,
        cmd: &Cmd,
        granules: &[Gran],
    ) -> Result<Allocated, Rmi>
        requires leased { All (λ g. slice_get (world_of self.now).leases g ≡ Some (Some build)) granules.now }
        requires named { length granules.now ≡ length (operands cmd.now) }
        ensures ok { IfOk result (λ allocated. allocated ≡ allocated_for self.now build cmd.now granules.now) }
        ensures err { IfErr result (IsPeekRefused self.now cmd.now granules.now) }
    {
        let byte = self.byte_read(build, cmd, granules)?;
        Ok(Allocated {
            vmid: self.vmid(),
            number: self.number(build),
            byte,
        })
    }

    // Returns the byte that a Peek reads, or the RMM's refusal to read it; 0 for any other command.
    #[tactic(auto, unfolding(host_commands::specs::Needs::operands))]
    fn byte_read(&self, build: BuildId, cmd: &Cmd, granules: &[Gran]) -> Result<u8, Rmi>
        requires leased { All (λ g. slice_get (world_of self.now).leases g ≡ Some (Some build)) granules.now }
        requires named { length granules.now ≡ length (operands cmd.now) }
        ensures ok { IfOk result (λ byte. byte ≡ byte_read self.now cmd.now granules.now) }
        ensures err { IfErr result (IsPeekRefused self.now cmd.now granules.now) }
    {
        match cmd {
            Cmd::Peek { offset, .. } => self.monitor.host_peek(granules[0], *offset),
            _ => Ok(0),
        }
    }

    // The lowest VMID that no realm has; 1 if realms have all VMIDs.
    fn vmid(&self) -> Vmid
        ensures { result ≡ unwrap_or (lowest_vmid self.now) 1 }
    {
        match self.ledger.lowest_vmid() {
            Some(vmid) => vmid,
            None => Vmid::new(1).unwrap(),
        }
    }

    // The number that the next REC of a build's realm gets; 0 if the build has no realm.
    fn number(&self, build: BuildId) -> RecNo
        ensures { result ≡ next_number (realm_of build (world_of self.now)) }
    {
        match self.realm(build) {
            Some(realm) => realm.next_number(),
            None => RecNo::new(0),
        }
    }
}
