//! The replay of a plan on a host whose pages are in a `PlainStore`.
ghost use Rattle.std.specs.Prelude.{◌≡◌, false};

use crate::Fault;
use checked_io::Told;
use page_arena::PlainStore;
use realm_plan::Plan;
use realm_program::{Fault as PlanFault, text_of};
use std::alloc::Global;
use std::io::Write;

impl From<PlanFault> for Fault {
    fn from(fault: PlanFault) -> Fault {
        match fault {
            PlanFault::Memory => Fault::Memory,
            _ => Fault::Other,
        }
    }
}

/// Replays a plan on a host over a `PlainStore`, and writes the run's text. The text is what `realmhost replay` prints
/// for a run over raw pages.
pub(crate) fn replay<W: Write>(
    alloc: Global,
    bytes: &[u8],
    output: &mut Told<W>,
) -> Result<(), PlanFault>
    requires { output.old.failed ≡ false }
{
    let plan = Plan::from_bytes(alloc, bytes)?;
    let text = text_of::<PlainStore>(alloc, &plan)?;
    output.write_whole(text.as_bytes())?;
    Ok(())
}
