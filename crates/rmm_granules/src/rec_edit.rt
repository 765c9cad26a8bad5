//! Edits of a REC's attributes, made in place by commands and by steps of guests' programs.
ghost use Rattle.std.specs.Prelude.{◌≡◌};
ghost use Rattle.rmm_granules.specs.RecEdits.{edited};

use rmm_model::{LastExit, PsciRequest, RipasRequest, RmmRec, RmmRecState};

/// An edit of the attributes of a REC.
#[derive(Clone, Copy)]
pub enum RecEdit {
    /// Sets the REC to RUNNING, with its run page at the given address, no exit to complete and no results of its
    /// guest.
    Enter(u64),
    /// Sets the REC to READY after an exit.
    Leave(LastExit),
    /// Removes the first step from the queue of the guest's pending steps.
    PassStep,
    /// Sets the length of the queue of the guest's pending steps.
    Steps(u8),
    /// Adds one to the number of the guest's results, modulo 32.
    AddResult,
    Ripas(RipasRequest),
    Psci(PsciRequest),
    Runnable(bool),
    Nothing,
}

impl RecEdit {
    // Applies the edit to a REC.
    #[inline(always)]
    pub(crate) fn make(self, rec: &mut RmmRec)
        ensures { rec.new ≡ edited self rec.old }
    {
        match self {
            RecEdit::Enter(run) => {
                rec.state = RmmRecState::Running;
                rec.run = run;
                rec.exit = LastExit::Other;
                rec.result_count = 0;
            }
            RecEdit::Leave(last) => {
                rec.state = RmmRecState::Ready;
                rec.exit = last;
            }
            RecEdit::PassStep => {
                rec.first_step = (rec.first_step % 16 + 1) % 16;
                rec.step_count = rec.step_count.saturating_sub(1);
            }
            RecEdit::Steps(count) => rec.step_count = count,
            RecEdit::AddResult => rec.result_count = (rec.result_count % 32 + 1) % 32,
            RecEdit::Ripas(request) => rec.ripas = request,
            RecEdit::Psci(request) => rec.psci = request,
            RecEdit::Runnable(is_runnable) => rec.is_runnable = is_runnable,
            RecEdit::Nothing => {}
        }
    }
}
