//! Theorems that the host refuses a step with the refusal of the first failed check among the host's own checks. The
//! steps are `undo`, `mark`, `back`, an abort's first turn, and commands with refusals 1 to 6, 9, 10 or 12.
ghost use Rattle.std.specs.Prelude.{ℕ, Option};
ghost use Rattle.host_commands.specs.declared.cmd.Cmd.{Cmd};
ghost use Rattle.host_ledger.specs.View.{HostView};
ghost use Rattle.host_ledger.specs.declared.mark.Mark.{Mark};
ghost use Rattle.explain.specs.FirstFailing.{ChecksDecideUndo, ChecksDecideMark, ChecksDecideBegin, ChecksDecideBack, ChecksDecideNeeds};

/// Proves that the first failed check of an `undo`, `mark` or `back` step, or of an abort's first turn, determines the
/// host's refusal. The host does not refuse if and only if no check fails.
pub fn own_steps_decide()
    ensures undo { (host : HostView) (build : ℕ) → ChecksDecideUndo host build }
    ensures mark { (host : HostView) (build : ℕ) → ChecksDecideMark host build }
    ensures begin { (host : HostView) (build : ℕ) → ChecksDecideBegin host build }
    ensures back { (host : HostView) (build : ℕ) (mark : Option Mark) → ChecksDecideBack host build mark }
{}

/// Proves that the first failed check of a command decides which of refusals 1 to 6, 9, 10 and 12 the host gives. The
/// checks are those that the host makes before it calls the store or the RMM. The host gives none of these refusals if
/// and only if no check fails. The page numbers of a `realm` command's starting tables have to be at most 65,535.
pub fn needs_decide()
    ensures { (host : HostView) (build : ℕ) (cmd : Cmd) → ChecksDecideNeeds host build cmd }
{}
