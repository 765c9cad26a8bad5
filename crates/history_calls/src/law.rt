//! Theorems about the RMM calls that a host needs for histories, commands and undos.
ghost use Rattle.std.specs.Prelude.{ℕ, List};
ghost use Rattle.realm_model.specs.declared.act.Event.{Event};
ghost use Rattle.realm_model.specs.Machine.{Limits};
ghost use Rattle.host_commands.specs.declared.cmd.Cmd.{Cmd};
ghost use Rattle.host_ledger.specs.View.{HostView};
ghost use Rattle.history_calls.specs.Frame.{Place};
ghost use Rattle.history_calls.specs.Made.{LeadsToItsMachine};
ghost use Rattle.history_calls.specs.Prepared.{IsPreparedAsAsked, IsRefusedAsAsked, IsDecidedBefore, IsUndoPrepared};

/// Proves that the operations of a legal history, performed one by one on a fresh machine, lead to the machine of the
/// history's world. Each operation is accepted. The operations are those of the project's profile. No theorem says this
/// of the calls, with arguments in registers, that are derived from the operations.
pub fn calls_lead_to_the_machine()
    ensures { (limits : Limits) (history : List Event) → LeadsToItsMachine limits history }
{}

/// Proves that for each command but a Peek, a host performs exactly the operation computed beforehand. It does so when
/// the command is committed. The byte that a Peek reads is not known before.
pub fn prepared_is_performed()
    ensures { (host : HostView) (build : ℕ) (cmd : Cmd) → IsPreparedAsAsked host build cmd }
{}

/// Proves that the host refuses each command that `actions_asked` refuses. The refusal is the same.
pub fn refused_as_asked()
    ensures { (place : Place) (host : HostView) (build run : ℕ) (cmd : Cmd) → IsRefusedAsAsked place host build run cmd }
{}

/// Proves that a host accepts each Take, Fill, Peek or Exit that `actions_asked` accepts. Such a command makes no call
/// of an RMM, from which the model could diverge.
pub fn decided_before()
    ensures { (place : Place) (host : HostView) (build run : ℕ) (cmd : Cmd) → IsDecidedBefore place host build run cmd }
{}

/// Proves that an undo computed beforehand agrees with the undo that the host performs. The refusal is the same, or the
/// operation is. The host does not refuse an undo that is prepared without a refusal.
pub fn undo_as_prepared()
    ensures { (place : Place) (host : HostView) (build : ℕ) → IsUndoPrepared place host build }
{}
