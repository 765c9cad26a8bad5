//! Theorems about the schedules of a host's builds, and about aborts.
ghost use Rattle.std.specs.Prelude.{ℕ, List, Result, Ok};
ghost use Rattle.host_ledger.specs.View.{HostView};
ghost use Rattle.host_commands.specs.declared.refusal.Refusal.{Refusal};
ghost use Rattle.realm_host.specs.Abort.{IsBegun};
ghost use Rattle.realm_host.specs.Call.{Call};
ghost use Rattle.realm_host.specs.Interleaving.{DidTheSame, AreIndistinguishable, DifferInInterleaving, CallRevealsNothing, BeginRevealsNothing, AbortRevealsNothing};
ghost use Rattle.realm_host.specs.Sharing.{AnsweredCall, AreWhileAborting, IsInAbortSince};
ghost use Rattle.realm_host.specs.declared.command.HostAnswer.{HostAnswer};
ghost use Rattle.realm_model.specs.History.{IsLegal};

/// Proves that a host's machine and leases do not depend on the builds' schedule. They are the host's world. If each
/// build did the same on two hosts with the same limits, the hosts have the same world and the same record of each
/// build. A build's record is its open operations, its pages and the room that it has used.
pub fn schedule_is_not_observed()
    ensures { (host twin : HostView) → DidTheSame host twin → AreIndistinguishable host twin }
{}

/// Proves that no command, undo or abort reveals the schedule of the builds. Two hosts that differ only in the schedule
/// of their builds' events cannot be distinguished, however many such calls are made. Each answer of the one, with what
/// is allocated for it, is an answer of the other. The hosts after it again differ only in that schedule.
pub fn no_call_reveals_the_schedule()
    ensures call { (host twin : HostView) (build : ℕ) (call : Call) (answer : HostAnswer) (new : HostView) → DifferInInterleaving host twin → CallRevealsNothing host twin build call answer new }
    ensures begin { (host twin : HostView) (build : ℕ) (result : Result ℕ Refusal) (new : HostView) → DifferInInterleaving host twin → BeginRevealsNothing host twin build result new }
    ensures abort { (host twin : HostView) (build : ℕ) (result : Result ℕ Refusal) (new : HostView) → DifferInInterleaving host twin → AbortRevealsNothing host twin build result new }
{}

/// Proves that a finished abort leaves nothing behind, whatever other builds do meanwhile. `old` is a host at which
/// `begin_abort` began an abort. `calls` are all calls since, of any builds, each as its contract lets it be answered.
/// While the build has something open, its events are reverses alone: any other request of it is refused, and none of
/// its undos is. Once it has nothing open, it has left nothing behind.
///
/// `apply_recorded` is a call of other builds alone: it applies any legal event for which its build has room, even if
/// that build is in abort.
pub fn aborts_are_shared()
    ensures { (old begun host : HostView) (build count : ℕ) (calls : List (ℕ × AnsweredCall)) → IsLegal old.limits old.history
        → IsBegun old build (Ok count) begun → AreWhileAborting build begun calls host → IsInAbortSince old build host }
{}
