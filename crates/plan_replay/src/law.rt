//! Theorems that a host's map does not reveal the schedule, and that an abort's turns report correctly whether the
//! abort is done.
ghost use Rattle.std.specs.Prelude.{◌≡◌, ℕ, List, Some};
ghost use Rattle.host_ledger.specs.View.{HostView};
ghost use Rattle.host_commands.specs.declared.cmd.Step.TheVariants.{Abort};
ghost use Rattle.realm_plan.specs.declared.step.PlanStep.TheVariants.{Whole};
ghost use Rattle.realm_host.specs.Interleaving.{DidTheSame};
ghost use Rattle.realm_model.specs.History.{IsLegal};
ghost use Rattle.realm_plan.specs.Plan.{Plan};
ghost use Rattle.plan_replay.specs.Aborts.{ReportsOfAbort};
ghost use Rattle.plan_replay.specs.Run.{Position, Turn, start, IsTurn, AreTurns, map_text};
ghost use Rattle.plan_replay.specs.declared.answer.TurnAnswer.{TurnAnswer};

/// Proves that the printed map of a host does not reveal the schedule of its builds. If each build did the same on two
/// hosts with the same limits, the hosts have the same map, whatever their schedules were.
pub fn no_map_reveals_the_schedule()
    ensures { (host twin : HostView) → DidTheSame host twin → map_text twin ≡ map_text host }
{}

/// Proves that each turn of an abort reports correctly whether the abort is done. This holds in a run from a host with
/// a legal history, whatever other builds do. After a turn that reports the abort as done, the build has left nothing
/// behind. After each earlier turn that is not refused, the build is in abort. Only the first turn of the abort can be
/// refused.
pub fn aborts_are_reported()
    ensures { (plan : Plan) (host : HostView) (order : List ℕ) (turns : List Turn) (from to : Position) (turn : Turn) (answer : TurnAnswer)
        → IsLegal host.limits host.history → AreTurns plan order (start host) turns from → IsTurn plan from turn to
        → turn.told ≡ Some (Whole Abort, answer) → ReportsOfAbort answer from turn.build to }
{}
