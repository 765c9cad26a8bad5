//! Theorems about the schedules of a plan, and about their outcomes.
ghost use Rattle.std.specs.Prelude.{◌≡◌, ◌↔◌, ℕ, Bool, true, List, [], length};
ghost use Rattle.host_ledger.specs.View.{HostView};
ghost use Rattle.realm_plan.specs.Plan.{Plan};
ghost use Rattle.plan_replay.specs.Run.{IsReportedRun};
ghost use Rattle.view_program.specs.Chosen.{IsChosenRun};
ghost use Rattle.view_program.specs.Same.{same_end};
ghost use Rattle.view_program.specs.ScheduleCount.{IsNumberOf};
ghost use Rattle.view_program.specs.Reported.{AreTold};
ghost use Rattle.view_program.specs.Leaving.{IsUnseen};
ghost use Rattle.view_program.specs.Totals.{chosen_schedule};
ghost use Rattle.view_program.specs.declared.schedules.choice.Choice.{Choice};
ghost use Rattle.plan_states.specs.Schedules.{by_turns, HasSingleTurns, IsRuleOf, IsSchedule};
ghost use Rattle.plan_states.specs.Tallies.{AreOutcomes};
ghost use Rattle.plan_states.specs.Exploration.{IsGraphWithin};
ghost use Rattle.plan_states.specs.declared.graph.Graph.{Graph};
ghost use Rattle.plan_states.specs.declared.tally.Outcomes.{Outcomes};
ghost use Rattle.plan_states.specs.declared.step_end.EndOfStep.{EndOfStep};

/// Proves that the number of schedules counted on the graph of a plan's explored states is the number of the plan's
/// schedules. A plan's schedules are those that a rule allows. The rule may be any that agrees with the paths of the
/// graph. It says which of eight builds have a step left after which turns. In a plan without aborts and rollbacks that
/// does not give up, a build has a step left if it had fewer turns than steps.
pub fn all_schedules_are_counted()
    ensures by_rule { (plan : Plan) (most : ℕ) (graph : Graph) (outcomes : Outcomes) (left : List ℕ → ℕ → Bool)
        → IsGraphWithin plan most graph → AreOutcomes (length plan.builds) graph outcomes → IsRuleOf plan graph left
        → IsNumberOf (IsSchedule left []) outcomes.steps.schedule_count }
    ensures single_turns { (plan : Plan) (most : ℕ) (graph : Graph) (outcomes : Outcomes)
        → IsGraphWithin plan most graph → AreOutcomes (length plan.builds) graph outcomes → HasSingleTurns plan
        → IsNumberOf (IsSchedule (by_turns plan) []) outcomes.steps.schedule_count }
{}

/// Proves that a run whose builds are chosen turn by turn is a run of the plan with the chosen schedule as its `order`.
pub fn a_run_is_one_of_the_plan()
    ensures { (plan : Plan) (host : HostView) (choices : List Choice) (to : HostView) (ends : List EndOfStep)
        → IsChosenRun plan host choices to ends
        → (text : List ℕ) × IsReportedRun (record plan { order = chosen_schedule choices }) host to [] text }
{}

/// Proves that the step outcomes recorded in a plan's run are those in the run's output lines, in the same sequence.
/// Each outcome is that of a turn of the same build, with the refusal in its line.
pub fn ends_are_reported()
    ensures { (plan : Plan) (host : HostView) (choices : List Choice) (to : HostView) (ends : List EndOfStep)
        → IsChosenRun plan host choices to ends
        → AreTold (record plan { order = chosen_schedule choices }) host to ends }
{}

/// Proves that two step outcomes are counted as the same if and only if they are equal. Equal outcomes are of the same
/// step of the same build, with the same refusal and its numbers, or with none.
pub fn end_texts_are_injective()
    ensures { (one other : EndOfStep) → (same_end one other ≡ true) ↔ (one ≡ other) }
{}

/// Proves that in a legal history, a build without operations left to undo does not affect a host's map. The map is
/// that of the history without the build.
pub fn builds_with_nothing_open_are_not_seen()
    ensures { (host : HostView) (build : ℕ) → IsUnseen host build }
{}
