//! Theorems about the states of a plan's runs, about calls that other builds do not affect, and about the paths of a
//! state graph.
ghost use Rattle.std.specs.Prelude.{◌≡◌, ℕ, List, Some, slice_get};
ghost use Rattle.std.specs.List.{AllByRecursion};
ghost use Rattle.realm_plan.specs.Plan.{Plan};
ghost use Rattle.plan_replay.specs.Run.{Position, Turn, IsTurn, AreTurns, place_of, step_after, map_text};
ghost use Rattle.host_ledger.specs.View.{HostView};
ghost use Rattle.host_commands.specs.declared.cmd.Cmd.{Cmd};
ghost use Rattle.realm_host.specs.Allocation.{act_asked};
ghost use Rattle.realm_host.specs.Call.{Call, Ask};
ghost use Rattle.realm_host.specs.Refusals.{refusal_of};
ghost use Rattle.schedule_graph.specs.Alone.{DidTheSameAlone, NeedsNothingShared};
ghost use Rattle.schedule_graph.specs.Graph.{first_of, IsGraph, IsPathRun};
ghost use Rattle.schedule_graph.specs.Paths.{Layer, paths};
ghost use Rattle.schedule_graph.specs.State.{AreOneState, IsAlsoTaken, AreAlsoTaken};

/// Proves that two positions of a plan's runs, if they are in the same state, have the same possible turns and answers.
/// The next steps are the same too, and so is the map of the host. A turn, or any number of them, leads from two such
/// positions to one state again.
pub fn a_state_decides_its_turns()
    ensures steps { (plan : Plan) (one other : Position) → AreOneState one other → (build : ℕ)
        → step_after plan build (place_of other.places build).done ≡ step_after plan build (place_of one.places build).done }
    ensures turn { (plan : Plan) (one other : Position) (turn : Turn) (to : Position) → AreOneState one other
        → IsTurn plan one turn to → IsAlsoTaken plan other turn to }
    ensures turns { (plan : Plan) (schedule : List ℕ) (one other : Position) (turns : List Turn) (to : Position) → AreOneState one other
        → AreTurns plan schedule one turns to → AreAlsoTaken plan schedule other turns to }
    ensures map { (one other : Position) → AreOneState one other → map_text other.host ≡ map_text one.host }
{}

/// Proves that other builds affect neither the refusal nor the operation of a call that needs no block and no VMID. On
/// two hosts of one machine, let a build have the same events, and be in abort on both or neither. Then both hosts give
/// each such call the same refusal, and each such command the same operation.
pub fn a_build_decides_its_own_calls()
    ensures refusal { (build : ℕ) (host twin : HostView) (call : Call) → DidTheSameAlone build host twin → NeedsNothingShared call
        → refusal_of twin build call ≡ refusal_of host build call }
    ensures operation { (build : ℕ) (host twin : HostView) (cmd : Cmd) → DidTheSameAlone build host twin → NeedsNothingShared (Ask cmd)
        → act_asked twin build cmd ≡ act_asked host build cmd }
{}

/// Proves that each path in a plan's state graph is a possible run of the plan. The run is in the schedule of the path,
/// with the answers of the path. It goes from a state of the first layer, and from any position that is the same state.
/// It does not matter which schedule led to the states that the graph has.
pub fn a_path_is_a_run()
    ensures { (plan : Plan) (states : List (List Position)) (layers : List (Layer Turn)) (number : ℕ) (at from : Position)
        → IsGraph plan states layers → slice_get (first_of states) number ≡ Some at → AreOneState at from
        → AllByRecursion (IsPathRun plan from) (paths layers number) }
{}
