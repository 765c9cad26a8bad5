//! Theorems about the schedules of plans and the paths of their state graphs. In a whole graph, each build with a step
//! left in a state has exactly one edge from that state (`whole.rt`).
ghost use Rattle.std.specs.Prelude.{◌≡◌, ◌+◌, ◌<◌, ◌≤◌, ℕ, Bool, true, false, List, [], All, AllPairs, Contains, length, map};
ghost use Rattle.std.specs.List.{range_with_len};
ghost use Rattle.realm_plan.specs.Plan.{Plan};
ghost use Rattle.schedule_graph.specs.Paths.{Path};
ghost use Rattle.plan_states.specs.Lines.{step_number};
ghost use Rattle.plan_states.specs.Runs.{ArePathsRuns, IsRunFromBoot, IsRunOf, IsRunOnPath};
ghost use Rattle.plan_states.specs.Schedules.{by_turns, done_by, ends_of, own_rule, schedules_after, steps_ended, used_by, AreInSequence, HasSingleTurns, IsRuleOf, IsSchedule};
ghost use Rattle.plan_states.specs.Tallies.{builds_of_path, is_before, paths_of};
ghost use Rattle.plan_states.specs.Whole.{IsWholeGraph};
ghost use Rattle.plan_states.specs.declared.edges.Label.{Label};
ghost use Rattle.plan_states.specs.declared.graph.Graph.{Graph};

/// Proves that each scheduling rule that agrees with the paths of a whole state graph allows exactly the schedules of
/// these paths. A rule says which of eight builds have a step left after which turns.
pub fn every_schedule_is_a_path()
    ensures found { (plan : Plan) (graph : Graph) (left : List ℕ → ℕ → Bool) → IsWholeGraph plan graph → IsRuleOf plan graph left
        → (schedule : List ℕ) → IsSchedule left [] schedule → Contains (map builds_of_path (paths_of graph)) schedule }
    ensures no_others { (plan : Plan) (graph : Graph) (left : List ℕ → ℕ → Bool) → IsWholeGraph plan graph → IsRuleOf plan graph left
        → All (IsSchedule left []) (map builds_of_path (paths_of graph)) }
{}

/// Proves that the paths of a whole state graph give the same list of schedules as any scheduling rule that agrees with
/// the paths. The list has the rule's schedules of at most `most` turns. Any `most` that is at least the number of
/// layers less one gives the same list. So a sum over the paths is the sum over all schedules.
pub fn paths_are_all_schedules()
    ensures { (plan : Plan) (graph : Graph) (left : List ℕ → ℕ → Bool) → IsWholeGraph plan graph → IsRuleOf plan graph left
        → (most : ℕ) → length graph.layers.items ≤ most + 1 → map builds_of_path (paths_of graph) ≡ schedules_after left most [] }
{}

/// Proves that the paths of a whole state graph are in ascending order of their schedules. The order is lexicographic
/// and strict: of two paths the earlier has the lower build at the first turn at which they differ. So no two paths
/// have the same schedule, and a count of paths is one of schedules.
pub fn path_schedules_rise()
    ensures rise { (plan : Plan) (graph : Graph) → IsWholeGraph plan graph
        → AllPairs (λ (one other : List ℕ). is_before one other ≡ true) (map builds_of_path (paths_of graph)) }
    ensures never_twice { (schedule : List ℕ) → is_before schedule schedule ≡ false }
{}

/// Proves that for each whole state graph there is a scheduling rule that agrees with the graph's paths. By this rule,
/// a build has a step left after given turns if it has one in the state to which these turns lead. So of any plan the
/// paths are all schedules by this rule.
pub fn a_whole_graph_has_a_rule()
    ensures { (plan : Plan) (graph : Graph) → IsWholeGraph plan graph → IsRuleOf plan graph (own_rule plan graph) }
{}

/// Proves that, unless the plan's builds give up, a build's progress along a path is the number of steps that the build
/// finishes on the path.
pub fn steps_are_counted()
    ensures { (plan : Plan) (graph : Graph) (path : Path Label) (build : ℕ) → plan.gives_up ≡ false → done_by plan graph path build ≡ used_by path build }
{}

/// Proves that a rule that counts turns agrees with the paths of a whole state graph if each step of the plan takes one
/// turn. Each step takes one turn if the plan has no step `abort` or `back`, and its builds do not give up. Then a
/// build has a step left if it had fewer turns than steps. So the paths of a whole graph are all interleavings of the
/// builds' steps.
pub fn single_turns_make_a_rule()
    ensures { (plan : Plan) (graph : Graph) → IsWholeGraph plan graph → HasSingleTurns plan → IsRuleOf plan graph (by_turns plan) }
{}

/// Proves that on each path of a whole state graph, unless builds give up, each build finishes every step once, in the
/// plan's sequence.
pub fn paths_end_each_step()
    ensures { (plan : Plan) (graph : Graph) → IsWholeGraph plan graph → plan.gives_up ≡ false
        → All (λ (path : Path Label). (build : ℕ) → build < 8 → steps_ended graph.ends.items build path ≡ range_with_len 0 (step_number plan build))
        (paths_of graph) }
{}

/// Proves that on each path of a whole state graph, a build finishes its steps in the plan's sequence until none is
/// left. This holds even if builds give up. If they do, a refused step is followed by the build's abort, and nothing
/// comes after the abort.
pub fn paths_end_steps_in_sequence()
    ensures { (plan : Plan) (graph : Graph) → IsWholeGraph plan graph
        → All (λ (path : Path Label). (build : ℕ) → build < 8 → AreInSequence plan build 0 (ends_of graph.ends.items build path)) (paths_of graph) }
{}

/// Proves that each schedule allowed by a scheduling rule that agrees with a whole state graph can be run along a path
/// of the graph. This holds if the graph's paths are runs from boot. Each turn ends its step as the path says, and the
/// final map is the path's own.
pub fn every_schedule_is_run()
    ensures { (plan : Plan) (graph : Graph) (left : List ℕ → ℕ → Bool) → IsWholeGraph plan graph → ArePathsRuns plan graph → IsRuleOf plan graph left
        → (schedule : List ℕ) → IsSchedule left [] schedule → IsRunOnPath plan graph schedule }
{}

/// Proves that each run along a state graph's path is a run of the plan. Both runs are from boot and have the path's
/// schedule. If the path's last turn names a map, no build has a step left after that turn, and the map is the final
/// map.
pub fn runs_on_paths_are_runs()
    ensures { (plan : Plan) (graph : Graph) (path : Path Label) → IsRunFromBoot plan graph path → IsRunOf plan graph path }
{}
