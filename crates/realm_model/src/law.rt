//! Theorems about every history of the model.
ghost use Rattle.std.specs.Prelude.{◌≡◌, ℕ, List, ◌++◌, Some};
ghost use Rattle.realm_model.specs.declared.act.Act.{Act};
ghost use Rattle.realm_model.specs.declared.act.Event.{Event};
ghost use Rattle.realm_model.specs.Machine.{Limits};
ghost use Rattle.realm_model.specs.World.{World};
ghost use Rattle.realm_model.specs.StepLaw.{StepIsExact};
ghost use Rattle.realm_model.specs.History.{replay, IsLegal, Noninterference};
ghost use Rattle.realm_model.specs.Stack.{MatchingIsAStack};
ghost use Rattle.realm_model.specs.Pages.{PagesAreLeased};
ghost use Rattle.realm_model.specs.Reachable.{IsReachable};
ghost use Rattle.realm_model.specs.Running.{RestIsOfAll};
ghost use Rattle.realm_model.specs.Room.{RoomIsTaken, RoomIsSum};
ghost use Rattle.realm_model.specs.LeftOut.{OthersKeepTheirRoom, WhatIsLeftIsAccepted};
ghost use Rattle.realm_model.specs.Interleaving.{IsLegalAlone, HasSameEvents, EventsCommute};
ghost use Rattle.realm_model.specs.Aborting.{StaysAtRest, AbortGoesOn};
ghost use Rattle.realm_model.specs.OpenRealm.{RealmIsOpen, VmidIsOpen, NumbersAreFew};
ghost use Rattle.realm_model.specs.Marks.{Mark, mark_at, IsValidMark, StaysValid, CanRollBack};
ghost use Rattle.realm_model.specs.Undoing.{NewestCanBeUndone, AllCanBeUndone, NothingOpenIsNoninterference, PairLeadsBack, OtherActOwnsSame, OwnershipFollows};
ghost use Rattle.realm_model.specs.RecsOpen.{RecsAreOpen};
ghost use Rattle.realm_model.specs.VmidsUsed.{VmidsFollowSteps};

/// Any build can be left out of a legal history. Without the build's events the history is still legal, and the model's
/// world lacks only that build's part.
pub fn builds_can_be_left_out()
    ensures { (limits : Limits) (history : List Event) (build : ℕ) → IsLegal limits history → Noninterference limits history build }
{}

/// The events of one build in a legal history are a legal history by themselves. They lead to the build's part of the
/// model's world.
pub fn builds_can_be_taken_alone()
    ensures { (limits : Limits) (history : List Event) (build : ℕ) → IsLegal limits history → IsLegalAlone limits history build }
{}

/// Two legal histories in which each build has the same sequence of events lead to the same world of the model,
/// whatever their schedules.
pub fn schedule_does_not_matter()
    ensures { (limits : Limits) (history other : List Event) → IsLegal limits history → IsLegal limits other → HasSameEvents history other → replay limits history ≡ replay limits other }
{}

/// Two adjacent events of different builds commute, unless the second takes a granule or a VMID that the first gives
/// back. If they commute, both sequences lead to the same world.
pub fn events_of_two_builds_commute()
    ensures { (limits : Limits) (history : List Event) (one other : Event) → EventsCommute limits history one other }
{}

/// The function `step` and the relation `IsStep` describe the same steps of the model. From any world of the model that
/// a history leads to, `step` leads exactly to the worlds that `IsStep` allows.
pub fn step_is_exact()
    ensures { (limits : Limits) (history : List Event) (world : World) (event : Event) → replay limits history ≡ Some world → StepIsExact limits world event }
{}

/// Operations and their reverses match like pushes and pops of a stack. If each operation with a reverse is pushed and
/// each reverse pops, exactly the operations without a matching reverse remain.
pub fn matching_is_a_stack()
    ensures { (acts : List Act) → MatchingIsAStack acts }
{}

/// A build's pages are exactly the granules that the build leases. Each is listed once.
pub fn pages_are_leased()
    ensures { (limits : Limits) (history : List Event) (world : World) (build : ℕ) → IsLegal limits history → replay limits history ≡ Some world → PagesAreLeased limits history build world }
{}

/// The invariant `IsReachable` holds in every world that a history of the model leads to.
pub fn reached_worlds_are_sound()
    ensures { (limits : Limits) (history : List Event) (world : World) → replay limits history ≡ Some world → IsReachable limits world }
{}

/// A realm's next REC number never exceeds its build's number of events.
pub fn rec_numbers_are_bounded()
    ensures { (limits : Limits) (history : List Event) (world : World) (build : ℕ) → IsLegal limits history → replay limits history ≡ Some world → NumbersAreFew history world build }
{}

/// A build's count of running RECs is 0 if and only if no REC of its realm runs.
pub fn at_rest_is_none_running()
    ensures { (limits : Limits) (history : List Event) (world : World) (build : ℕ) → replay limits history ≡ Some world → RestIsOfAll world build }
{}

/// An accepted event uses only its own build's history capacity. The amount depends on the event's operation alone.
pub fn room_is_taken()
    ensures { (limits : Limits) (history : List Event) (world : World) (event : Event) (next : World)
        → IsLegal limits history → replay limits history ≡ Some world → RoomIsTaken limits history world event next }
{}

/// The history capacity that a build has used is the sum of the capacities that its operations take.
pub fn room_is_a_sum()
    ensures { (limits : Limits) (history : List Event) (world : World) (build : ℕ) → IsLegal limits history → replay limits history ≡ Some world → RoomIsSum history world build }
{}

/// Leaving out a build does not change the history capacity used by the others. If the build's events are left out of a
/// history, every other build has the same operations open, and has used the same amount of capacity.
pub fn others_keep_their_room()
    ensures { (limits : Limits) (history : List Event) (world : World) (build other : ℕ) → IsLegal limits history → replay limits history ≡ Some world → OthersKeepTheirRoom history world build other }
{}

/// A history is still accepted if the events of one build are left out. The remaining events are accepted one by one,
/// starting from the empty history. The machine has the same limits and capacity, and each build can have as many
/// operations open.
pub fn what_is_left_is_accepted()
    ensures { (limits : Limits) (capacity most : ℕ) (history : List Event) (world : World) (build : ℕ)
        → IsLegal limits history → replay limits history ≡ Some world → WhatIsLeftIsAccepted limits capacity most history world build }
{}

/// A build's realm is the one whose creation the build has not undone yet.
pub fn realms_are_open_acts()
    ensures { (limits : Limits) (history : List Event) (world : World) (build : ℕ) → IsLegal limits history → replay limits history ≡ Some world → RealmIsOpen history world build }
{}

/// The VMIDs in use are those of realms whose creation is not undone yet.
pub fn vmids_are_of_open_acts()
    ensures { (limits : Limits) (history : List Event) (world : World) (vmid : ℕ) → IsLegal limits history → replay limits history ≡ Some world → VmidIsOpen history world vmid }
{}

/// An operation followed directly by its reverse leaves the ownership of granules as it was. The reverse is accepted.
pub fn pairs_lead_back()
    ensures { (limits : Limits) (history : List Event) (world : World) (build : ℕ) (act back : Act) (middle : World)
        → replay limits history ≡ Some world → PairLeadsBack limits build world act back middle }
{}

/// An operation changes no ownership of granules unless it has a reverse or is a reverse itself.
pub fn other_acts_own_the_same()
    ensures { (limits : Limits) (world : World) (build : ℕ) (act : Act) (next : World) → OtherActOwnsSame limits build world act next }
{}

/// The ownership of granules after an operation depends only on the operation and the ownership before. Worlds that own
/// the same still do after the same operation.
pub fn ownership_follows()
    ensures { (limits : Limits) (history past : List Event) (world twin : World) (build : ℕ) (act : Act) (next other : World)
        → replay limits history ≡ Some world → replay limits past ≡ Some twin → OwnershipFollows limits build act world twin next other }
{}

/// A build can undo its newest open operation, unless that operation created a REC that is running. What other builds
/// did since does not matter.
pub fn newest_can_be_undone()
    ensures { (limits : Limits) (history : List Event) (world : World) (build : ℕ) (act : Act)
        → IsLegal limits history → replay limits history ≡ Some world → NewestCanBeUndone limits history build world act }
{}

/// A build with nothing left to undo has no effect on the model's world. The history without the build's events leads
/// to the same world.
pub fn nothing_open_is_noninterference()
    ensures { (limits : Limits) (history : List Event) (world : World) (build : ℕ) → IsLegal limits history → replay limits history ≡ Some world → NothingOpenIsNoninterference limits history build world }
{}

/// A build without running RECs can undo all its open operations. The newest is undone first, and the operations leave
/// nothing behind.
pub fn all_can_be_undone()
    ensures { (limits : Limits) (history : List Event) (world : World) (build : ℕ) → IsLegal limits history → replay limits history ≡ Some world → AllCanBeUndone limits history build world }
{}

/// Neither another build's event nor an undo starts a REC of a build that runs none.
pub fn builds_stay_at_rest()
    ensures { (limits : Limits) (history : List Event) (world : World) (build : ℕ) (event : Event) (next : World) → replay limits history ≡ Some world → StaysAtRest limits world build event next }
{}

/// No other build can prevent the abort of a build that runs no RECs. Each undo is accepted whatever other builds do,
/// and the finished abort leaves nothing behind.
pub fn aborts_go_on()
    ensures { (limits : Limits) (history later : List Event) (build : ℕ) (begun world : World)
        → IsLegal limits (history ++ later) → replay limits history ≡ Some begun → replay limits (history ++ later) ≡ Some world
        → AbortGoesOn limits history later build begun world }
{}

/// A rollback point of a build, called a mark, is valid when it is set.
pub fn new_marks_are_valid()
    ensures { (build : ℕ) (history : List Event) → IsValidMark (mark_at build history) history }
{}

/// A mark remains valid until its build undoes an operation from before the mark. The build then has fewer open
/// operations than at the mark.
pub fn marks_remain_valid()
    ensures { (mark : Mark) (history : List Event) (event : Event) → StaysValid mark history event }
{}

/// A build can be rolled back to a valid mark, unless a REC that it created after the mark runs. RECs of other builds
/// do not matter.
pub fn marks_can_be_rolled_back_to()
    ensures { (limits : Limits) (history : List Event) (world : World) (mark : Mark) → IsLegal limits history → replay limits history ≡ Some world → CanRollBack limits history mark world }
{}

/// A realm's RECs are those whose creation its build has not undone yet. A REC that was created later has a higher
/// number.
pub fn recs_are_open_acts()
    ensures { (limits : Limits) (history : List Event) (world : World) (build : ℕ) → IsLegal limits history → replay limits history ≡ Some world → RecsAreOpen history world build }
{}

/// Only the creation and destruction of realms change the VMIDs in use. The creation of a realm puts the realm's VMID
/// into use, and the destruction of the realm frees the VMID.
pub fn vmids_follow_steps()
    ensures { (limits : Limits) (history : List Event) (world : World) (build : ℕ) (act : Act) (next : World)
        → IsLegal limits history → replay limits history ≡ Some world → VmidsFollowSteps limits history world build act next }
{}
