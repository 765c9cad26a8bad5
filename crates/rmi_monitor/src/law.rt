//! Theorems about the operations that the RMM performs.
ghost use Rattle.std.specs.Prelude.{ℕ, List};
ghost use Rattle.realm_model.specs.declared.act.Act.{Act};
ghost use Rattle.realm_model.specs.declared.act.Event.{Event};
ghost use Rattle.realm_model.specs.Machine.{Limits};
ghost use Rattle.realm_model.specs.World.{World};
ghost use Rattle.rmi_monitor.specs.View.{MonitorView};
ghost use Rattle.realm_model.specs.declared.act.RealmAndRec.{RealmAndRec};
ghost use Rattle.rmi_monitor.specs.Blocks.{TakenIsStep, GivenBackIsStep};
ghost use Rattle.rmi_monitor.specs.Mirror.{FreshIsMirror, AskedIsReady, PerformedIsStep, NewestIsAccepted, UnRecNamesItsRec};

/// Proves that a new RMM agrees with the world of the empty history.
pub fn a_new_monitor_agrees_with_the_model()
    ensures { (limits : Limits) → FreshIsMirror limits }
{}

/// Proves that each operation that meets the requirements on a build's command also meets the precondition of
/// `perform`. If the operation creates a REC, its build must have fewer than 65,535 events.
pub fn what_is_asked_can_be_performed()
    ensures { (limits : Limits) (history : List Event) (world : World) (monitor : MonitorView) (build : ℕ) (act : Act) (place : RealmAndRec) → AskedIsReady limits history world monitor build act place }
{}

/// Proves that the model accepts each command that the RMM performs, if the command meets the requirements `IsAsked`
/// and `IsInTurn`. The model refuses each such command that the RMM refuses.
pub fn what_is_performed_is_a_step()
    ensures { (limits : Limits) (history : List Event) (world : World) (monitor : MonitorView) (build : ℕ) (act : Act) (place : RealmAndRec) → PerformedIsStep limits history world monitor build act place }
{}

/// Proves that the RMM accepts the command that undoes a build's newest open operation, unless that operation created a
/// REC that is running.
pub fn newest_is_accepted()
    ensures { (limits : Limits) (history : List Event) (world : World) (monitor : MonitorView) (build : ℕ) (act back : Act) (place : RealmAndRec)
        → NewestIsAccepted limits history world monitor build act back place }
{}

/// Proves that an operation that destroys a REC names that REC's granule, if the operation meets the requirements on a
/// build's command.
pub fn rec_taken_away_is_the_one_named()
    ensures { (limits : Limits) (world : World) (build : ℕ) (act : Act) → UnRecNamesItsRec limits world build act }
{}

/// Proves that the model accepts the Take of a free block of granules. This holds for each build, and for a block of
/// any order from 0 to 9.
pub fn what_is_taken_is_a_step()
    ensures { (limits : Limits) (history : List Event) (world : World) (monitor : MonitorView) (build order first : ℕ) → TakenIsStep limits history world monitor build order first }
{}

/// Proves that the model accepts the UnTake of a block whose Take is its build's newest open operation. The RMM can
/// give the block back.
pub fn what_is_given_back_is_a_step()
    ensures { (limits : Limits) (history : List Event) (world : World) (monitor : MonitorView) (build order first : ℕ) → GivenBackIsStep limits history world monitor build order first }
{}
