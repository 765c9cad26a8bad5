//! Checks whether an undo and the host's reply to it match an event.
ghost use Rattle.std.specs.Prelude.{◌≡◌, ◌↔◌, Some, IsTrue};
ghost use Rattle.realm_model.specs.Kind.{act_kind};
ghost use Rattle.realm_program.specs.Fitting.{IsFittingUndo};

use build_journal::takes_back;
use host_commands::Undone;
use realm_model::{Act, Kind, kind_of};

fn is_of_kind(act: &Act, kind: Kind) -> bool
    ensures { IsTrue result ↔ (act_kind act.now ≡ Some kind) }
{
    match kind_of(act) {
        Some(its) => its == kind,
        None => false,
    }
}

/// Returns whether `act` is the reverse of the newest open operation of a build, and `undone` is the reply to that
/// undo. The build's open operations are `opened`.
pub(crate) fn undo_and_reply_match(opened: &[Act], undone: &Undone, act: &Act) -> bool
    ensures { IsTrue result ↔ IsFittingUndo opened.now undone.now act.now }
{
    match opened.last() {
        Some(newest) => {
            takes_back(act, newest)
                && is_of_kind(newest, undone.kind)
                && undone.left as usize == opened.len() - 1
        }
        None => false,
    }
}
