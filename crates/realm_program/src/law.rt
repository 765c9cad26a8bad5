//! A theorem that the answers of a host match its history.
ghost use Rattle.std.specs.Prelude.{ℕ};
ghost use Rattle.host_ledger.specs.View.{HostView};
ghost use Rattle.host_ledger.specs.declared.mark.Mark.{Mark};
ghost use Rattle.host_commands.specs.declared.cmd.Cmd.{Cmd};
ghost use Rattle.host_commands.specs.declared.reply.Reply.{Reply};
ghost use Rattle.host_commands.specs.declared.reply.Undone.{Undone};
ghost use Rattle.realm_program.specs.Hosts.{HostReplyFits, HostUndoFits, HostMarkFits};

/// Proves that a host's answers match the events in the host's history. The answer to an accepted command or undo
/// matches the one event that the call adds to the history. For a command, the history has to be legal, and there may
/// be at most 4,096 pages. The pages and open operations of the build are those before the call. A host's answer to a
/// mark matches too.
pub fn answers_of_a_host_fit()
    ensures reply { (host : HostView) (build : ℕ) (cmd : Cmd) (reply : Reply) (new : HostView) → HostReplyFits host build cmd reply new }
    ensures undo { (host : HostView) (build : ℕ) (undone : Undone) (new : HostView) → HostUndoFits host build undone new }
    ensures mark { (host : HostView) (build : ℕ) (mark : Mark) (new : HostView) → HostMarkFits host build mark new }
{}
