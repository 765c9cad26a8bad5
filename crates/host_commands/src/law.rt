//! Theorems about the operations that builds' commands ask for.
ghost use Rattle.std.specs.Prelude.{◌≡◌, ℕ, List, Option};
ghost use Rattle.realm_model.specs.declared.act.Act.{Act};
ghost use Rattle.realm_model.specs.Machine.{Limits, Seen};
ghost use Rattle.host_commands.specs.declared.cmd.Cmd.{Cmd};
ghost use Rattle.host_commands.specs.declared.reply.Allocated.{Allocated};
ghost use Rattle.host_commands.specs.Laws.{ActIsOfCommand, ActFits, OutcomeIsOfAnyAllocation, NoActIsInputError};

/// Proves that the operation of a command names the granules of the command's pages. The operation is not the reverse
/// of another operation, and neither leases a block nor gives one back. It is paired if the table of commands says so,
/// and takes the room that the table says.
pub fn act_is_that_of_its_command()
    ensures { (cmd : Cmd) (granules : List ℕ) (allocated : Allocated) (act : Act) → ActIsOfCommand cmd granules allocated act }
{}

/// Proves that a command's operation matches the machine's state if the command's allocated values do.
pub fn act_fits_what_is_there()
    ensures { (cmd : Cmd) (granules : List ℕ) (allocated : Allocated) (act : Act) (realm : Option Seen) (cells : List Seen) → ActFits cmd granules allocated act realm cells }
{}

/// Proves that the byte and the REC number that were allocated for a command do not affect the RMM's answer to it.
pub fn outcome_ignores_allocation()
    ensures { (limits : Limits) (used : List ℕ) (cmd : Cmd) (granules : List ℕ) (one other : Allocated) (realm : Option Seen) (cells : List Seen) → OutcomeIsOfAnyAllocation limits used cmd granules one other realm cells }
{}

/// Proves that the RMM answers RMI_ERROR_INPUT to a command with an IPA granule or level that no operation can have. It
/// does so whatever else is wrong, if the realm's IPA width is valid.
pub fn missing_act_is_an_input_error()
    ensures { (cmd : Cmd) (granules : List ℕ) (allocated : Allocated) (rd : Seen) (cells : List Seen) → NoActIsInputError cmd granules allocated rd cells }
{}
