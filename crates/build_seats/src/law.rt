//! A theorem that a worker's report records as accepted exactly the worker's accepted commands and undos, in sequence.
ghost use Rattle.std.specs.Prelude.{List, Bool};
ghost use Rattle.host_commands.specs.declared.cmd.Step.{Step};
ghost use Rattle.build_seats.specs.Events.{AcceptedMatchEvents};
ghost use Rattle.build_seats.specs.Exchange.{Exchange};
ghost use Rattle.build_seats.specs.Standing.{StandingView};
ghost use Rattle.build_seats.specs.declared.report.ReportLine.{ReportLine};

/// Proves that a worker's report records as accepted exactly the worker's accepted commands and undos, in sequence.
/// Each accepted command or undo is an event of the build, and has one line.
pub fn accepted_lines_match_events()
    ensures { (standing : StandingView) (steps : List Step) (exchanges : List Exchange) (lines : List ReportLine) (ended : Bool) → AcceptedMatchEvents standing steps exchanges lines ended }
{}
