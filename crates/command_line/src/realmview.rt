//! The command line of `realmview`.
ghost use Rattle.std.specs.Prelude.{◌≡◌};
ghost use Rattle.command_line.specs.Realmview.{after_refusal, question_asked, question_of_leased, schedules_asked, schedules_drawn};

use crate::options::build_of;
use crate::table::{Argument, Program, Subcommand, given_file};
use crate::{BaseAddress, Invocation};
use clap::{ArgMatches, Error};
use granule_addr::BuildId;
use std::alloc::{AllocError, Global};
use std::fmt;

/// The request that a command line of `realmview` makes.
#[derive(Clone, Copy)]
pub enum ViewSubcommand {
    /// Writes the history of a plan's run, optionally without the events of one build.
    History(Option<BuildId>),
    /// Applies a history, and writes the map of pages and realms that it leads to, optionally without one build's
    /// events.
    Apply(Option<BuildId>),
    /// Writes the JSON document of a plan's run.
    Json,
    /// Writes a web page that shows a plan's run.
    Page,
    /// Checks a plan, and writes the mistakes found in it.
    Check,
    /// Writes the run of a plan, and explains each refusal of a step. The failed check is below the step's turn. If
    /// `all`, the checks that passed are written too.
    Why { all: bool },
    /// Explores schedules of a plan, and writes their outcomes.
    Explore(Schedules, AfterRefusal),
    /// Writes the given plan with a schedule that lets each build take all its steps.
    Order(SchedulingPolicy),
    /// Writes the run of a plan as calls to an RMM. The memory of the RMM begins at the given address.
    Calls(BaseAddress, CallsForm),
}

/// The output format for calls to an RMM.
#[derive(Clone, Copy, Drop)]
pub enum CallsForm {
    /// Lines of a trace that `rmitrace` can read.
    Trace,
    /// Rows of a table in C source code.
    Rows,
}

/// The schedules that are explored for a plan.
#[derive(Clone, Copy, Drop)]
pub enum Schedules {
    /// All schedules, if their runs have at most the given number of states.
    All(u32),
    /// A given number of schedules drawn at random with a given seed. The values are the number of schedules, and the
    /// seed of the random numbers.
    Drawn(u32, u32),
    /// The shortest schedule at whose end a given condition holds. The runs may have at most the given number of
    /// states.
    Shortest(u32, ScheduleQuestion),
}

/// The aim of a search for a schedule: a condition that must hold at the end of the schedule.
#[derive(Clone, Copy, Drop)]
pub enum ScheduleQuestion {
    /// The condition that the given step of a build is refused.
    Refused(StepPlace),
    /// The condition that the given build waits, and that some other build holds no page. A build waits if its step is
    /// refused for lack of a block or a VMID.
    Waiting(u32),
    /// The condition that at least the given number of granules is leased.
    Leased(u32),
}

/// The behaviour of a build after one of its steps is refused.
#[derive(Clone, Copy, Drop)]
pub enum AfterRefusal {
    /// The build goes on with its next step.
    GoOn,
    /// The build skips its remaining steps, and aborts: its operations are undone.
    GiveUp,
}

/// The position of a step in a plan: the step's build and index. The index is that in the build's list of steps.
#[derive(Clone, Copy, Drop)]
pub struct StepPlace {
    pub build: u32,
    pub step: u32,
}

/// The reason why the options of a subcommand are refused.
#[derive(Clone, Copy, Drop)]
pub enum BadOption {
    /// A request to draw more schedules than the limit allows.
    SampleAboveMost { sample: u32 },
    /// An option value that is not a valid base address: it is not an address, is too high, or is not a multiple of
    /// 4,096.
    NoBase,
    /// An option value that does not name a step of a build.
    NoStep,
    /// The option `--give-up` together with a search for the shortest schedule. The search results in a plan, and a
    /// plan cannot say that its builds give up.
    GiveUpInPlan,
    /// A number of granules that is 0 or too large for a machine.
    GranulesOutOfRange { granules: u32 },
    /// More than one of the options `--refused`, `--waiting` and `--leased` on a command line.
    TwoQuestions,
}

/// The policy by which the builds of a plan take turns.
#[derive(Clone, Copy, Drop)]
pub enum SchedulingPolicy {
    /// Gives turns in rotation to the builds that have a step left.
    InRotation,
    /// Lets each build take all its steps before the next build begins.
    OneByOne,
}

// The limit on explored states, if no option gives one.
const DEFAULT_STATE_LIMIT: u32 = 1000000;

// The most schedules that may be drawn.
const MOST_DRAWN: u32 = 1000000;

// The number of schedules that are drawn, if only a seed is given.
const SAMPLE: u32 = 1000;

// Returns `sample` schedules that are drawn with the seed, or an error if they are too many.
fn schedules_drawn(sample: u32, seed: u32) -> Result<Schedules, BadOption>
    ensures { result ≡ schedules_drawn sample seed }
{
    if sample > MOST_DRAWN {
        Err(BadOption::SampleAboveMost { sample })
    } else {
        Ok(Schedules::Drawn(sample, seed))
    }
}

// Returns the schedules that options ask for, or an error. Schedules are drawn if a sample or a seed is given, and
// otherwise all are explored.
fn schedules_asked(
    most_states: Option<u32>,
    sample: Option<u32>,
    seed: Option<u32>,
) -> Result<Schedules, BadOption>
    ensures { result ≡ schedules_asked most_states sample seed }
{
    match (sample, seed) {
        (None, None) => Ok(Schedules::All(most_states.unwrap_or(DEFAULT_STATE_LIMIT))),
        (None, Some(seed)) => Ok(Schedules::Drawn(SAMPLE, seed)),
        (Some(sample), seed) => schedules_drawn(sample, seed.unwrap_or(0)),
    }
}

// Returns the behaviour of builds after a refusal, or an error if it does not fit the schedules. A plan that is printed
// cannot say that its builds give up.
fn after_refusal(gives_up: bool, schedules: &Schedules) -> Result<AfterRefusal, BadOption>
    ensures { result ≡ after_refusal gives_up schedules.now }
{
    match (gives_up, schedules) {
        (false, _) => Ok(AfterRefusal::GoOn),
        (true, Schedules::All(_) | Schedules::Drawn(..)) => Ok(AfterRefusal::GiveUp),
        (true, _) => Err(BadOption::GiveUpInPlan),
    }
}

// The most granules that a machine can have.
const MOST_GRANULES: u32 = 4096;

// Returns the question whether at least `granules` granules are leased, or an error if the number is out of range.
fn question_of_leased(granules: u32) -> Result<ScheduleQuestion, BadOption>
    ensures { result ≡ question_of_leased granules }
{
    if granules == 0 || granules > MOST_GRANULES {
        Err(BadOption::GranulesOutOfRange { granules })
    } else {
        Ok(ScheduleQuestion::Leased(granules))
    }
}

// Returns the question that options ask, if they ask one, or an error. `refused` is `Some(None)` if its text is no
// step.
fn question_asked(
    refused: Option<Option<StepPlace>>,
    waiting: Option<u32>,
    leased: Option<u32>,
) -> Result<Option<ScheduleQuestion>, BadOption>
    ensures { result ≡ question_asked refused waiting leased }
{
    match (refused, waiting, leased) {
        (None, None, None) => Ok(None),
        (Some(Some(place)), None, None) => Ok(Some(ScheduleQuestion::Refused(place))),
        (Some(None), None, None) => Err(BadOption::NoStep),
        (None, Some(build), None) => Ok(Some(ScheduleQuestion::Waiting(build))),
        (None, None, Some(granules)) => Ok(Some(question_of_leased(granules)?)),
        _ => Err(BadOption::TwoQuestions),
    }
}

const ABOUT: &str =
    "Shows what plans of realmhost do: why a step is refused, what an undo leaves, what other schedules come to.";

const EXAMPLES: &str = "Examples:
  realmview check plans/first.toml
  realmview why plans/failed-build.toml
  realmview page plans/failed-build.toml > run.html
  realmview history plans/first.toml | realmview apply --erase 0";

const HISTORY: &str = "Print the history of a plan's run, one event a line";

const HISTORY_EXAMPLES: &str = "Examples:
  realmview history plans/first.toml
  realmview history --erase 0 plans/first.toml";

const APPLY: &str = "Apply a history event by event, and print the map that it leads to";

const APPLY_EXAMPLES: &str = "Examples:
  realmview apply first.history
  realmview history plans/first.toml | realmview apply --erase 0";

const JSON: &str = "Print a plan's run as one JSON document";

const JSON_EXAMPLES: &str = "Examples:
  realmview json plans/first.toml
  realmview json plans/first.toml | python3 -m json.tool";

const PAGE: &str = "Print a web page that shows a plan's run, turn by turn";

const PAGE_EXAMPLES: &str = "Examples:
  realmview page plans/failed-build.toml > run.html";

const CHECK: &str = "Check a plan, and print each mistake with its line";

const CHECK_EXAMPLES: &str = "Examples:
  realmview check plans/first.toml
  realmview check - < plans/first.toml";

const WHY: &str = "Explain why steps of a plan are refused";

const WHY_EXAMPLES: &str = "Examples:
  realmview why plans/failed-build.toml
  realmview why --all plans/retry.toml | less";

const ALL_HELP: &str = "List the checks that passed, too";

const EXPLORE: &str = "Explore every schedule of a plan, and print what differs";

const EXPLORE_EXAMPLES: &str = "Examples:
  realmview explore plans/some-orders.toml
  realmview explore --sample 100 --seed 7 plans/failed-build.toml
  realmview explore --give-up plans/some-orders.toml
  realmview explore --refused 1:4 plans/some-orders.toml | realmview why
  realmview explore --leased 8 plans/some-orders.toml | realmhost replay";

const MOST_STATES_HELP: &str =
    "Explore all schedules if they have at most N states [default: 1000000]";

const SAMPLE_HELP: &str =
    "Draw K schedules at random, K up to 1000000 [default: 1000, if a seed is given]";

const SEED_HELP: &str = "Draw schedules by the random numbers of the seed S [default: 0]";

const REFUSED_HELP: &str =
    "Print the plan with the shortest schedule that ends with a refusal of step S of build B";

const WAITING_HELP: &str =
    "Print the plan with the shortest schedule after which build B waits while another holds nothing";

const LEASED_HELP: &str =
    "Print the plan with the shortest schedule after which N granules are leased, N from 1 to 4096";

const TWO_QUESTIONS: &str = "of --refused, --waiting and --leased only one may be given";

const NO_STEP: &str = "--refused is no step as 1:4: a build, and a place in its steps, both from 0";

const GIVE_UP_HELP: &str = "Let a build whose step is refused leave out its other steps, and abort";

const GIVE_UP_IN_PLAN: &str =
    "--give-up is not for --refused, --waiting and --leased: a replay of the plan that they print does not give up";

const ORDER: &str =
    "Print a plan with a schedule that gives each build all the turns that it needs, in rotation";

const ORDER_EXAMPLES: &str = "Examples:
  realmview order plans/first.toml > mine.toml
  realmview order --one-by-one plans/failed-build.toml | realmhost replay";

const CALLS: &str = "Print a plan's run as calls on an RMM, a trace for rmitrace";

const CALLS_EXAMPLES: &str = "Examples:
  realmview calls plans/first.toml
  realmview calls --base 0x88000000 plans/failed-build.toml | rmitrace check
  realmview calls --c plans/first.toml > rows.inc";

const BASE_HELP: &str =
    "Place granule 0 at this address, a multiple of 0x1000 [default: 0x80000000]";

const C_HELP: &str = "Print the rows of a table of C, for examples/c/table.c";

const NO_BASE: &str =
    "--base is not an address as 0x80000000: a multiple of 0x1000 below 0x400000000000";

const ONE_BY_ONE_HELP: &str = "Give a build all its turns before the next build has one";

const ERASE: &str = "Leave out the events of build B";

const PLAN: &str = "The plan; without FILE, or with -, read standard input";

const HISTORY_FILE: &str = "The history; without FILE, or with -, read standard input";

const REALMVIEW: Program = Program {
    name: "realmview",
    about: ABOUT,
    examples: EXAMPLES,
    subcommands: &[
        Subcommand {
            name: "history",
            about: HISTORY,
            examples: HISTORY_EXAMPLES,
            arguments: &[Argument::File(PLAN), Argument::Erase(ERASE)],
        },
        Subcommand {
            name: "apply",
            about: APPLY,
            examples: APPLY_EXAMPLES,
            arguments: &[Argument::File(HISTORY_FILE), Argument::Erase(ERASE)],
        },
        Subcommand {
            name: "json",
            about: JSON,
            examples: JSON_EXAMPLES,
            arguments: &[Argument::File(PLAN)],
        },
        Subcommand {
            name: "page",
            about: PAGE,
            examples: PAGE_EXAMPLES,
            arguments: &[Argument::File(PLAN)],
        },
        Subcommand {
            name: "why",
            about: WHY,
            examples: WHY_EXAMPLES,
            arguments: &[Argument::File(PLAN), Argument::Flag("all", ALL_HELP)],
        },
        Subcommand {
            name: "explore",
            about: EXPLORE,
            examples: EXPLORE_EXAMPLES,
            arguments: &[
                Argument::File(PLAN),
                Argument::Number("most-states", "N", MOST_STATES_HELP),
                Argument::Number("sample", "K", SAMPLE_HELP),
                Argument::Number("seed", "S", SEED_HELP),
                Argument::Text("refused", "B:S", REFUSED_HELP),
                Argument::Number("waiting", "B", WAITING_HELP),
                Argument::Number("leased", "N", LEASED_HELP),
                Argument::Flag("give-up", GIVE_UP_HELP),
            ],
        },
        Subcommand {
            name: "order",
            about: ORDER,
            examples: ORDER_EXAMPLES,
            arguments: &[
                Argument::File(PLAN),
                Argument::Flag("one-by-one", ONE_BY_ONE_HELP),
            ],
        },
        Subcommand {
            name: "calls",
            about: CALLS,
            examples: CALLS_EXAMPLES,
            arguments: &[
                Argument::File(PLAN),
                Argument::Text("base", "HEX", BASE_HELP),
                Argument::Flag("c", C_HELP),
            ],
        },
        Subcommand {
            name: "check",
            about: CHECK,
            examples: CHECK_EXAMPLES,
            arguments: &[Argument::File(PLAN)],
        },
    ],
};

// The description of `realmview`. Only this function names the table, since a check reads the whole table in each
// function that does.
fn realmview() -> Program {
    REALMVIEW
}

// The build that the matched words ask to leave out, if they name one.
fn erased(matches: &ArgMatches) -> Option<BuildId> {
    build_of(matches.get_one("erase"))
}

// The step that a text such as `1:4` names by a build and the index of its step.
fn step_of(text: &str) -> Option<StepPlace> {
    let (build, step) = text.split_once(':')?;
    let build = build.parse::<u32>().ok()?;
    let step = step.parse::<u32>().ok()?;
    Some(StepPlace { build, step })
}

// Returns the question that the matched words ask, if they ask one, or an error.
fn question_by(explore: &ArgMatches) -> Result<Option<ScheduleQuestion>, BadOption> {
    question_asked(
        explore.get_str("refused").map(step_of),
        explore.get_one("waiting"),
        explore.get_one("leased"),
    )
}

// Returns the schedules that the matched words ask for, or an error.
fn schedules_by(explore: &ArgMatches) -> Result<Schedules, BadOption> {
    let most_states: Option<u32> = explore.get_one("most-states");
    match question_by(explore)? {
        Some(question) => Ok(Schedules::Shortest(
            most_states.unwrap_or(DEFAULT_STATE_LIMIT),
            question,
        )),
        None => schedules_asked(
            most_states,
            explore.get_one("sample"),
            explore.get_one("seed"),
        ),
    }
}

// Returns the exploration that the matched words ask for, or an error.
fn explore_by(explore: &ArgMatches) -> Result<ViewSubcommand, BadOption> {
    let schedules = schedules_by(explore)?;
    let after = after_refusal(explore.get_flag("give-up"), &schedules)?;
    Ok(ViewSubcommand::Explore(schedules, after))
}

// Returns the address that the matched words give the first granule, or an error.
fn base_by(calls: &ArgMatches) -> Result<BaseAddress, BadOption> {
    match calls.get_str("base") {
        Some(text) => BaseAddress::read(text).ok_or(BadOption::NoBase),
        None => Ok(BaseAddress::usual()),
    }
}

// The form of calls that the matched words ask for.
fn form_by(calls: &ArgMatches) -> CallsForm {
    if calls.get_flag("c") {
        CallsForm::Rows
    } else {
        CallsForm::Trace
    }
}

// The scheduling policy that the matched words ask for.
fn scheduling_policy_by(order: &ArgMatches) -> SchedulingPolicy {
    if order.get_flag("one-by-one") {
        SchedulingPolicy::OneByOne
    } else {
        SchedulingPolicy::InRotation
    }
}

// Returns the request for calls that the matched words make, or an error.
fn calls_by(calls: &ArgMatches) -> Result<ViewSubcommand, BadOption> {
    Ok(ViewSubcommand::Calls(base_by(calls)?, form_by(calls)))
}

// The request that the subcommand `name` makes, if its options cannot be wrong.
fn plainly_asked_by(name: &str, matches: &ArgMatches) -> ViewSubcommand {
    match name {
        "history" => ViewSubcommand::History(erased(matches)),
        "apply" => ViewSubcommand::Apply(erased(matches)),
        "json" => ViewSubcommand::Json,
        "page" => ViewSubcommand::Page,
        "why" => ViewSubcommand::Why {
            all: matches.get_flag("all"),
        },
        "order" => ViewSubcommand::Order(scheduling_policy_by(matches)),
        _ => ViewSubcommand::Check,
    }
}

// Returns the request that the subcommand `name` makes, or an error.
fn asked_by(name: &str, matches: &ArgMatches) -> Result<ViewSubcommand, BadOption> {
    match name {
        "explore" => explore_by(matches),
        "calls" => calls_by(matches),
        _ => Ok(plainly_asked_by(name, matches)),
    }
}

// Returns the request of the matched words, or an error.
fn asked_of(matches: &ArgMatches) -> Result<ViewSubcommand, BadOption> {
    match matches.subcommand() {
        Some((name, found)) => asked_by(name, found),
        None => Ok(ViewSubcommand::Check),
    }
}

impl fmt::Display for BadOption {
    fn fmt<W: fmt::Write>(&self, f: &mut fmt::Formatter<W>) -> fmt::Result {
        match self {
            BadOption::SampleAboveMost { sample } => {
                write!(f, "--sample {sample} is above {MOST_DRAWN}")
            }
            BadOption::NoBase => f.write_str(NO_BASE),
            BadOption::NoStep => f.write_str(NO_STEP),
            BadOption::GiveUpInPlan => f.write_str(GIVE_UP_IN_PLAN),
            BadOption::GranulesOutOfRange { granules } => {
                write!(f, "--leased {granules} is not from 1 to {MOST_GRANULES}")
            }
            BadOption::TwoQuestions => f.write_str(TWO_QUESTIONS),
        }
    }
}

// Returns the error that explains why options are refused.
fn bad_option(alloc: Global, reason: BadOption) -> Result<Error, AllocError> {
    realmview().error(alloc, &format!(in alloc; "{reason}")?)
}

// Returns the request of the matched words with the name of the file, or the error.
fn invocation_of<'a>(
    alloc: Global,
    matches: &ArgMatches<'a>,
) -> Result<Invocation<'a, ViewSubcommand>, Error> {
    match asked_of(matches) {
        Ok(asked) => Ok(Invocation {
            asked,
            file: given_file(matches),
        }),
        Err(reason) => Err(bad_option(alloc, reason)?),
    }
}

impl ViewSubcommand {
    /// Parses a command line of `realmview`. Returns the request and the name of the file, or the error. The first word
    /// is the program's name.
    pub fn of<'a>(
        alloc: Global,
        words: &'a [String],
    ) -> Result<Invocation<'a, ViewSubcommand>, Error> {
        invocation_of(alloc, &realmview().matched(alloc, words)?)
    }
}
