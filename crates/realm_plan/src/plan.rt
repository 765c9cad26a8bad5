//! The type of plans, which have a machine, builds with their steps, and a schedule.
ghost use Rattle.host_commands.specs.declared.cmd.Step.TheVariants.{Abort};
ghost use Rattle.realm_plan.specs.declared.step.PlanStep.TheVariants.{Whole};
ghost use Rattle.std.specs.Prelude.{◌≡◌, ◌<◌, ◌≤◌, true, map, All, IfOk, vec_len};

use crate::PlanStep;
use crate::contents::Contents;
use crate::fault::{PlanError, PlanFault};
use crate::limits::{check_lengths, numbers_of};
use crate::turns::{build_ids_of, builds_of, order_of};
use granule_addr::BuildId;
use host_commands::Step;
use std::alloc::Global;
use toml::Table;

/// The maximum number of bytes of a plan.
pub const MOST_BYTES: usize = 1_048_576;

/// A plan, with the settings of its machine, the steps of each build, and a schedule.
pub struct Plan {
    pub pages: u16,
    pub vmids: u8,
    /// The number of auxiliary granules that each REC needs.
    pub aux: u8,
    /// The number of events that the history can hold for each build.
    pub history: u16,
    /// The steps of each build.
    pub builds: Vec<Vec<PlanStep>>,
    /// The schedule, which gives the build of each turn.
    pub order: Vec<BuildId>,
    /// A flag that makes builds give up: after a refused step, a build skips its remaining steps and aborts.
    pub gives_up: bool,
    /// The step `abort`, which a build performs after one of its steps is refused, if `gives_up` is set.
    pub abort: PlanStep,
    pub ghost pages_in_limits: { (1 ≤ pages) × (pages ≤ 4096) },
    pub ghost vmids_in_limits: { 1 ≤ vmids },
    pub ghost aux_in_limits: { aux ≤ 16 },
    pub ghost history_in_limits: { (16 ≤ history) × (history ≤ 16384) },
    pub ghost builds_in_limits: { (1 ≤ vec_len builds) × (vec_len builds ≤ 8) },
    pub ghost steps_in_limits: { All (λ steps. vec_len steps ≤ 1024) builds.items },
    pub ghost order_in_limits: { vec_len order ≤ 16384 },
    pub ghost turns_of_builds: { All (λ build. build < vec_len builds) order.items },
    pub ghost is_abort: { abort ≡ Whole Abort },
}

impl Drop for Plan {
    fn drop(self) {
        let Plan {
            pages: _,
            vmids: _,
            aux: _,
            history: _,
            builds: _,
            order: _,
            gives_up: _,
            abort: _,
        } = self;
    }
}

impl Plan {
    ghost use Rattle.toml.specs.View.{table_view};
    ghost use Rattle.realm_plan.specs.StepsWritten.{spelling};
    ghost use Rattle.realm_plan.specs.declared.fault.PlanFault.TheVariants.{Syntax};
    ghost use Rattle.realm_plan.specs.ContentsView.{contents_view};
    ghost use Rattle.realm_plan.specs.Outcome.{Gives, or_fault};
    ghost use Rattle.realm_plan.specs.Plan.{document_of, plan_of_contents, plan_of};
    ghost use Rattle.realm_plan.specs.PlanView.{plan_view};
    ghost use Rattle.realm_plan.specs.Written.{written_steps};

    /// Parses bytes as a TOML document.
    fn document_of(alloc: Global, bytes: &[u8]) -> Result<Table, PlanError>
        ensures { Gives table_view result (or_fault Syntax (document_of bytes.now)) }
    {
        match toml::table_from_slice(alloc, bytes) {
            Ok(table) => Ok(table),
            Err(error) => {
                if error.is_memory() {
                    Err(PlanError::Memory)
                } else {
                    Err(PlanError::Fault(PlanFault::Syntax))
                }
            }
        }
    }

    /// Creates a plan from the values of its keys, if they are valid. The error is the reason why they are not a valid
    /// plan, or a failed allocation.
    #[tactic(auto, unfolding(crate::specs::Plan::plan_of_contents))]
    fn from_contents(alloc: Global, contents: &Contents<'_>) -> Result<Plan, PlanError>
        ensures { Gives plan_view result (plan_of_contents (contents_view contents.now)) }
    {
        let builds = builds_of(alloc, &contents.builds)?;
        let order = order_of(alloc, builds.len(), &contents.order)?;
        let numbers = numbers_of(contents)?;
        check_lengths(&builds, &order)?;
        let turns = build_ids_of(alloc, &order)?;
        Ok(Plan {
            pages: numbers.pages,
            vmids: numbers.vmids,
            aux: numbers.aux,
            history: numbers.history,
            builds,
            order: turns,
            gives_up: false,
            abort: PlanStep::Whole(Step::Abort),
        })
    }

    /// Parses a plan from the bytes of its TOML text. The error is the reason why the bytes spell no valid plan.
    /// `Memory` means that allocation failed.
    #[tactic(auto, unfolding(crate::specs::Plan::plan_of))]
    pub fn from_bytes(alloc: Global, bytes: &[u8]) -> Result<Plan, PlanError>
        ensures value { Gives plan_view result (plan_of bytes.now) }
        // The plan's steps are spelled as in the document.
        ensures as_written { IfOk result (λ plan. written_steps bytes.now
            ≡ Some (map (map spelling) (plan_view plan).builds)) }
    {
        if bytes.len() > MOST_BYTES {
            return Err(PlanError::Fault(PlanFault::Limit));
        }
        let table = Plan::document_of(alloc, bytes)?;
        let Some(contents) = Contents::of(alloc, &table)? else {
            return Err(PlanError::Fault(PlanFault::Key));
        };
        Plan::from_contents(alloc, &contents)
    }

    /// Returns the plan with `gives_up` set, so that a build whose step is refused aborts. A plan that is parsed from
    /// bytes never has `gives_up` set.
    pub fn giving_up(self) -> Plan
        ensures { plan_view result ≡ record (plan_view self) { gives_up = true } }
    {
        let mut plan = self;
        plan.gives_up = true;
        plan
    }
}
