//! The output text of a run in which each build has its own thread.
ghost use Rattle.std.specs.Prelude.{◌≡◌, ◌++◌, ◌⊎◌, OnOk, IfOk, IfErr, All, string_bytes};
ghost use Rattle.std.specs.List.{flat_map};
ghost use Rattle.plan_replay.specs.Run.{map_text};
ghost use Rattle.realm_plan.specs.PlanView.{plan_view};
ghost use Rattle.realm_program.specs.Fitting.{ReportFits};
ghost use Rattle.realm_program.specs.Text.{report_lines, audit_line};
ghost use Rattle.realm_program.specs.declared.run_fault.RunFault.TheVariants.{Memory, Mismatch};

use crate::fit_all;
use crate::report::push_report;
use crate::run_fault::RunFault;
use builders::Report;
use host_commands::Step;
use page_arena::PageStore;
use plan_replay::{empty_output_text, push_map};
use realm_host::Host;
use realm_plan::Plan;
use std::alloc::{AllocError, Global};

// Appends the lines of the reports, one after the other.
fn push_reports(
    text: &mut String,
    plan: &Plan,
    reports: &[(Report, Vec<Step>)],
) -> Result<(), AllocError>
    ensures { OnOk result (string_bytes text.new ≡ string_bytes text.old ++ flat_map (report_lines (plan_view plan.now)) reports.now) }
{
    for (report, _) in reports {
        let steps = match plan.builds.get(report.build.number() as usize) {
            Some(steps) => steps.as_slice(),
            None => &[],
        };
        push_report(text, steps, report)?;
    }
    Ok(())
}

// Returns the text of a run in threads: the lines of the reports, the map of the host, and `audit ok`. The one error is
// that allocation failed.
fn text_of<S: PageStore>(
    alloc: Global,
    plan: &Plan,
    reports: &[(Report, Vec<Step>)],
    host: &Host<S>,
) -> Result<String, AllocError>
    ensures { IfOk result (λ text. string_bytes text ≡ flat_map (report_lines (plan_view plan.now)) reports.now ++ (map_text host.now ++ audit_line)) }
{
    let mut text = empty_output_text(alloc, plan)?;
    push_reports(&mut text, plan, reports)?;
    push_map(&mut text, host)?;
    text.push_str("audit ok\n")?;
    Ok(text)
}

/// Returns the output text of a threaded run if all workers' reports match the history. Errors: `Mismatch`, if a report
/// does not match the host's history; `Memory`, if allocation failed.
pub fn audited_text_of<S: PageStore>(
    alloc: Global,
    plan: &Plan,
    reports: &[(Report, Vec<Step>)],
    host: &Host<S>,
) -> Result<String, RunFault>
    ensures fit { IfOk result (λ text. All (ReportFits host.now.history) reports.now) }
    ensures text { IfOk result (λ text. string_bytes text ≡ flat_map (report_lines (plan_view plan.now)) reports.now ++ (map_text host.now ++ audit_line)) }
    ensures err { IfErr result (λ fault. (fault ≡ Memory) ⊎ ((fault ≡ Mismatch) × ¬ (All (ReportFits host.now.history) reports.now))) }
{
    if !fit_all(alloc, host.history(), reports)? {
        return Err(RunFault::Mismatch);
    }
    Ok(text_of(alloc, plan, reports, host)?)
}
