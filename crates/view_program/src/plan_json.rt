//! The JSON document that describes the run of a plan.
ghost use Rattle.std.specs.Prelude.{None, IfOk};
ghost use Rattle.realm_plan.specs.PlanView.{plan_view};
ghost use Rattle.realm_program.specs.Replay.{IsWithoutText, opening_host};
ghost use Rattle.run_json.specs.Document.{IsDocument};
ghost use Rattle.view_program.specs.Json.{IsJsonText};

use crate::plan_text::ViewText;
use buddy::BuddyArena;
use realm_host::HostLedger;
use realm_plan::Plan;
use realm_program::{Fault, boot};
use run_json::{Document, json_text, run_document};
use std::alloc::{AllocError, Global};

/// Runs a plan, and returns the run's JSON document and the host's ledger after the run.
pub(crate) fn run_of(alloc: Global, plan: &Plan) -> Result<(Document, HostLedger), AllocError>
    ensures { IfOk result (λ ran. IsDocument (plan_view plan.now) (opening_host (plan_view plan.now)) ran.1 ran.0) }
{
    let mut host = boot::<BuddyArena>(alloc, plan)?;
    let document = run_document(alloc, &mut host, plan)?;
    Ok((document, host.into_ledger()))
}

/// A kind of text for a plan: the JSON document that describes the plan's run. The text is missing only if allocation
/// failed.
#[derive(Drop)]
pub struct Documents;

impl ViewText for Documents {
    ghost is_text = { λ asked _. IsJsonText };

    ghost is_without = { λ asked. IsWithoutText None };

    fn text_of(&self, alloc: Global, plan: Plan, _source: &[u8]) -> Result<Vec<u8>, Fault> {
        let (document, _ledger) = run_of(alloc, &plan)?;
        let mut text = json_text(alloc, &document)?;
        text.push_str("\n")?;
        Ok(text.into_bytes())
    }
}
