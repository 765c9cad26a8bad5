//! The errors in a document, or the likely mistakes in a document that is a valid plan.
ghost use Rattle.std.specs.Prelude.{◌≡◌, ◌≤◌, ℕ, true, map, sum_by, All, Any, IfOk, length, vec_len};
ghost use Rattle.std.specs.List.Sorted.{IsPermutation, IsNonDecreasingBy};
ghost use Rattle.realm_plan.specs.PlanView.{plan_view};
ghost use Rattle.plan_lint.specs.Findings.{IsError, IsErrorOf, AreErrors, AreWarnings, IsStretchIn, AreInside, IsJudged, size_of};

use crate::document::errors_in;
use crate::finding::{Finding, Severity, Span};
use crate::lints::slips_in;
use realm_plan::{Plan, PlanError, PlanFault, PlanStep};
use std::alloc::{AllocError, Global};

/// The counts of a plan's builds, steps and turns.
#[derive(Clone, Copy)]
pub struct Size {
    pub builds: usize,
    pub steps: usize,
    pub turns: usize,
}

/// The findings on a document, and its size if it is a plan. It is the result of `judge`.
#[derive(Drop)]
pub struct Judged {
    /// The findings, sorted by the start offsets of their spans.
    pub findings: Vec<Finding>,
    /// The size of the plan, or `None` if the document is not a plan.
    pub size: Option<Size>,
}

fn steps_in(builds: &[Vec<PlanStep>]) -> usize
    requires few { length builds.now ≤ 8 }
    requires short { All (λ steps. vec_len steps ≤ 1024) builds.now }
    ensures { result ≡ sum_by length (map (λ b. b.items) builds.now) }
{
    let mut count: usize = 0;
    for steps in builds {
        count += steps.len();
    }
    count
}

fn size_of(plan: &Plan) -> Size
    ensures { result ≡ size_of (plan_view plan.now) }
{
    Size {
        builds: plan.builds.len(),
        steps: steps_in(&plan.builds),
        turns: plan.order.len(),
    }
}

// A description of a fault in general words, for bytes in which no other error reports the fault.
fn general_words(fault: PlanFault) -> &'static str {
    match fault {
        PlanFault::Syntax => "this is no TOML",
        PlanFault::Key => "a key is missing, unknown or of the wrong kind",
        PlanFault::Step { .. } => "a text is no step",
        PlanFault::Order { .. } => "an entry of `order` names no build",
        PlanFault::Limit => "a number or a length is outside its limits",
    }
}

// The span, clipped to a text of `end` bytes.
fn clipped(span: Span, end: usize) -> Span
    ensures ordered { result.start ≤ result.end }
    ensures inside { result.end ≤ end }
{
    let end = span.end.min(end);
    Span {
        start: span.start.min(end),
        end,
    }
}

// The errors among the findings, with each span clipped to a text of `end` bytes.
fn all_errors(alloc: Global, found: Vec<Finding>, end: usize) -> Result<Vec<Finding>, AllocError>
    ensures errors { IfOk result (λ v. All (λ f. IsError f.severity) v.items) }
    ensures inside { IfOk result (λ v. AreInside end v.items) }
{
    let mut errors = Vec::new(alloc);
    for mut finding in found {
        if let Severity::Error(..) = finding.severity {
            finding.span = clipped(finding.span, end);
            errors.push(finding)?;
        }
    }
    Ok(errors)
}

fn is_error_of(severity: Severity, fault: PlanFault) -> bool
    ensures { (result ≡ true) → IsErrorOf fault severity }
{
    match severity {
        Severity::Error(first, also) => first == fault || also == Some(fault),
        Severity::Warning => false,
    }
}

// Whether one of the findings is an error with this fault.
fn tells(findings: &[Finding], fault: PlanFault) -> bool
    ensures { (result ≡ true) → Any (λ f. IsErrorOf fault f.severity) findings.now }
{
    for finding in findings {
        if is_error_of(finding.severity, fault) {
            return true;
        }
    }
    false
}

// A finding that describes a fault in general words.
fn general_finding(alloc: Global, fault: PlanFault) -> Result<Finding, AllocError>
    ensures severity { IfOk result (λ f. IsErrorOf fault f.severity) }
    ensures inside { IfOk result (λ f. (end : ℕ) → IsStretchIn end f) }
{
    let words = String::from_str(alloc, general_words(fault))?;
    Ok(Finding {
        severity: Severity::Error(fault, None),
        span: Span { start: 0, end: 0 },
        words,
        notes: Vec::new(alloc),
    })
}

// The errors in bytes that were rejected as a plan with this fault. The fault is reported in general words if no other
// error reports it.
fn errors_of(alloc: Global, bytes: &[u8], fault: PlanFault) -> Result<Vec<Finding>, AllocError>
    ensures errors { IfOk result (λ v. AreErrors fault v.items) }
    ensures inside { IfOk result (λ v. AreInside (length bytes.now) v.items) }
{
    let found = errors_in(alloc, bytes, fault)?;
    let mut errors = all_errors(alloc, found, bytes.len())?;
    if tells(&errors, fault) {
        return Ok(errors);
    }
    errors.push(general_finding(alloc, fault)?)?;
    Ok(errors)
}

// The findings as warnings, with each span clipped to a text of `end` bytes.
fn all_warnings(alloc: Global, found: Vec<Finding>, end: usize) -> Result<Vec<Finding>, AllocError>
    ensures warnings { IfOk result (λ v. AreWarnings v.items) }
    ensures inside { IfOk result (λ v. AreInside end v.items) }
{
    let mut warnings = Vec::new(alloc);
    for mut finding in found {
        finding.severity = Severity::Warning;
        finding.span = clipped(finding.span, end);
        warnings.push(finding)?;
    }
    Ok(warnings)
}

// The likely mistakes in a valid plan, as warnings.
fn warnings_of(alloc: Global, bytes: &[u8], plan: &Plan) -> Result<Vec<Finding>, AllocError>
    ensures warnings { IfOk result (λ v. AreWarnings v.items) }
    ensures inside { IfOk result (λ v. AreInside (length bytes.now) v.items) }
{
    let found = slips_in(alloc, bytes, plan)?;
    all_warnings(alloc, found, bytes.len())
}

fn in_order(mut found: Vec<Finding>) -> Result<Vec<Finding>, AllocError>
    ensures moved { IfOk result (λ v. IsPermutation found.items v.items) }
    ensures sorted { IfOk result (λ v. IsNonDecreasingBy (λ f. f.span.start) v.items) }
{
    found.sort_by_key(|f| f.span.start)?;
    Ok(found)
}

/// Returns the errors in a document, or the likely mistakes if it is a valid plan. If it is one, the result also has
/// the size of the plan. The one error is that allocation failed.
pub fn judge(alloc: Global, bytes: &[u8]) -> Result<Judged, AllocError>
    ensures { IfOk result (IsJudged bytes.now) }
{
    match Plan::from_bytes(alloc, bytes) {
        Ok(plan) => {
            let findings = in_order(warnings_of(alloc, bytes, &plan)?)?;
            let size = Some(size_of(&plan));
            Ok(Judged { findings, size })
        }
        Err(PlanError::Fault(fault)) => {
            let findings = in_order(errors_of(alloc, bytes, fault)?)?;
            Ok(Judged {
                findings,
                size: None,
            })
        }
        Err(PlanError::Memory) => Err(AllocError),
    }
}
