//! Yes-or-no questions about the last turn of a schedule.
ghost use Rattle.std.specs.Prelude.{◌≡◌, sum};
ghost use Rattle.plan_states.specs.Questions.{is_answer, is_other_without_pages, is_of_shared, has_other_without_pages, pages_of_builds, waits, end_numbered};
ghost use Rattle.plan_states.specs.LabelProperties.{refuses_step};

use crate::edges::Label;
use crate::running::pages_of;
use crate::step_end::EndOfStep;
use host_commands::Refusal;
use page_arena::PageStore;
use realm_host::Host;
use schedule_graph::LabelProperty;

/// The number of pages that each build holds.
pub type PagesHeld = [u16; 8];

/// A yes-or-no question about the last turn of a schedule, or about the host after that turn.
#[derive(Clone, Copy, Drop)]
pub enum TurnQuestion {
    /// Asks whether step `step` of build `build` is refused in the last turn.
    Refused { build: usize, step: usize },
    /// Asks whether, in the last turn, build `build` is refused a block or a VMID while another build holds no page.
    Waiting { build: usize },
    /// Asks whether at least `granules` granules are leased after the last turn.
    Leased { granules: usize },
}

// Whether a step was refused for lack of a block or a VMID, which builds share.
fn is_of_shared(refusal: Option<Refusal>) -> bool
    ensures { result ≡ is_of_shared refusal }
{
    match refusal {
        Some(Refusal::NoBlock(_)) => true,
        Some(Refusal::NoVmid) => true,
        _ => false,
    }
}

// Whether a turn ends step `step` of build `build`, and is refused.
fn refuses_step(end: Option<EndOfStep>, build: usize, step: usize) -> bool
    ensures { result ≡ refuses_step build step end }
{
    match end {
        Some(end) => end.refusal.is_some() && end.build == build && end.step == step,
        None => false,
    }
}

// Whether a turn ends a step of build `build`, and is refused for lack of a block or a VMID.
fn waits(end: Option<EndOfStep>, build: usize) -> bool
    ensures { result ≡ waits build end }
{
    match end {
        Some(end) => end.build == build && is_of_shared(end.refusal),
        None => false,
    }
}

// Whether `other` is a build other than `build`, and holds no page.
fn is_other_without_pages(held: &PagesHeld, build: usize, other: usize) -> bool
    ensures { result ≡ is_other_without_pages build held.now other }
{
    match held.get(other) {
        Some(pages) => other != build && *pages == 0,
        None => false,
    }
}

// Whether some build other than `build`, among the first `builds` builds, holds no page.
fn has_other_without_pages(held: &PagesHeld, builds: usize, build: usize) -> bool
    ensures { result ≡ has_other_without_pages builds build held.now }
{
    for other in 0..builds {
        if is_other_without_pages(held, build, other) {
            return true;
        }
    }
    false
}

// The number of pages that all builds hold together.
fn all_held(held: &PagesHeld) -> usize
    ensures { result ≡ sum held.now }
{
    let mut all: usize = 0;
    for pages in held {
        all += usize::from(*pages);
    }
    all
}

impl TurnQuestion {
    /// Returns whether the answer to the question is yes for a turn. `end` is the outcome of the step that the turn
    /// ended, if any. `held` gives the pages that builds hold after the turn, and `builds` is the number of the plan's
    /// builds.
    pub(crate) fn is_answer(&self, builds: usize, end: Option<EndOfStep>, held: &PagesHeld) -> bool
        ensures { result ≡ is_answer builds self.now end held.now }
    {
        match *self {
            TurnQuestion::Refused { build, step } => refuses_step(end, build, step),
            TurnQuestion::Waiting { build } => {
                waits(end, build) && has_other_without_pages(held, builds, build)
            }
            TurnQuestion::Leased { granules } => granules <= all_held(held),
        }
    }
}

// The outcome of a step at the index `number`, if there is one.
fn end_numbered(ends: &[EndOfStep], number: Option<usize>) -> Option<EndOfStep>
    ensures { result ≡ end_numbered ends.now number }
{
    match number {
        Some(number) => ends.get(number).copied(),
        None => None,
    }
}

/// The property that the answer to `question` is yes for a label's turn. A label has indices into `ends` and `held`.
#[derive(Clone, Copy)]
pub(crate) struct AnswersQuestion<'a> {
    pub(crate) ends: &'a [EndOfStep],
    pub(crate) held: &'a [PagesHeld],
    pub(crate) builds: usize,
    pub(crate) question: TurnQuestion,
}

impl LabelProperty<Label> for AnswersQuestion<'_> {
    ghost use Rattle.plan_states.specs.Questions.{is_answer_at};

    ghost holds_for = { λ property label. is_answer_at property.ends.now property.held.now property.builds property.question label };

    fn holds_for(&self, label: &Label) -> bool {
        let end = end_numbered(self.ends, label.end);
        match self.held.get(label.held) {
            Some(held) => self.question.is_answer(self.builds, end, held),
            None => false,
        }
    }
}

/// Returns the number of pages that each build of a host holds.
pub(crate) fn pages_of_builds<S: PageStore>(host: &Host<S>) -> PagesHeld
    ensures { result ≡ pages_of_builds host.now }
{
    [
        pages_of(host, 0),
        pages_of(host, 1),
        pages_of(host, 2),
        pages_of(host, 3),
        pages_of(host, 4),
        pages_of(host, 5),
        pages_of(host, 6),
        pages_of(host, 7),
    ]
}
