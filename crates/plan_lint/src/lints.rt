//! The search for likely mistakes in a valid plan.
use crate::finding::{Finding, Findings, Span};
use crate::message_text::Piece::{self, Count, Plural, Quoted, Words};
use crate::needs::{KnownState, MOST_ORDER, block_len};
use crate::outline::Outline;
use crate::walk::outline_of;
use host_commands::{Cmd, Step};
use realm_plan::{Plan, PlanStep};
use std::alloc::{AllocError, Global};
use std::str::from_utf8;

/// Finds the likely mistakes in a valid plan. `bytes` are the text of the plan. The one error is that allocation
/// failed.
pub(crate) fn slips_in(
    alloc: Global,
    bytes: &[u8],
    plan: &Plan,
) -> Result<Vec<Finding>, AllocError> {
    let outline = outline_of(alloc, from_utf8(bytes).unwrap_or(""))?;
    let mut found = Findings::new(alloc);
    report_slips(plan, &outline, &mut found)?;
    found.finish()
}

fn report_slips(plan: &Plan, outline: &Outline, found: &mut Findings) -> Result<(), AllocError> {
    if plan.order.is_empty() {
        let words = "`order` has no turns, so no step is performed";
        found.warning(outline.order_span(), words, &[]);
    }
    for (number, steps) in plan.builds.iter().enumerate() {
        let build = PlannedBuild {
            plan,
            outline,
            number,
            steps,
        };
        build.report_slips(found)?;
    }
    Ok(())
}

/// A build that a plan describes, with its steps and their spans in the plan's text.
#[derive(Clone, Copy)]
struct PlannedBuild<'a> {
    plan: &'a Plan,
    outline: &'a Outline,
    number: usize,
    steps: &'a [PlanStep],
}

impl PlannedBuild<'_> {
    // The span of a step in the text.
    fn span(&self, step: usize) -> Span {
        self.outline.step_span(self.number, step)
    }

    fn report_slips(&self, found: &mut Findings) -> Result<(), AllocError> {
        self.takes(found);
        self.pages(found);
        if !self.plan.order.is_empty() {
            self.turns(found)?;
        }
        Ok(())
    }

    // Reports each `take` that a machine of the plan's size cannot serve.
    fn takes(&self, found: &mut Findings) {
        for (place, step) in self.steps.iter().enumerate() {
            if let Some(order) = taken(step) {
                self.take(place, order, found);
            }
        }
    }

    fn take(&self, place: usize, order: u8, found: &mut Findings) {
        let (len, pages) = (block_len(order), self.plan.pages as usize);
        if order > MOST_ORDER {
            let pieces = [Count(order as usize), Count(MOST_ORDER as usize)];
            let words = "no block has order {}; the greatest order is {}";
            found.warning(self.span(place), words, &pieces);
        } else if len > pages {
            let pieces = [Count(len), Plural(len), Count(pages)];
            let words = "this asks for {} page{}; the machine has {}";
            found.warning(self.span(place), words, &pieces);
        }
    }

    // Reports the first step that names a page beyond the pages that the `take` steps before it can give.
    fn pages(&self, found: &mut Findings) {
        let mut given: usize = 0;
        for (place, step) in self.steps.iter().enumerate() {
            if let Some(order) = taken(step) {
                given = given.saturating_add(block_len(order));
            }
            if let Some(page) = highest_page(step) {
                if page as usize >= given {
                    return self.of_page(place, page as usize, given, found);
                }
            }
        }
    }

    fn of_page(&self, place: usize, page: usize, given: usize, found: &mut Findings) {
        let (page, build) = (Count(page), Count(self.number));
        if given == 0 {
            let words = "no `take` before this step gives page {} to build {}";
            return found.warning(self.span(place), words, &[page, build]);
        }
        let pieces = [page, build, Count(given), Plural(given)];
        let words = "no `take` before this step gives page {}: build {} has at most {} page{} here";
        found.warning(self.span(place), words, &pieces);
    }

    // Reports too few turns for the steps, or too many.
    fn turns(&self, found: &mut Findings) -> Result<(), AllocError> {
        let (turns, further) = self.own_turns(most_turns(self.steps));
        if self.report_first_short_step(turns, found)? {
            return Ok(());
        }
        if let Some(place) = further {
            let span = self.outline.turn_span(place);
            let words = "build {} has no step left at this turn: it has {} step{} and {} turn{}";
            found.warning(span, words, &self.counts(turns));
        }
        Ok(())
    }

    // The number of the build's turns, and the index in `order` of its first turn beyond the limit `most`, if there is
    // one.
    fn own_turns(&self, most: usize) -> (usize, Option<usize>) {
        let (mut count, mut further) = (0usize, None);
        for (place, turn) in self.plan.order.iter().enumerate() {
            if turn.number() as usize == self.number {
                if count == most {
                    further = Some(place);
                }
                count = count.saturating_add(1);
            }
        }
        (count, further)
    }

    fn counts(&self, turns: usize) -> [Piece<'static>; 5] {
        let steps = self.steps.len();
        [
            Count(self.number),
            Count(steps),
            Plural(steps),
            Count(turns),
            Plural(turns),
        ]
    }

    // Reports the first step that no turn reaches, or that lacks turns to finish, and returns whether there is such a
    // step.
    fn report_first_short_step(
        &self,
        turns: usize,
        found: &mut Findings,
    ) -> Result<bool, AllocError> {
        let mut known = KnownState::new(found.alloc, self.plan, self.steps);
        let mut left = turns;
        for (place, step) in self.steps.iter().enumerate() {
            if left == 0 {
                self.unreached(place, turns, found);
                return Ok(true);
            }
            let least = known.record_step(step.asked())?;
            if left < least {
                self.cut_off(place, step, least, left, found);
                return Ok(true);
            }
            left = left.saturating_sub(least);
        }
        Ok(false)
    }

    // Reports a step that no turn reaches.
    fn unreached(&self, place: usize, turns: usize, found: &mut Findings) {
        if place == turns {
            let words = "no turn reaches this step: build {} has {} step{} and {} turn{}";
            return found.warning(self.span(place), words, &self.counts(turns));
        }
        let pieces = [Count(turns), Plural(turns), Count(self.number)];
        let words =
            "no turn reaches this step: all {} turn{} of build {} go to the steps before it";
        found.warning(self.span(place), words, &pieces);
    }

    // Reports an `abort` or a `back` that has too few turns left.
    fn cut_off(
        &self,
        place: usize,
        step: &PlanStep,
        least: usize,
        left: usize,
        found: &mut Findings,
    ) {
        let is_abort = matches!(step, PlanStep::Whole(Step::Abort));
        let word = if is_abort { "abort" } else { "back" };
        let verb = if left == 1 { " is" } else { "s are" };
        let pieces = [Quoted(word), Count(least), Count(left), Words(verb)];
        let words = "{} reverses at least {} operations, a turn each, and {} turn{} left for it";
        found.warning(self.span(place), words, &pieces);
    }
}

// The order of the block for which a step asks, if it is a `take`.
fn taken(step: &PlanStep) -> Option<u8> {
    match step {
        PlanStep::Whole(Step::Ask(Cmd::Take { order })) => Some(*order),
        _ => None,
    }
}

// The highest page that a step names.
fn highest_page(step: &PlanStep) -> Option<u16> {
    let Step::Ask(cmd) = step.asked() else {
        return None;
    };
    match &cmd {
        Cmd::Fill { page, .. }
        | Cmd::Peek { page, .. }
        | Cmd::Delegate { page }
        | Cmd::Rtt { page, .. }
        | Cmd::Unknown { page, .. } => Some(*page),
        Cmd::Realm { rd, root, .. } => Some((*rd).max(*root)),
        Cmd::Data { page, source, .. } => Some((*page).max(*source)),
        Cmd::Rec { page, auxiliaries } => {
            let mut highest = *page;
            for auxiliary in auxiliaries.as_slice() {
                highest = highest.max(*auxiliary);
            }
            Some(highest)
        }
        _ => None,
    }
}

// The largest number of turns that the steps of a build can take. An `abort` or a `back` takes a turn for each
// operation that it reverses.
fn most_turns(steps: &[PlanStep]) -> usize {
    let (mut opening, mut has_way_back) = (0usize, false);
    for step in steps {
        match step.asked() {
            Step::Ask(cmd) if cmd.needs().paired => opening = opening.saturating_add(1),
            Step::Abort | Step::Back => has_way_back = true,
            _ => {}
        }
    }
    let further = if has_way_back { opening } else { 0 };
    steps.len().saturating_add(further)
}
