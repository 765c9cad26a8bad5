//! A lower bound on the number of turns that a build's steps take, whatever other builds do.
//!
//! A `take` is surely accepted if all takes of the plan together ask for no more than the machine has. A `delegate` of
//! a page of such a take is accepted too, and so is a `realm` with two pages that were delegated in this way. Nothing
//! else is known without a run.
use granule_addr::IpaWidth;
use host_commands::{Cmd, Step};
use realm_plan::{Plan, PlanStep};
use std::alloc::{AllocError, Global};

/// The maximum number of a build's open operations: reversible ones that have not been undone yet.
const MOST_OPEN: usize = 512;

/// The greatest order of a block.
pub const MOST_ORDER: u8 = 9;

/// Returns the number of pages in a block of the given order, or 4,096 if the block has more pages.
pub(crate) fn block_len(order: u8) -> usize {
    1 << order.min(12)
}

/// The facts that are certain about a build's state after the steps recorded so far.
#[derive(Drop)]
pub struct KnownState {
    /// A lower bound on the number of the build's reversible operations that have not been undone yet. `since_mark` is
    /// such a bound for those performed since the mark.
    open: usize,
    since_mark: usize,
    has_mark: bool,
    /// A lower bound on the number of the build's pages. `delegated` has the pages that are surely delegated.
    pages: usize,
    delegated: Vec<u16>,
    /// Whether a `realm` step surely succeeds once its pages are delegated.
    can_have_realm: bool,
    /// Whether some further commands of the build are still sure to succeed, its next `take` among them. The value is
    /// `false` after an `undo`, `abort`, `back` or `enter` step, and from the start if pages, history or journal may
    /// run out.
    is_plain: bool,
}

impl KnownState {
    /// Returns what is certain about a build's state before its first step.
    pub(crate) fn new(alloc: Global, plan: &Plan, steps: &[PlanStep]) -> KnownState {
        let (mut pages, mut realms) = (0usize, 0usize);
        for steps in &plan.builds {
            for step in steps {
                match step.asked() {
                    Step::Ask(Cmd::Take { order, .. }) if order > MOST_ORDER => pages = usize::MAX,
                    Step::Ask(Cmd::Take { order, .. }) => {
                        pages = pages.saturating_add(block_len(order));
                    }
                    Step::Ask(Cmd::Realm { .. }) => realms = realms.saturating_add(1),
                    _ => {}
                }
            }
        }
        let events = steps.len().saturating_mul(2);
        let has_room = events <= plan.history as usize && steps.len() <= MOST_OPEN;
        KnownState {
            open: 0,
            since_mark: 0,
            has_mark: false,
            pages: 0,
            delegated: Vec::new(alloc),
            can_have_realm: realms <= plan.vmids as usize,
            is_plain: has_room && pages <= plan.pages as usize,
        }
    }

    /// Updates what is certain about a build, given the build's next step. Returns a lower bound on the turns that the
    /// step takes.
    pub(crate) fn record_step(&mut self, step: Step) -> Result<usize, AllocError> {
        let reversed = match step {
            Step::Ask(cmd) => {
                self.ask(cmd)?;
                return Ok(1);
            }
            Step::Mark => {
                self.has_mark = true;
                self.since_mark = 0;
                return Ok(1);
            }
            Step::Undo => 1,
            Step::Abort => self.open,
            Step::Back if self.has_mark => self.since_mark,
            Step::Back => 0,
        };
        self.open = self.open.saturating_sub(reversed);
        self.since_mark = self.since_mark.saturating_sub(reversed);
        self.is_plain = false;
        Ok(reversed.max(1))
    }

    fn ask(&mut self, cmd: Cmd) -> Result<(), AllocError> {
        match cmd {
            Cmd::Enter { .. } => {
                // (an abort may be refused while a REC runs)
                self.open = 0;
                self.since_mark = 0;
                self.is_plain = false;
            }
            _ if !self.is_plain => {}
            Cmd::Take { order, .. } => {
                self.pages = self.pages.saturating_add(block_len(order));
                self.open();
            }
            Cmd::Delegate { page, .. }
                if (page as usize) < self.pages && !self.is_delegated(page) => {
                self.delegated.push(page)?;
                self.open();
            }
            Cmd::Realm { width, .. } if width != IpaWidth::least().number() => {
                // (the realm may be made, and then the build gets no other)
                self.can_have_realm = false;
            }
            Cmd::Realm { rd, root, .. } if self.can_make_realm(rd, root) => {
                self.can_have_realm = false;
                self.open();
            }
            _ => {}
        }
        Ok(())
    }

    fn open(&mut self) {
        self.open = self.open.saturating_add(1);
        self.since_mark = self.since_mark.saturating_add(1);
    }

    fn is_delegated(&self, page: u16) -> bool {
        self.delegated.as_slice().contains(&page)
    }

    // Whether a realm of the least width, which has one starting table, is surely made with these operands.
    fn can_make_realm(&self, rd: u16, root: u16) -> bool {
        let has_both = rd != root && self.is_delegated(rd) && self.is_delegated(root);
        self.can_have_realm && has_both
    }
}
