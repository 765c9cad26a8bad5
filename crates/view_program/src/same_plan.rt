//! The comparison of two plans, apart from their schedules.
ghost use Rattle.std.specs.Prelude.{◌≡◌, true, map};
ghost use Rattle.realm_plan.specs.PlanView.{plan_view};
ghost use Rattle.view_program.specs.OrderText.{with_schedule};

use host_commands::{Cmd, Step};
use realm_plan::{Plan, PlanStep};

// Whether two commands are the same command on pages.
fn is_same_on_pages(one: &Cmd, other: &Cmd) -> bool
    ensures { result ≡ true → one.now ≡ other.now }
{
    match (one, other) {
        (Cmd::Take { order }, Cmd::Take { order: other_order }) => order == other_order,
        (
            Cmd::Fill { page, value },
            Cmd::Fill {
                page: other_page,
                value: other_value,
            },
        ) => page == other_page && value == other_value,
        (
            Cmd::Peek { page, offset },
            Cmd::Peek {
                page: other_page,
                offset: other_offset,
            },
        ) => page == other_page && offset == other_offset,
        (Cmd::Delegate { page }, Cmd::Delegate { page: other_page }) => page == other_page,
        _ => false,
    }
}

// Whether two commands are the same command on a realm or its memory.
fn is_same_on_realms(one: &Cmd, other: &Cmd) -> bool
    ensures { result ≡ true → one.now ≡ other.now }
{
    match (one, other) {
        (
            Cmd::Realm { rd, root, width },
            Cmd::Realm {
                rd: other_rd,
                root: other_root,
                width: other_width,
            },
        ) => rd == other_rd && root == other_root && width == other_width,
        (
            Cmd::Rtt { page, ipa, level },
            Cmd::Rtt {
                page: other_page,
                ipa: other_ipa,
                level: other_level,
            },
        ) => page == other_page && ipa == other_ipa && level == other_level,
        (
            Cmd::Ripas { ipa, count },
            Cmd::Ripas {
                ipa: other_ipa,
                count: other_count,
            },
        ) => ipa == other_ipa && count == other_count,
        (
            Cmd::Data { page, ipa, source },
            Cmd::Data {
                page: other_page,
                ipa: other_ipa,
                source: other_source,
            },
        ) => page == other_page && ipa == other_ipa && source == other_source,
        (
            Cmd::Unknown { page, ipa },
            Cmd::Unknown {
                page: other_page,
                ipa: other_ipa,
            },
        ) => page == other_page && ipa == other_ipa,
        (Cmd::Activate, Cmd::Activate) => true,
        _ => false,
    }
}

// Whether two commands are the same command on RECs.
fn is_same_on_recs(one: &Cmd, other: &Cmd) -> bool
    ensures { result ≡ true → one.now ≡ other.now }
{
    match (one, other) {
        (
            Cmd::Rec { page, auxiliaries },
            Cmd::Rec {
                page: other_page,
                auxiliaries: other_auxiliaries,
            },
        ) => page == other_page && auxiliaries.as_slice() == other_auxiliaries.as_slice(),
        (
            Cmd::Enter { number },
            Cmd::Enter {
                number: other_number,
            },
        ) => number == other_number,
        (
            Cmd::Exit { number },
            Cmd::Exit {
                number: other_number,
            },
        ) => number == other_number,
        (
            Cmd::Poke {
                number,
                ipa,
                offset,
                value,
            },
            Cmd::Poke {
                number: other_number,
                ipa: other_ipa,
                offset: other_offset,
                value: other_value,
            },
        ) => {
            number == other_number
                && ipa == other_ipa
                && offset == other_offset
                && value == other_value
        }
        _ => false,
    }
}

// Whether two commands are the same.
fn is_same_cmd(one: &Cmd, other: &Cmd) -> bool
    ensures { result ≡ true → one.now ≡ other.now }
{
    is_same_on_pages(one, other) || is_same_on_realms(one, other) || is_same_on_recs(one, other)
}

// Whether two steps of plans are the same.
fn is_same_step(one: &PlanStep, other: &PlanStep) -> bool
    ensures { result ≡ true → one.now ≡ other.now }
{
    match (one, other) {
        (PlanStep::Whole(Step::Ask(cmd)), PlanStep::Whole(Step::Ask(other_cmd))) => {
            is_same_cmd(cmd, other_cmd)
        }
        (PlanStep::Whole(Step::Undo), PlanStep::Whole(Step::Undo)) => true,
        (PlanStep::Whole(Step::Abort), PlanStep::Whole(Step::Abort)) => true,
        (PlanStep::Whole(Step::Mark), PlanStep::Whole(Step::Mark)) => true,
        (PlanStep::Whole(Step::Back), PlanStep::Whole(Step::Back)) => true,
        (
            PlanStep::WidthLeftOut { rd, root },
            PlanStep::WidthLeftOut {
                rd: other_rd,
                root: other_root,
            },
        ) => rd == other_rd && root == other_root,
        _ => false,
    }
}

// Whether the steps of two builds are the same.
fn are_same_steps(one: &[PlanStep], other: &[PlanStep]) -> bool
    ensures { result ≡ true → one.now ≡ other.now }
{
    if one.len() != other.len() {
        return false;
    }
    for place in 0..one.len() {
        if !is_same_step(&one[place], &other[place]) {
            return false;
        }
    }
    true
}

// Whether the builds of two plans are the same.
fn are_same_builds(one: &[Vec<PlanStep>], other: &[Vec<PlanStep>]) -> bool
    ensures { result ≡ true → map (λ steps. steps.items) one.now ≡ map (λ steps. steps.items) other.now }
{
    if one.len() != other.len() {
        return false;
    }
    for place in 0..one.len() {
        if !are_same_steps(&one[place], &other[place]) {
            return false;
        }
    }
    true
}

/// Returns whether plan `one` does not give up, and equals plan `other` except for the schedule and `gives_up`.
pub(crate) fn is_same_but_schedule(one: &Plan, other: &Plan) -> bool
    ensures { result ≡ true → plan_view one.now ≡ with_schedule (plan_view one.now).order (plan_view other.now) }
{
    one.pages == other.pages
        && one.vmids == other.vmids
        && one.aux == other.aux
        && one.history == other.history
        && !one.gives_up
        && are_same_builds(&one.builds, &other.builds)
}
