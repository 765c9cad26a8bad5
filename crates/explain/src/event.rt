//! Explanations of why a host does not apply a recorded event.
use crate::check::Check;
use crate::error::{error_of, newest_error, push_error};
use crate::of_build::build_there;
use crate::of_step::step_checks;
use crate::phrase::{Phrase, one, plain, three, two};
use crate::readings::{newest_rec, next_rec, page_of};
use arrayvec::ArrayVec;
use granule_addr::{BuildId, Gran, Order};
use host_commands::{Cmd, Step};
use page_arena::PageStore;
use plan_replay::PlanCursor;
use realm_host::{Act, Event, Host, Refusal};
use std::alloc::{AllocError, Global};

/// Explains in words why a host does not apply a recorded event. The words name granules instead of pages. The words
/// are empty if neither a check nor a recorded value explains it.
pub fn event_words<S: PageStore>(
    alloc: Global,
    host: &Host<S>,
    event: &Event,
) -> Result<String, AllocError> {
    let mut text = String::new(alloc);
    push_event(alloc, &mut text, host, event)?;
    Ok(text)
}

// Appends the words of `event_words`.
fn push_event<S: PageStore>(
    alloc: Global,
    text: &mut String,
    host: &Host<S>,
    event: &Event,
) -> Result<(), AllocError> {
    let (build, act) = (event.build, &event.act);
    let there = build_there(host, build);
    if there.fails {
        return push_check(text, host, build, &Step::Undo, &there);
    }
    if act.is_reverse() {
        return reverse_error(host, build).push(text);
    }
    match foreign_granule(host, build, act) {
        Some(granule) => foreign_error(host, build, granule).push(text),
        None => push_act(alloc, text, host, build, act),
    }
}

// Appends the words for a failed check, which name granules instead of pages.
fn push_check<S: PageStore>(
    text: &mut String,
    host: &Host<S>,
    build: BuildId,
    step: &Step,
    check: &Check,
) -> Result<(), AllocError> {
    let words = error_of(host, build, step, check.fact).in_granules(host, build);
    push_error(text, words, step, check)
}

// The error for a reverse that the host does not apply.
fn reverse_error<S: PageStore>(host: &Host<S>, build: BuildId) -> Phrase {
    match newest_rec(host, build) {
        Some(number) if host.is_newest_running(build) => newest_error(number),
        _ if host.open_acts(build).is_empty() => {
            plain("its build must have an operation to reverse; it has none")
        }
        _ => plain("it must reverse the newest open operation of its build; it reverses another"),
    }
}

// The first check that fails. It is `None` for the block that the host would allocate, since a history names its own.
fn failed_check(checks: &[Check]) -> Option<&Check> {
    for check in checks {
        if check.fails {
            return match check.refusal {
                Refusal::NoBlock(_) => None,
                _ => Some(check),
            };
        }
    }
    None
}

// Appends the words for an operation that the host does not apply: its command's failed check, or else the recorded
// value that does not fit.
fn push_act<S: PageStore>(
    alloc: Global,
    text: &mut String,
    host: &Host<S>,
    build: BuildId,
    act: &Act,
) -> Result<(), AllocError> {
    match command_of(host, build, act) {
        Some(cmd) => push_step(alloc, text, host, build, act, &Step::Ask(cmd)),
        None => Ok(()),
    }
}

// Appends the words for an operation that the step performs.
fn push_step<S: PageStore>(
    alloc: Global,
    text: &mut String,
    host: &Host<S>,
    build: BuildId,
    act: &Act,
    step: &Step,
) -> Result<(), AllocError> {
    let checks = step_checks(alloc, host, build, &PlanCursor::first(), step)?;
    match failed_check(&checks) {
        Some(check) => push_check(text, host, build, step, check),
        None => recorded_error(host, build, act).push(text),
    }
}

// The first of `granules` that the build does not lease.
fn first_foreign<S: PageStore>(host: &Host<S>, build: BuildId, granules: &[Gran]) -> Option<Gran> {
    for granule in granules {
        if page_of(host, build, *granule).is_none() {
            return Some(*granule);
        }
    }
    None
}

// The first granule that an operation names and that the build does not lease. A `take` is left out, since nobody
// leases its block yet.
fn foreign_granule<S: PageStore>(host: &Host<S>, build: BuildId, act: &Act) -> Option<Gran> {
    match act {
        Act::Fill { granule, .. }
        | Act::Peek { granule, .. }
        | Act::Delegate { granule }
        | Act::Rtt { granule, .. }
        | Act::Unknown { granule, .. } => first_foreign(host, build, &[*granule]),
        Act::Data {
            granule,
            source,
            ..
        } => first_foreign(host, build, &[*granule, *source]),
        Act::Realm { rd, root, .. } => first_foreign(host, build, &[*rd, root.first]),
        Act::Rec {
            granule,
            auxiliaries,
            ..
        } => {
            let first = first_foreign(host, build, &[*granule]);
            first.or(first_foreign(host, build, auxiliaries.as_slice()))
        }
        _ => None,
    }
}

// The error for a granule that the build does not lease, with the build that leases it, if any.
fn foreign_error<S: PageStore>(host: &Host<S>, build: BuildId, granule: Gran) -> Phrase {
    let (number, build) = (granule.number() as u64, build.number() as u64);
    match host.ledger().holder(granule) {
        Some(holder) => three(
            "granule {} must be leased by build {}; build {} leases it",
            number,
            build,
            holder.number() as u64,
        ),
        None => two(
            "granule {} must be leased by build {}; nobody leases it",
            number,
            build,
        ),
    }
}

// The page number that a build has for a granule. `foreign_granule` has found that the build leases the granule.
fn number_of<S: PageStore>(host: &Host<S>, build: BuildId, granule: Gran) -> u16 {
    page_of(host, build, granule).unwrap_or(0)
}

// The build's page numbers for the given granules, at most 16.
fn numbers_of<S: PageStore>(
    host: &Host<S>,
    build: BuildId,
    granules: &[Gran],
) -> ArrayVec<u16, 16> {
    let mut pages = ArrayVec::new();
    for granule in granules {
        if !pages.is_full() {
            pages.push(number_of(host, build, *granule));
        }
    }
    pages
}

// The command that performs an operation without a granule of its build, or `None` for any other operation.
fn own_command(act: &Act) -> Option<Cmd> {
    let cmd = match act {
        Act::Take { order, .. } => Cmd::Take {
            order: order.number(),
        },
        Act::Activate => Cmd::Activate,
        Act::Ripas { ipa, count } => Cmd::Ripas {
            ipa: ipa.number(),
            count: *count,
        },
        Act::Enter { number } => Cmd::Enter { number: *number },
        Act::Exit { number } => Cmd::Exit { number: *number },
        Act::Poke {
            number,
            ipa,
            offset,
            value,
        } => Cmd::Poke {
            number: *number,
            ipa: ipa.number(),
            offset: *offset,
            value: *value,
        },
        _ => return None,
    };
    Some(cmd)
}

// The command that performs an operation, with the build's page numbers, or `None` for a reverse.
fn command_of<S: PageStore>(host: &Host<S>, build: BuildId, act: &Act) -> Option<Cmd> {
    let cmd = match act {
        Act::Fill { granule, value } => Cmd::Fill {
            page: number_of(host, build, *granule),
            value: *value,
        },
        Act::Peek {
            granule,
            offset,
            ..
        } => Cmd::Peek {
            page: number_of(host, build, *granule),
            offset: *offset,
        },
        Act::Delegate { granule } => Cmd::Delegate {
            page: number_of(host, build, *granule),
        },
        Act::Realm { rd, root, .. } => Cmd::Realm {
            rd: number_of(host, build, *rd),
            root: number_of(host, build, root.first),
            width: root.width.number(),
        },
        Act::Rtt {
            granule,
            ipa,
            level,
        } => Cmd::Rtt {
            page: number_of(host, build, *granule),
            ipa: ipa.number(),
            level: level.number(),
        },
        Act::Data {
            granule,
            ipa,
            source,
        } => Cmd::Data {
            page: number_of(host, build, *granule),
            ipa: ipa.number(),
            source: number_of(host, build, *source),
        },
        Act::Unknown { granule, ipa } => Cmd::Unknown {
            page: number_of(host, build, *granule),
            ipa: ipa.number(),
        },
        Act::Rec {
            granule,
            auxiliaries,
            ..
        } => Cmd::Rec {
            page: number_of(host, build, *granule),
            auxiliaries: numbers_of(host, build, auxiliaries.as_slice()),
        },
        Act::Take { .. }
        | Act::Activate
        | Act::Ripas { .. }
        | Act::Enter { .. }
        | Act::Exit { .. }
        | Act::Poke { .. } => return own_command(act),
        Act::UnTake { .. }
        | Act::Undelegate { .. }
        | Act::UnRealm { .. }
        | Act::UnRtt { .. }
        | Act::UnData { .. }
        | Act::UnRec { .. } => return None,
    };
    Some(cmd)
}

// The error for a block that cannot be leased. The phrase is empty if the block can be leased.
fn block_error<S: PageStore>(host: &Host<S>, order: Order, first: Gran) -> Phrase {
    let (size, first) = (order.size(), first.number());
    if first % size != 0 {
        return three(
            "a block of {} granules must begin at a multiple of {}; granule {} is none",
            size as u64,
            size as u64,
            first as u64,
        );
    }
    for number in first..first.saturating_add(size) {
        if let Some(words) = unfree_error(host, number) {
            return words;
        }
    }
    plain("")
}

// The error for a granule that is not free, or `None` if it is free.
fn unfree_error<S: PageStore>(host: &Host<S>, number: u16) -> Option<Phrase> {
    let pages = host.pages();
    let Some(granule) = Gran::new(number, pages) else {
        return Some(two(
            "a block must lie within the machine's {} granules; granule {} does not",
            pages as u64,
            number as u64,
        ));
    };
    let holder = host.ledger().holder(granule)?;
    Some(two(
        "granule {} must be free; build {} leases it",
        number as u64,
        holder.number() as u64,
    ))
}

// The error for a recorded value that no check of a command reads: a block, a VMID, a REC number, or a byte. The phrase
// is empty if the operation has none.
fn recorded_error<S: PageStore>(host: &Host<S>, build: BuildId, act: &Act) -> Phrase {
    match act {
        Act::Take { order, first } => block_error(host, *order, *first),
        Act::Peek { offset, byte, .. } => two(
            "byte {} of the granule must be {}; it is another",
            offset.number() as u64,
            *byte as u64,
        ),
        Act::Realm { vmid, .. } => one(
            "VMID {} must be one of the machine's and free; it is not",
            vmid.number() as u64,
        ),
        Act::Rec { number, .. } => two(
            "the number of the REC must be {}; it is {}",
            next_rec(host, build) as u64,
            number.number() as u64,
        ),
        _ => plain(""),
    }
}
