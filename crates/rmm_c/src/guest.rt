//! Functions that queue steps for the guests of RECs, end the guests' runs, and read the results of steps.
ghost use Rattle.std.specs.Prelude.{◌≡◌, option_map};
ghost use Rattle.rmm_c.specs.Guest.{words_of, queued_code, on_guest, result_shown, interrupt_word, after_interrupt};
ghost use Rattle.rmm_c.specs.Reading.{Reads};

use crate::reading::report;
use crate::{PlainRmm, RmmHandle};
use rmm_model::{Queued, StepWords};
use std::alloc::Global;

/// A step of a REC's simulated guest: its kind and its operands.
#[repr(C)]
#[derive(Drop)]
pub struct RawStep {
    pub kind: u64,
    pub a: u64,
    pub b: u64,
    pub c: u64,
    pub d: u64,
}

/// The result of a guest's step: a kind, and a value that is 0 if the kind has none.
#[repr(C)]
#[derive(Drop)]
pub struct GuestStepResult {
    pub kind: u64,
    pub value: u64,
}

impl RawStep {
    // The step in the RMM's form.
    fn words(&self) -> StepWords
        ensures { result ≡ words_of self.now }
    {
        StepWords {
            kind: self.kind,
            a: self.a,
            b: self.b,
            c: self.c,
            d: self.d,
        }
    }
}

// The return value of `rmm_guest` if no REC is at the address.
const NO_REC: u64 = 2;

// The return value of `rmm_guest` for the answer to a step.
fn code(queued: Queued) -> u64
    ensures { result ≡ queued_code queued }
{
    match queued {
        Queued::Queued => 0,
        Queued::Full => 1,
        Queued::NoRec => NO_REC,
    }
}

/// Queues a step for the guest of a REC. Returns 0 on success, 1 if the guest has 16 steps already, and 2 if no REC is
/// at the address. Unless 0 is returned, nothing changes.
#[unsafe(no_mangle)]
pub extern "C" fn rmm_guest(alloc: Global, handle: &mut RmmHandle, rec: u64, step: &RawStep) -> u64
    ensures { (result, handle.new.held.machine) ≡ on_guest rec step.now handle.old.held.machine }
{
    let words = step.words();
    let Some(mut plain) = handle.take(alloc) else {
        return NO_REC;
    };
    let queued = plain.rmm.guest(rec, &words);
    handle.give(plain);
    code(queued)
}

// Ends the run of a REC, and returns the result word of the REC's entry; `None` if the REC is not running.
fn interrupt(plain: &mut PlainRmm, rec: u64) -> Option<u64>
    ensures word { result ≡ interrupt_word rec plain.old }
    ensures machine { plain.new ≡ after_interrupt rec plain.old }
{
    let word = plain.rmm.interrupt(rec)?;
    Some(word.number())
}

/// Interrupts a running REC, and writes the result word of its RMI_REC_ENTER to `word`. Returns false, and changes
/// nothing, if the REC is not running.
#[unsafe(no_mangle)]
pub extern "C" fn rmm_interrupt(
    alloc: Global,
    handle: &mut RmmHandle,
    rec: u64,
    word: &mut u64,
) -> bool
    ensures answer { Reads (interrupt_word rec) handle.old.held.machine word.old result word.new }
    ensures machine { handle.new.held.machine ≡ option_map (after_interrupt rec) handle.old.held.machine }
{
    let Some(mut plain) = handle.take(alloc) else {
        return false;
    };
    let found = interrupt(&mut plain, rec);
    handle.give(plain);
    report(found, word)
}

// Result `number` of the guest's results since the last entry of its REC.
fn result_of(plain: &PlainRmm, rec: u64, number: u64) -> Option<GuestStepResult>
    ensures { result ≡ result_shown rec number plain.now }
{
    let attributes = plain.rmm.state(rec)?.rec()?;
    if number >= 32 || number >= u64::from(attributes.result_count) {
        return None;
    }
    let first = 128 + 2 * number as u16;
    Some(GuestStepResult {
        kind: plain.rmm.word(rec, first)?,
        value: plain.rmm.word(rec, first + 1)?,
    })
}

/// Writes the result of a guest's step to `outcome`. `number` counts the results from 0 since the last entry of the
/// guest's REC. Returns false, and writes nothing, if there is no such result.
#[unsafe(no_mangle)]
pub extern "C" fn rmm_result(
    alloc: Global,
    handle: &mut RmmHandle,
    rec: u64,
    number: u64,
    outcome: &mut GuestStepResult,
) -> bool
    ensures read { Reads (result_shown rec number) handle.old.held.machine outcome.old result outcome.new }
    ensures same { handle.new.held.machine ≡ handle.old.held.machine }
{
    let Some(plain) = handle.take(alloc) else {
        return false;
    };
    let found = result_of(&plain, rec, number);
    handle.give(plain);
    report(found, outcome)
}
