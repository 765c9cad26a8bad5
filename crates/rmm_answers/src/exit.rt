//! Functions that append a REC exit to a trace's answer. The exit is read in the run page, as the host reads it.
ghost use Rattle.std.specs.Prelude.{◌≡◌, ◌+◌, ◌<◌, ◌≤◌, length};
ghost use Rattle.rmm_answers.specs.Exit as exits;

use crate::place::{BASE, ESR, FAR, HPFAR, IMM, TOP};
use crate::put::{put, put_output, put_value};
use page_arena::PageStore;
use rmm::Rmm;
use rmm_trace::place::{EXIT, GPRS, RIPAS_OUTPUT};
use rmm_trace::{Atom, Sentence};

// The RmiRecExit field at an offset of a run page; 0 if the page is not the host's.
fn field<S: PageStore>(rmm: &Rmm<S>, run: u64, offset: u64) -> u64
    ensures { result ≡ exits.field rmm.now run offset }
{
    rmm.load(run.wrapping_add(offset)).unwrap_or(0)
}

// Appends a field of an exit, with its name.
#[tactic(auto, unfolding(crate::specs::Exit::put_field))]
fn put_field<S: PageStore>(answer: &mut Sentence, rmm: &Rmm<S>, run: u64, name: usize, offset: u64)
    requires { length answer.old.items ≤ 62 }
    ensures items { answer.new.items ≡ exits.put_field rmm.now run name offset answer.old.items }
    ensures len { length answer.new.items ≡ length answer.old.items + 2 }
{
    put_output(answer, name, field(rmm, run, offset));
}

// Appends a general-purpose register, if it is to be shown.
#[tactic(auto, unfolding(crate::specs::Exit::put_gpr))]
fn put_gpr(answer: &mut Sentence, is_shown: bool, value: u64)
    requires { length answer.old.items < 64 }
    ensures items { answer.new.items ≡ exits.put_gpr is_shown value answer.old.items }
    ensures len { length answer.new.items ≤ length answer.old.items + 1 }
{
    if is_shown {
        put(answer, Atom::Hexadecimal(value));
    }
}

// Whether one of three numbers is not 0.
fn is_some_set(a: u64, b: u64, c: u64) -> bool
    ensures { result ≡ exits.is_some_set a b c }
{
    a != 0 || b != 0 || c != 0
}

// Appends general-purpose registers 0 to 3 of an exit, without trailing zeros, but at least register 0. No exit of this
// RMM has others.
#[tactic(auto, unfolding(crate::specs::Exit::put_gprs))]
fn put_gprs(answer: &mut Sentence, gpr0: u64, gpr1: u64, gpr2: u64, gpr3: u64)
    requires { length answer.old.items ≤ 59 }
    ensures items { answer.new.items ≡ exits.put_gprs gpr0 gpr1 gpr2 gpr3 answer.old.items }
    ensures len { length answer.new.items ≤ length answer.old.items + 5 }
{
    put_value(answer, GPRS, Atom::Hexadecimal(gpr0));
    put_gpr(answer, is_some_set(gpr1, gpr2, gpr3), gpr1);
    put_gpr(answer, is_some_set(0, gpr2, gpr3), gpr2);
    put_gpr(answer, is_some_set(0, 0, gpr3), gpr3);
}

// Appends the general-purpose registers of an exit.
#[tactic(auto, unfolding(crate::specs::Exit::put_gprs_in))]
fn put_gprs_in<S: PageStore>(answer: &mut Sentence, rmm: &Rmm<S>, run: u64)
    requires { length answer.old.items ≤ 59 }
    ensures items { answer.new.items ≡ exits.put_gprs_in rmm.now run answer.old.items }
    ensures len { length answer.new.items ≤ length answer.old.items + 5 }
{
    let gpr0 = field(rmm, run, 0xA00);
    let gpr1 = field(rmm, run, 0xA08);
    let gpr2 = field(rmm, run, 0xA10);
    let gpr3 = field(rmm, run, 0xA18);
    put_gprs(answer, gpr0, gpr1, gpr2, gpr3);
}

// Appends the fields of an exit that belong to the exit's reason.
#[tactic(auto, unfolding(crate::specs::Exit::put_fields))]
fn put_fields<S: PageStore>(answer: &mut Sentence, rmm: &Rmm<S>, run: u64, reason: u64)
    requires { length answer.old.items ≤ 53 }
    ensures items { answer.new.items ≡ exits.put_fields rmm.now run reason answer.old.items }
    ensures len { length answer.new.items ≤ length answer.old.items + 11 }
{
    match reason {
        0 => {
            put_field(answer, rmm, run, ESR, 0x900);
            put_field(answer, rmm, run, FAR, 0x908);
            put_field(answer, rmm, run, HPFAR, 0x910);
            put_gprs_in(answer, rmm, run);
        }
        3 => put_gprs_in(answer, rmm, run),
        4 => {
            put_field(answer, rmm, run, BASE, 0xD00);
            put_field(answer, rmm, run, TOP, 0xD08);
            put_field(answer, rmm, run, RIPAS_OUTPUT, 0xD10);
        }
        5 => {
            put_field(answer, rmm, run, IMM, 0xE00);
            put_gprs_in(answer, rmm, run);
        }
        _ => {}
    }
}

// Appends the exit of a REC, read from the run page at an address.
#[tactic(auto, unfolding(crate::specs::Exit::put_exit, crate::specs::Exit::put_field))]
pub(crate) fn put_exit<S: PageStore>(answer: &mut Sentence, rmm: &Rmm<S>, run: u64)
    requires { length answer.old.items ≤ 51 }
    ensures items { answer.new.items ≡ exits.put_exit rmm.now run answer.old.items }
    ensures len { length answer.new.items ≤ length answer.old.items + 13 }
{
    let reason = field(rmm, run, 0x800);
    put_output(answer, EXIT, reason);
    put_fields(answer, rmm, run, reason);
}
