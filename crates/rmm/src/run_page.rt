//! Functions that read and write the run page of RMI_REC_ENTER. Registers are copied between a REC's page and its run
//! page, and exits are written to run pages.
ghost use Rattle.std.specs.Prelude.{◌≡◌, ◌+◌, ◌<◌, ◌≤◌, ◌⊎◌, length};
ghost use Rattle.rmi_abi.specs.RecRun.{only_reason};
ghost use Rattle.rmm_model.specs.Machine.{granule_count, page_in, with_page};
ghost use Rattle.rmm_model.specs.Table.{with_words_from};
ghost use Rattle.rmm_model.specs.Command.RecEnter as entering;

use crate::host::host_granule;
use granule_addr::Gran;
use page_arena::{PageStore, word_in};
use rmi_abi::{ExitReason, RecExit};
use rmm_granules::{Granules, refuses_gic};

// Copies `count` words from word `first` of one page to word `place` of another or the same page, without overlap.
fn copy_words<S: PageStore>(
    granules: &mut Granules<S>,
    from: Gran,
    first: u16,
    to: Gran,
    place: u16,
    count: u16,
)
    requires from { from < granule_count granules.old }
    requires to { to < granule_count granules.old }
    requires first { first + count ≤ 512 }
    requires place { place + count ≤ 512 }
    requires apart { (first + count ≤ place) ⊎ (place + count ≤ first) }
    ensures machine { granules.new ≡ entering.with_copied granules.old from first to place count }
    ensures count { granule_count granules.new ≡ granule_count granules.old }
{
    for k in 0..count {
        let word = word_in(granules.page(from), (first + k) as usize);
        granules.set_word(to, place + k, word);
    }
}

// Copies the host's values of the general-purpose registers from a run page to its REC.
pub fn copy_gprs<S: PageStore>(granules: &mut Granules<S>, g: Gran, run: Gran)
    requires inside { g < granule_count granules.old }
    requires run { run < granule_count granules.old }
    ensures machine { granules.new ≡ entering.with_gprs granules.old g run }
    ensures count { granule_count granules.new ≡ granule_count granules.old }
{
    copy_words(granules, run, 64, g, 0, 31);
}

// ---- GIC fields

// Copies the GIC fields of a run page to its REC, if the settings check such fields.
#[tactic(auto, unfolding(rmm_model::specs::Command::RecEnter::with_gic))]
pub fn copy_gic<S: PageStore>(granules: &mut Granules<S>, g: Gran, run: Gran)
    requires inside { g < granule_count granules.old }
    requires run { run < granule_count granules.old }
    ensures machine { granules.new ≡ entering.with_gic granules.old g run }
    ensures count { granule_count granules.new ≡ granule_count granules.old }
{
    if granules.settings().checks_gic {
        copy_words(granules, run, 96, g, 192, 17);
    }
}

// Copies the GIC fields of a REC to its run page, if the settings check such fields.
#[tactic(auto, unfolding(rmm_model::specs::Command::RecEnter::with_exit_gic))]
fn write_gic<S: PageStore>(granules: &mut Granules<S>, g: Gran, run: Gran)
    requires inside { g < granule_count granules.old }
    requires run { run < granule_count granules.old }
    ensures machine { granules.new ≡ entering.with_exit_gic granules.old g run }
    ensures count { granule_count granules.new ≡ granule_count granules.old }
{
    if granules.settings().checks_gic {
        copy_words(granules, g, 192, run, 352, 17);
    }
}

// Whether the settings check the GIC fields of a run page, and one of them has a value that a host may not set.
pub fn is_gic_wrong<S: PageStore>(granules: &Granules<S>, run: Gran) -> bool
    requires { run < granule_count granules.now }
    ensures { result ≡ entering.is_gic_wrong granules.now.settings (page_in granules.now run) }
{
    refuses_gic(granules.settings(), granules.page(run))
}

// ---- exits

// Zeros the upper half of a page.
fn clear_exit<S: PageStore>(granules: &mut Granules<S>, page: Gran)
    requires { page < granule_count granules.old }
    ensures cleared { granules.new
        ≡ with_page granules.old page (with_words_from 256 256 (λ i. 0) (page_in granules.old page)) }
    ensures inside { page < length granules.old.pages }
    ensures whole { length (page_in granules.old page) ≡ 4096 }
    ensures count { granule_count granules.new ≡ granule_count granules.old }
{
    granules.write(page, 2048, &[0; 2048]);
}

// Writes an exit into the upper half of a page. Words there that are no field of it are zero.
fn write_exit<S: PageStore>(granules: &mut Granules<S>, page: Gran, exit: &RecExit)
    requires { page < granule_count granules.old }
    ensures machine { granules.new ≡ entering.with_exit_words granules.old page exit.now }
    ensures count { granule_count granules.new ≡ granule_count granules.old }
{
    clear_exit(granules, page);
    granules.set_word(page, 448, exit.imm);
    granules.set_word(page, 418, exit.ripas);
    granules.set_word(page, 417, exit.ripas_top);
    granules.set_word(page, 416, exit.ripas_base);
    granules.set_word(page, 323, exit.gpr3);
    granules.set_word(page, 322, exit.gpr2);
    granules.set_word(page, 321, exit.gpr1);
    granules.set_word(page, 320, exit.gpr0);
    granules.set_word(page, 290, exit.hpfar);
    granules.set_word(page, 289, exit.far);
    granules.set_word(page, 288, exit.esr);
    granules.set_word(page, 256, exit.reason.code());
}

// Writes an exit into the upper half of a page. It has a reason, and its other fields are zero.
fn write_reason<S: PageStore>(granules: &mut Granules<S>, page: Gran, reason: ExitReason)
    requires { page < granule_count granules.old }
    ensures machine { granules.new ≡ entering.with_exit_words granules.old page (only_reason reason) }
    ensures count { granule_count granules.new ≡ granule_count granules.old }
{
    clear_exit(granules, page);
    granules.set_word(page, 256, reason.code());
}

// Writes an exit of a REC into the run page at an address, if the run page is a page of the host.
pub fn write_run<S: PageStore>(granules: &mut Granules<S>, g: Gran, run: u64, exit: &RecExit)
    requires { g < granule_count granules.old }
    ensures machine { granules.new ≡ entering.with_exit granules.old g run exit.now }
    ensures count { granule_count granules.new ≡ granule_count granules.old }
{
    if let Some(page) = host_granule(granules, run) {
        write_exit(granules, page, exit);
        write_gic(granules, g, page);
    }
}

// Writes an exit of a REC into the run page at an address, if the run page is a page of the host. The exit has a reason
// and no other field.
pub fn write_run_reason<S: PageStore>(
    granules: &mut Granules<S>,
    g: Gran,
    run: u64,
    reason: ExitReason,
)
    requires { g < granule_count granules.old }
    ensures machine { granules.new ≡ entering.with_exit granules.old g run (only_reason reason) }
    ensures count { granule_count granules.new ≡ granule_count granules.old }
{
    if let Some(page) = host_granule(granules, run) {
        write_reason(granules, page, reason);
        write_gic(granules, g, page);
    }
}
