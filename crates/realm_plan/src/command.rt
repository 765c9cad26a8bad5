//! Converts a word and numbers to the plan step that they mean.
ghost use Rattle.std.specs.Prelude.{◌≡◌, codes};
ghost use Rattle.decimal_text.specs.Rows.{none, one};
ghost use Rattle.decimal_text.specs.Written.{u16};
ghost use Rattle.realm_plan.specs.declared.step.PlanStep.TheVariants.{Whole};
ghost use Rattle.realm_plan.specs.Steps.{page_step_at, short_realm_at, whole_realm_at, realm_of_numbers, realm_step_at, table_step_at, rec_of_numbers, rec_step_at, way_back_step_at, step_at};

use crate::operands::{MOST_PAGE, Offset, Page};
use crate::step::PlanStep;
use decimal_text::{
    Operand, four_operands, made_of, one_operand, three_operands, two_operands, up_to,
};
use granule_addr::RecNo;
use host_commands::{Cmd, Step};

/// The maximum number of auxiliary pages of a REC.
const MOST_AUXILIARIES: usize = 16;

// The step that asks the host for a command.
macro_rules! ask {
    ($kind:ident { $($field:tt)* }) => {
        PlanStep::Whole(Step::Ask(Cmd::$kind { $($field)* }))
    };
}

fn take(numbers: &[u32]) -> Option<PlanStep>
    ensures { result ≡ page_step_at (codes "take") numbers.now }
{
    made_of!(one_operand(numbers), order => ask!(Take { order }))
}

fn fill(numbers: &[u32]) -> Option<PlanStep>
    ensures { result ≡ page_step_at (codes "fill") numbers.now }
{
    made_of!(two_operands(numbers), (Page(page), value) => ask!(Fill { page, value }))
}

fn peek(numbers: &[u32]) -> Option<PlanStep>
    ensures { result ≡ page_step_at (codes "peek") numbers.now }
{
    made_of!(two_operands(numbers), (Page(page), Offset(offset)) => ask!(Peek { page, offset }))
}

fn delegate(numbers: &[u32]) -> Option<PlanStep>
    ensures { result ≡ page_step_at (codes "delegate") numbers.now }
{
    made_of!(one_operand(numbers), Page(page) => ask!(Delegate { page }))
}

fn page_step(word: &str, numbers: &[u32]) -> Option<PlanStep>
    ensures { result ≡ page_step_at word.now numbers.now }
{
    match word {
        "take" => take(numbers),
        "fill" => fill(numbers),
        "peek" => peek(numbers),
        "delegate" => delegate(numbers),
        _ => None,
    }
}

// The step `realm` without a width.
fn short_realm(numbers: &[u32]) -> Option<PlanStep>
    ensures { result ≡ short_realm_at numbers.now }
{
    made_of!(two_operands(numbers), (Page(rd), Page(root)) => PlanStep::WidthLeftOut { rd, root })
}

fn whole_realm(numbers: &[u32]) -> Option<PlanStep>
    ensures { result ≡ whole_realm_at numbers.now }
{
    made_of!(three_operands(numbers), (Page(rd), Page(root), width) => ask!(Realm { rd, root, width }))
}

fn realm(numbers: &[u32]) -> Option<PlanStep>
    ensures { result ≡ realm_of_numbers numbers.now }
{
    if let Some(step) = short_realm(numbers) {
        return Some(step);
    }
    whole_realm(numbers)
}

fn realm_step(word: &str, numbers: &[u32]) -> Option<PlanStep>
    ensures { result ≡ realm_step_at word.now numbers.now }
{
    match word {
        "realm" => realm(numbers),
        "activate" => word_alone(Step::Ask(Cmd::Activate), numbers),
        _ => None,
    }
}

fn rtt(numbers: &[u32]) -> Option<PlanStep>
    ensures { result ≡ table_step_at (codes "rtt") numbers.now }
{
    made_of!(three_operands(numbers), (Page(page), ipa, level) => ask!(Rtt { page, ipa, level }))
}

fn ripas(numbers: &[u32]) -> Option<PlanStep>
    ensures { result ≡ table_step_at (codes "ripas") numbers.now }
{
    made_of!(two_operands(numbers), (ipa, count) => ask!(Ripas { ipa, count }))
}

fn data(numbers: &[u32]) -> Option<PlanStep>
    ensures { result ≡ table_step_at (codes "data") numbers.now }
{
    made_of!(three_operands(numbers), (Page(page), ipa, Page(source)) => ask!(Data { page, ipa, source }))
}

fn unknown(numbers: &[u32]) -> Option<PlanStep>
    ensures { result ≡ table_step_at (codes "unknown") numbers.now }
{
    made_of!(two_operands(numbers), (Page(page), ipa) => ask!(Unknown { page, ipa }))
}

fn table_step(word: &str, numbers: &[u32]) -> Option<PlanStep>
    ensures { result ≡ table_step_at word.now numbers.now }
{
    match word {
        "rtt" => rtt(numbers),
        "ripas" => ripas(numbers),
        "data" => data(numbers),
        "unknown" => unknown(numbers),
        _ => None,
    }
}

// The step `rec`: the page of a REC, and the REC's auxiliary pages.
fn rec(numbers: &[u32]) -> Option<PlanStep>
    ensures { result ≡ rec_of_numbers numbers.now }
{
    let [page, more @ ..] = numbers else {
        return None;
    };
    let Page(page) = Page::from_number(*page)?;
    let auxiliaries = up_to::<MOST_AUXILIARIES>(more, MOST_PAGE)?;
    Some(ask!(Rec { page, auxiliaries }))
}

fn rec_number(numbers: &[u32]) -> Option<RecNo>
    ensures { result ≡ one u16 (λ number. number) numbers.now }
{
    made_of!(one_operand(numbers), number => RecNo::new(number))
}

fn poke(numbers: &[u32]) -> Option<PlanStep>
    ensures { result ≡ rec_step_at (codes "poke") numbers.now }
{
    made_of!(four_operands(numbers), (number, ipa, Offset(offset), value) => ask!(Poke {
        number: RecNo::new(number),
        ipa,
        offset,
        value,
    }))
}

fn rec_step(word: &str, numbers: &[u32]) -> Option<PlanStep>
    ensures { result ≡ rec_step_at word.now numbers.now }
{
    match word {
        "rec" => rec(numbers),
        "enter" => made_of!(rec_number(numbers), number => ask!(Enter { number })),
        "exit" => made_of!(rec_number(numbers), number => ask!(Exit { number })),
        "poke" => poke(numbers),
        _ => None,
    }
}

// The step, if no numbers follow its word.
fn word_alone(step: Step, numbers: &[u32]) -> Option<PlanStep>
    ensures { result ≡ none (Whole step) numbers.now }
{
    match numbers {
        [] => Some(PlanStep::Whole(step)),
        _ => None,
    }
}

fn way_back_step(word: &str, numbers: &[u32]) -> Option<PlanStep>
    ensures { result ≡ way_back_step_at word.now numbers.now }
{
    match word {
        "undo" => word_alone(Step::Undo, numbers),
        "abort" => word_alone(Step::Abort, numbers),
        "mark" => word_alone(Step::Mark, numbers),
        "back" => word_alone(Step::Back, numbers),
        _ => None,
    }
}

/// Returns the plan step that consists of the given word and operands. Returns `None` if there is no such step.
pub fn step(word: &str, numbers: &[u32]) -> Option<PlanStep>
    ensures { result ≡ step_at word.now numbers.now }
{
    if let Some(step) = page_step(word, numbers) {
        return Some(step);
    }
    if let Some(step) = realm_step(word, numbers) {
        return Some(step);
    }
    if let Some(step) = table_step(word, numbers) {
        return Some(step);
    }
    if let Some(step) = rec_step(word, numbers) {
        return Some(step);
    }
    way_back_step(word, numbers)
}
