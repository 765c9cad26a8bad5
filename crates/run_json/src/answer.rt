//! The host's answers to builds' turns, as lists of numbers.
ghost use Rattle.std.specs.Prelude.{◌≡◌, [], ◌∷◌};
ghost use Rattle.realm_plan.specs.Answers.{reply_numbers, refusal_numbers};
ghost use Rattle.run_json.specs.Answers.{refusal_number, answer_numbers, is_accepted_answer};

use arrayvec::ArrayVec;
use host_commands::{Refusal, Reply};
use plan_replay::TurnAnswer;

/// The greatest length of an answer's list of numbers. It is the length for a refusal by the RMM.
const MOST_NUMBERS: usize = 3;

fn reply_numbers(reply: Reply) -> ArrayVec<u32, MOST_NUMBERS>
    ensures { result.items ≡ reply_numbers reply }
{
    let mut numbers = ArrayVec::new();
    match reply {
        Reply::Done => {}
        Reply::FirstPage(page) => numbers.push(page as u32),
        Reply::Byte(byte) => numbers.push(byte as u32),
        Reply::Vmid(vmid) => numbers.push(vmid.number() as u32),
        Reply::Number(number) => numbers.push(number.number() as u32),
    }
    numbers
}

fn refusal_number(refusal: Refusal) -> u32
    ensures { result ≡ refusal_number refusal }
{
    match refusal {
        Refusal::NoBuild => 1,
        Refusal::Aborting => 2,
        Refusal::BadOrder => 3,
        Refusal::NotLeased(_) => 4,
        Refusal::RealmThere => 5,
        Refusal::NoRealm => 6,
        Refusal::NothingToUndo => 7,
        Refusal::RecRunning => 8,
        Refusal::JournalFull => 9,
        Refusal::HistoryFull => 10,
        Refusal::NoBlock(_) => 11,
        Refusal::NoVmid => 12,
        Refusal::Rmi(_) => 13,
    }
}

// The number of a refusal, followed by the numbers of the page, block order or RMI status that it names.
fn numbers_of_refusal(refusal: Refusal) -> ArrayVec<u32, MOST_NUMBERS>
    ensures { result.items ≡ refusal_number refusal ∷ refusal_numbers refusal }
{
    let mut numbers = ArrayVec::new();
    numbers.push(refusal_number(refusal));
    match &refusal {
        Refusal::NotLeased(page) => numbers.push(*page as u32),
        Refusal::NoBlock(order) => numbers.push(order.number() as u32),
        Refusal::Rmi(rmi) => {
            numbers.push(rmi.status.code() as u32);
            numbers.push(rmi.index as u32);
        }
        _ => {}
    }
    numbers
}

/// Converts the host's answer to a turn into a list of numbers. The first number of a refusal is that of the refusal's
/// kind.
pub fn numbers_of(answer: &TurnAnswer) -> ArrayVec<u32, MOST_NUMBERS>
    ensures { result.items ≡ answer_numbers answer.now }
{
    match *answer {
        TurnAnswer::Replied(reply) => reply_numbers(reply),
        TurnAnswer::Refused(refusal) => numbers_of_refusal(refusal),
        TurnAnswer::Marked(length) => {
            let mut numbers = ArrayVec::new();
            numbers.push(length as u32);
            numbers
        }
        TurnAnswer::Undone(_) | TurnAnswer::Ended(_) | TurnAnswer::Nothing => ArrayVec::new(),
    }
}

/// Returns whether the host's answer to a turn is not a refusal.
pub fn is_accepted_answer(answer: &TurnAnswer) -> bool
    ensures { result ≡ is_accepted_answer answer.now }
{
    !matches!(answer, TurnAnswer::Refused(_))
}
