//! The printed texts of a host's replies and refusals, and of the kinds of undone operations.
ghost use Rattle.std.specs.Prelude.{◌≡◌};
ghost use Rattle.realm_plan.specs.Answers.{kind_word, refusal_name, refusal_numbers, reply_numbers};

use crate::operands::{MOST_NUMBERS, one, two};
use arrayvec::ArrayVec;
use decimal_text::SpelledText;
use host_commands::{Refusal, Reply};
use realm_model::Kind;
use std::fmt;

/// The printed word for the kind of an undone operation, such as `take` or `rtt`.
#[derive(Clone, Copy)]
pub struct KindWord(pub Kind);

/// The printed text of a host's refusal of a step: the number and the name of the refusal, and the numbers that the
/// refusal carries.
#[derive(Clone, Copy)]
pub struct RefusalText(pub Refusal);

/// The printed text of a host's reply to an accepted command.
#[derive(Clone, Copy)]
pub struct ReplyText(pub Reply);

impl fmt::Display for KindWord {
    ghost use Rattle.std.specs.Prelude.{Some};
    ghost use Rattle.realm_plan.specs.Answers.{kind_word};

    ghost output = { λ k. Some (kind_word k.0) };

    fn fmt<W: fmt::Write>(&self, f: &mut fmt::Formatter<W>) -> fmt::Result {
        f.write_str(kind_word(self.0))
    }
}

impl fmt::Display for RefusalText {
    ghost use Rattle.std.specs.Prelude.{Some};
    ghost use Rattle.realm_plan.specs.Answers.{refusal_text};

    ghost output = { λ r. Some (refusal_text r.0) };

    fn fmt<W: fmt::Write>(&self, f: &mut fmt::Formatter<W>) -> fmt::Result {
        let numbers = refusal_numbers(self.0);
        fmt::Display::fmt(&SpelledText(refusal_name(self.0), numbers.as_slice()), f)
    }
}

impl fmt::Display for ReplyText {
    ghost use Rattle.std.specs.Prelude.{Some};
    ghost use Rattle.realm_plan.specs.Answers.{reply_text};

    ghost output = { λ r. Some (reply_text r.0) };

    fn fmt<W: fmt::Write>(&self, f: &mut fmt::Formatter<W>) -> fmt::Result {
        let numbers = reply_numbers(self.0);
        fmt::Display::fmt(&SpelledText("ok", numbers.as_slice()), f)
    }
}

fn kind_word(kind: Kind) -> &'static str
    ensures { result.now ≡ kind_word kind }
{
    match kind {
        Kind::Take => "take",
        Kind::Delegate => "delegate",
        Kind::Realm => "realm",
        Kind::Rtt => "rtt",
        Kind::Data => "data",
        Kind::Unknown => "unknown",
        Kind::Rec => "rec",
    }
}

// The number and the name of a refusal.
fn refusal_name(refusal: Refusal) -> &'static str
    ensures { result.now ≡ refusal_name refusal }
{
    match refusal {
        Refusal::NoBuild => "1 NoBuild",
        Refusal::Aborting => "2 Aborting",
        Refusal::BadOrder => "3 BadOrder",
        Refusal::NotLeased(_) => "4 NotLeased",
        Refusal::RealmThere => "5 RealmThere",
        Refusal::NoRealm => "6 NoRealm",
        Refusal::NothingToUndo => "7 NothingToUndo",
        Refusal::RecRunning => "8 RecRunning",
        Refusal::JournalFull => "9 JournalFull",
        Refusal::HistoryFull => "10 HistoryFull",
        Refusal::NoBlock(_) => "11 NoBlock",
        Refusal::NoVmid => "12 NoVmid",
        Refusal::Rmi(_) => "13 Rmi",
    }
}

// The numbers that a refusal carries: a page, a block order, or the two numbers of an RMI result.
fn refusal_numbers(refusal: Refusal) -> ArrayVec<u32, MOST_NUMBERS>
    ensures { result.items ≡ refusal_numbers refusal }
{
    match refusal {
        Refusal::NotLeased(page) => one(page as u32),
        Refusal::NoBlock(order) => one(order.number() as u32),
        Refusal::Rmi(rmi) => two(rmi.status.code() as u32, rmi.index as u32),
        _ => ArrayVec::new(),
    }
}

// The number that a reply carries, if any: a page, a byte, a VMID or a REC's number.
fn reply_numbers(reply: Reply) -> ArrayVec<u32, MOST_NUMBERS>
    ensures { result.items ≡ reply_numbers reply }
{
    match reply {
        Reply::Done => ArrayVec::new(),
        Reply::FirstPage(page) => one(page as u32),
        Reply::Byte(byte) => one(byte as u32),
        Reply::Vmid(vmid) => one(vmid.number() as u32),
        Reply::Number(number) => one(number.number() as u32),
    }
}
