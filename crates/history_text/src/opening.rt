//! The first line of a history: the size of its machine.
ghost use Rattle.std.specs.Prelude.{◌≡◌, ◌↔◌, true, IfSome, IfNone};
ghost use Rattle.decimal_text.specs.Ranges.{AreAtMost};
ghost use Rattle.history_text.specs.declared.opening.Opening.{Opening};
ghost use Rattle.history_text.specs.Histories.{opening_numbers, opening_maxima, HasEnough, IsOpeningText};

use decimal_text::{SpelledText, at_most, numbers_of};
use std::fmt;

/// The maximum of each number in the first line of a history. The order is that of the fields of `Opening`.
const MAXIMA: [u32; 5] = [4096, 255, 16, 16_384, 8];

/// The size of a machine, as the first line of a history gives it. The fields are the numbers of pages, of VMIDs, of
/// auxiliary granules of each REC, of entries in the room of each build, and of builds.
#[derive(Clone, Copy)]
pub struct Opening {
    pub pages: u16,
    pub vmids: u8,
    pub aux: u8,
    pub history: u16,
    pub builds: u8,
}

impl fmt::Display for Opening {
    ghost use Rattle.std.specs.Prelude.{Some};
    ghost use Rattle.history_text.specs.Histories.{opening_text};

    ghost output = { λ o. Some (opening_text o) };

    fn fmt<W: fmt::Write>(&self, f: &mut fmt::Formatter<W>) -> fmt::Result {
        let (pages, vmids, aux) = (self.pages as u32, self.vmids as u32, self.aux as u32);
        let numbers = [pages, vmids, aux, self.history as u32, self.builds as u32];
        fmt::Display::fmt(&SpelledText("history 1", &numbers), f)
    }
}

impl Opening {
    // The opening with these numbers.
    fn of(numbers: [u32; 5]) -> Opening
        requires { AreAtMost numbers opening_maxima }
        ensures { opening_numbers result ≡ numbers }
    {
        let [pages, vmids, aux, history, builds] = numbers;
        Opening {
            pages: pages as u16,
            vmids: vmids as u8,
            aux: aux as u8,
            history: history as u16,
            builds: builds as u8,
        }
    }

    // Whether each number is at least its minimum.
    fn has_enough(&self) -> bool
        ensures { (result ≡ true) ↔ HasEnough self.now }
    {
        self.pages >= 1 && self.vmids >= 1 && self.history >= 16 && self.builds >= 1
    }
}

/// Parses the first line of a history. The result is `None` if the line spells no opening with its numbers in range. A
/// machine has 1 to 4,096 pages, 1 to 255 VMIDs and up to 16 auxiliary granules of each REC. The room of each build is
/// 16 to 16,384 entries, and there are 1 to 8 builds. No memory is taken.
pub fn parse_opening(line: &[u8]) -> Option<Opening>
    // The opening that is returned has this text.
    ensures found { IfSome result (λ opening. IsOpeningText line.now opening) }
    // `None` is returned only if no opening has this text.
    ensures none { IfNone result ((opening : Opening) → IsOpeningText line.now opening → ⊥) }
{
    let Some(rest) = line.strip_prefix(b"history 1") else {
        return None;
    };
    let Ok(text) = str::from_utf8(rest) else {
        return None;
    };
    let numbers = numbers_of::<5>(text)?;
    let numbers = at_most(numbers.as_slice(), MAXIMA)?;
    let opening = Opening::of(numbers);
    if opening.has_enough() {
        Some(opening)
    } else {
        None
    }
}
