//! The C struct for a build's commands.
ghost use Rattle.std.specs.Prelude.{◌≡◌, ◌≤◌, true, take};
ghost use Rattle.rhm_c.specs.Command as commands;

use crate::answer::NO_BUILD;
use arrayvec::ArrayVec;
use granule_addr::{BuildId, PageOff, RecNo};
use host_commands::Cmd;

/// A build's command, with its kind and its operands. An operand that the kind does not use has to be in its range,
/// too, unless it is in `aux`.
#[repr(C)]
#[derive(Drop)]
pub struct RawCommand {
    pub kind: u64,
    pub order: u64,
    pub page: u64,
    pub second: u64,
    pub ipa: u64,
    pub level: u64,
    pub count: u64,
    pub width: u64,
    pub rec: u64,
    pub offset: u64,
    pub value: u64,
    pub run: u64,
    pub aux_count: u64,
    pub aux: [u64; 16],
}

impl RawCommand {
    // Whether each operand but the auxiliaries is in its range.
    fn fits(&self) -> bool
        ensures { result ≡ commands.operands_fit self.now }
    {
        self.order <= 0xFF
            && self.page <= 0xFFFF
            && self.second <= 0xFFFF
            && self.ipa <= 0xFFFF_FFFF
            && self.level <= 0xFF
            && self.count <= 0xFFFF
            && self.width <= 0xFF
            && self.rec <= 0xFFFF
            && self.offset < 4_096
            && self.value <= 0xFF
            && self.run < 64
            && self.aux_count <= 16
    }

    // The auxiliary pages of a REC; `None` if one has a number above 65,535.
    fn auxiliaries(&self) -> Option<ArrayVec<u16, 16>>
        requires { self.now.aux_count ≤ 16 }
        ensures { result ≡ commands.auxiliaries_in (take self.now.aux_count self.now.aux) }
    {
        let mut pages = ArrayVec::new();
        'pages: for place in 0..self.aux_count as usize {
            let page = self.aux[place];
            if page > 0xFFFF {
                return None;
            }
            pages.push(page as u16);
        }
        Some(pages)
    }

    // The offset in a page.
    fn page_offset(&self) -> PageOff
        requires { commands.operands_fit self.now ≡ true }
        ensures { result ≡ self.now.offset }
    {
        PageOff::new(self.offset as u16).unwrap()
    }

    // The number of a REC.
    fn rec_number(&self) -> RecNo
        requires { commands.operands_fit self.now ≡ true }
        ensures { result ≡ self.now.rec }
    {
        RecNo::new(self.rec as u16)
    }

    // The command of a kind from 0 (Take) to 5 (Rtt); `None` for any other kind.
    fn command_of_kinds_0_to_5(&self) -> Option<Cmd>
        requires { commands.operands_fit self.now ≡ true }
        ensures { result ≡ commands.command_of_kinds_0_to_5 self.now }
    {
        match self.kind {
            0 => Some(Cmd::Take {
                order: self.order as u8,
            }),
            1 => Some(Cmd::Fill {
                page: self.page as u16,
                value: self.value as u8,
            }),
            2 => Some(Cmd::Peek {
                page: self.page as u16,
                offset: self.page_offset(),
            }),
            3 => Some(Cmd::Delegate {
                page: self.page as u16,
            }),
            4 => Some(Cmd::Realm {
                rd: self.page as u16,
                root: self.second as u16,
                width: self.width as u8,
            }),
            5 => Some(Cmd::Rtt {
                page: self.page as u16,
                ipa: self.ipa as u32,
                level: self.level as u8,
            }),
            _ => None,
        }
    }

    // The command of a kind from 6 (Ripas) to 9 (Rec); `None` for any other kind, or without valid auxiliaries.
    fn command_of_kinds_6_to_9(&self) -> Option<Cmd>
        requires { commands.operands_fit self.now ≡ true }
        ensures { result ≡ commands.command_of_kinds_6_to_9 self.now }
    {
        match self.kind {
            6 => Some(Cmd::Ripas {
                ipa: self.ipa as u32,
                count: self.count as u16,
            }),
            7 => Some(Cmd::Data {
                page: self.page as u16,
                ipa: self.ipa as u32,
                source: self.second as u16,
            }),
            8 => Some(Cmd::Unknown {
                page: self.page as u16,
                ipa: self.ipa as u32,
            }),
            9 => Some(Cmd::Rec {
                page: self.page as u16,
                auxiliaries: self.auxiliaries()?,
            }),
            _ => None,
        }
    }

    // The command of a kind from 10 (Activate) to 13 (Poke); `None` for any other kind.
    fn command_of_kinds_10_to_13(&self) -> Option<Cmd>
        requires { commands.operands_fit self.now ≡ true }
        ensures { result ≡ commands.command_of_kinds_10_to_13 self.now }
    {
        match self.kind {
            10 => Some(Cmd::Activate),
            11 => Some(Cmd::Enter {
                number: self.rec_number(),
            }),
            12 => Some(Cmd::Exit {
                number: self.rec_number(),
            }),
            13 => Some(Cmd::Poke {
                number: self.rec_number(),
                ipa: self.ipa as u32,
                offset: self.page_offset(),
                value: self.value as u8,
            }),
            _ => None,
        }
    }

    // The command that the kind and the operands encode, if they encode one.
    pub(crate) fn command(&self) -> Option<Cmd>
        ensures { result ≡ commands.command_in self.now }
    {
        if !self.fits() {
            None
        } else if self.kind <= 5 {
            self.command_of_kinds_0_to_5()
        } else if self.kind <= 9 {
            self.command_of_kinds_6_to_9()
        } else {
            self.command_of_kinds_10_to_13()
        }
    }
}

// The build with the given number; `None` for a number above 7.
pub(crate) fn build_of(number: u64) -> Option<BuildId>
    ensures { result ≡ commands.build_in number }
{
    if number < 8 {
        BuildId::new(number as u8)
    } else {
        None
    }
}

// The status for operands that are no command.
const NO_COMMAND: u64 = 15;

// The build and its command, or the status if the number is no build or the operands are no command.
pub(crate) fn asked(build: u64, raw: &RawCommand) -> Result<(BuildId, Cmd), u64>
    ensures { result ≡ commands.command_asked build raw.now }
{
    let Some(build) = build_of(build) else {
        return Err(NO_BUILD);
    };
    match raw.command() {
        Some(cmd) => Ok((build, cmd)),
        None => Err(NO_COMMAND),
    }
}
