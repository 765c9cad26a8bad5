//! The result words of RMI commands.
ghost use Rattle.std.specs.Prelude.{◌≡◌};
ghost use Rattle.rmi_abi.specs.Word as words;

/// The result word of an RMI command, returned in X0: a status, with an index for RMI_ERROR_REALM and RMI_ERROR_RTT.
/// RMM 1.0, RmiCommandReturnCode.
#[derive(Clone, Copy)]
pub enum Word {
    Success,
    ErrorInput,
    ErrorRealm(u8),
    ErrorRec,
    ErrorRtt(u8),
    /// The result word of a REC_ENTER call that has not returned yet, because the REC is still running. The word is
    /// this RMM's own, and not one of the standard.
    Running,
}

impl Word {
    /// Returns the value of X0 that encodes the result word. The status is in bits 7:0 and the index in bits 15:8; the
    /// value for `Running` is -2.
    pub fn number(self) -> u64
        ensures { result ≡ words.number self }
    {
        match self {
            Word::Success => 0,
            Word::ErrorInput => 1,
            Word::ErrorRealm(index) => 2 + 256 * index as u64,
            Word::ErrorRec => 3,
            Word::ErrorRtt(index) => 4 + 256 * index as u64,
            Word::Running => 0xFFFF_FFFF_FFFF_FFFE,
        }
    }

    /// Decodes an RMI result word from a value of X0. Returns `None` if the value encodes no word of the standard, as
    /// with the value of `Running`.
    pub fn from_number(number: u64) -> Option<Word>
        ensures { result ≡ words.word_of number }
    {
        if number >= 0x1_0000 {
            return None;
        }
        let index = (number / 256) as u8;
        match number % 256 {
            0 if index == 0 => Some(Word::Success),
            1 if index == 0 => Some(Word::ErrorInput),
            2 => Some(Word::ErrorRealm(index)),
            3 if index == 0 => Some(Word::ErrorRec),
            4 => Some(Word::ErrorRtt(index)),
            _ => None,
        }
    }

    pub fn is_success(self) -> bool
        ensures { result ≡ words.is_success self }
    {
        matches!(self, Word::Success)
    }
}
