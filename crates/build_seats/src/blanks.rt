//! Ghost ledgers that have not been opened yet. The type of a ghost ledger is chosen when the ledger is opened.
ghost use Rattle.std.specs.Prelude.{◌≡◌};

use std::sync::ledger::Blank;

/// A ghost ledger for each build, not yet opened. A ghost ledger counts in proofs only. Each has a single part.
#[derive(Drop)]
pub struct Blanks {
    pub blank0: Blank,
    pub blank1: Blank,
    pub blank2: Blank,
    pub blank3: Blank,
    pub blank4: Blank,
    pub blank5: Blank,
    pub blank6: Blank,
    pub blank7: Blank,
    ghost one0: { blank0.parts ≡ 1 },
    ghost one1: { blank1.parts ≡ 1 },
    ghost one2: { blank2.parts ≡ 1 },
    ghost one3: { blank3.parts ≡ 1 },
    ghost one4: { blank4.parts ≡ 1 },
    ghost one5: { blank5.parts ≡ 1 },
    ghost one6: { blank6.parts ≡ 1 },
    ghost one7: { blank7.parts ≡ 1 },
}

impl Blanks {
    pub fn new() -> Blanks {
        Blanks {
            blank0: Blank::new(1),
            blank1: Blank::new(1),
            blank2: Blank::new(1),
            blank3: Blank::new(1),
            blank4: Blank::new(1),
            blank5: Blank::new(1),
            blank6: Blank::new(1),
            blank7: Blank::new(1),
        }
    }
}
