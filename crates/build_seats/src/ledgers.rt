//! Ghost ledgers, each of which counts the events of one build. The lock protects their counts, and the session handles
//! (`Seat`) carry their passes.
ghost use Rattle.std.specs.Prelude.{◌≡◌, ℕ, ◌+◌, ◌<◌, [], ◌∷◌, length, map, slice_index, slice_set};
ghost use Rattle.std.specs.List.{range_with_len};
ghost use Rattle.host_ledger.specs.View.{HostView};
ghost use Rattle.build_seats.specs.Passes.{unused};
ghost use Rattle.build_seats.specs.Start.{no_host};
ghost use Rattle.build_seats.specs.Names.{AreNamed};

use crate::blanks::Blanks;
use granule_addr::BuildId;
use std::marker::{Brand, Model, PhantomData};
use std::sync::ledger::{Book, Ledger, Share};

/// A family of ghost ledgers, one for each build of a shared host. It has the name of each build's ledger, and the
/// state of the host when the builds began to share it.
pub trait Ledgers {
    ghost opened: { HostView };

    /// Maps the number of a build to the name of its ghost ledger.
    ghost names: { ℕ → ℕ };
}

impl Ledgers for Brand {
    ghost opened = { no_host };

    ghost names = { λ build. 0 };
}

/// The type of the ghost ledger that counts the events of build `BUILD`. The ledger has one part.
pub struct LedgerOf<L, const BUILD: u8>(PhantomData<L>);

impl<L: Ledgers, const BUILD: u8> Ledger for LedgerOf<L, BUILD> {
    ghost name = { L.names BUILD };

    ghost parts = { 1 };
}

/// The number of events of each build, kept under the lock of a shared host. The view is the list of these numbers.
pub struct Books<L: Ledgers> {
    book0: Book<LedgerOf<L, 0>>,
    book1: Book<LedgerOf<L, 1>>,
    book2: Book<LedgerOf<L, 2>>,
    book3: Book<LedgerOf<L, 3>>,
    book4: Book<LedgerOf<L, 4>>,
    book5: Book<LedgerOf<L, 5>>,
    book6: Book<LedgerOf<L, 6>>,
    book7: Book<LedgerOf<L, 7>>,
}

impl<L: Ledgers> Drop for Books<L> {
    fn drop(self) {
        let Books {
            book0: _,
            book1: _,
            book2: _,
            book3: _,
            book4: _,
            book5: _,
            book6: _,
            book7: _,
        } = self;
    }
}

impl<L: Ledgers> Model for Books<L> {
    ghost use Rattle.std.specs.Prelude.{List, [], ◌∷◌, ℕ};

    ghost Value = { List ℕ };

    ghost view = { λ b. b.book0.total ∷ b.book1.total ∷ b.book2.total ∷ b.book3.total ∷ b.book4.total ∷ b.book5.total ∷ b.book6.total ∷ b.book7.total ∷ [] };
}

// Adds `amount` to a ledger's total and to the amount of its only share. The two are equal before.
fn add_whole<L: Ledger>(book: &mut Book<L>, share: &mut Share<L>, amount: u64)
    requires parts { share.old.parts ≡ L.parts }
    requires some { 0 < share.old.parts }
    ensures same { book.old.total ≡ share.old.amount }
    ensures total { book.new.total ≡ book.old.total + amount }
    ensures amount { share.new.amount ≡ share.old.amount + amount }
    ensures parts { share.new.parts ≡ share.old.parts }
{
    book.audit(share);
    book.add(share, amount);
}

impl<L: Ledgers> Books<L> {
    // Adds `more` to a build's event count, both in its `Pass` and in `Books`. The two counts are equal before.
    fn add(&mut self, pass: &mut Pass<L>, more: u64)
        ensures book { self.new ≡ slice_set self.old pass.old.build (pass.old.count + more) }
        ensures pass { pass.new ≡ record pass.old { count = pass.old.count + more } }
        ensures build { pass.old.build < 8 }
        ensures count { slice_index self.old pass.old.build ≡ pass.old.count }
        ensures length { length self.old ≡ 8 }
    {
        match &mut pass.whole {
            Whole::Build0(share) => add_whole(&mut self.book0, share, more),
            Whole::Build1(share) => add_whole(&mut self.book1, share, more),
            Whole::Build2(share) => add_whole(&mut self.book2, share, more),
            Whole::Build3(share) => add_whole(&mut self.book3, share, more),
            Whole::Build4(share) => add_whole(&mut self.book4, share, more),
            Whole::Build5(share) => add_whole(&mut self.book5, share, more),
            Whole::Build6(share) => add_whole(&mut self.book6, share, more),
            Whole::Build7(share) => add_whole(&mut self.book7, share, more),
        }
    }

    /// Proves that a build's event count in `Books` equals the count of its `Pass`. Nothing changes.
    pub fn audit(&mut self, pass: &mut Pass<L>)
        ensures same { (self.new ≡ self.old) × (pass.new ≡ pass.old) }
        ensures build { pass.old.build < 8 }
        ensures count { slice_index self.old pass.old.build ≡ pass.old.count }
        ensures length { length self.old ≡ 8 }
    {
        self.add(pass, 0);
    }

    /// Adds one to a build's event count, both in its `Pass` and in `Books`.
    pub(crate) fn raise(&mut self, pass: &mut Pass<L>)
        ensures book { self.new ≡ slice_set self.old pass.old.build (pass.old.count + 1) }
        ensures pass { pass.new ≡ record pass.old { count = pass.old.count + 1 } }
    {
        self.add(pass, 1);
    }
}

// The sole share of the ledger of one build.
enum Whole<L: Ledgers> {
    Build0(Share<LedgerOf<L, 0>>),
    Build1(Share<LedgerOf<L, 1>>),
    Build2(Share<LedgerOf<L, 2>>),
    Build3(Share<LedgerOf<L, 3>>),
    Build4(Share<LedgerOf<L, 4>>),
    Build5(Share<LedgerOf<L, 5>>),
    Build6(Share<LedgerOf<L, 6>>),
    Build7(Share<LedgerOf<L, 7>>),
}

impl<L: Ledgers> Drop for Whole<L> {
    fn drop(self) {
        match self {
            Whole::Build0(_)
            | Whole::Build1(_)
            | Whole::Build2(_)
            | Whole::Build3(_)
            | Whole::Build4(_)
            | Whole::Build5(_)
            | Whole::Build6(_)
            | Whole::Build7(_) => {}
        }
    }
}

/// The only share of the ghost ledger that counts a build's events. The view is the build and the count.
#[derive(Drop)]
pub struct Pass<L: Ledgers> {
    whole: Whole<L>,
}

impl<L: Ledgers> Model for Pass<L> {
    ghost use Rattle.std.specs.Prelude.{◌≡◌};
    ghost use Rattle.build_seats.specs.Passes.{PassView};
    ghost use Rattle.build_seats.specs.Whole.{build_of, parts_of_whole, amount_of};

    ghost Value = { PassView };

    ghost view = { λ p. record { build = build_of p.whole; count = amount_of p.whole } };

    ghost invariant = { λ p. parts_of_whole p.whole ≡ 1 };
}

impl<L: Ledgers> Pass<L> {
    /// Returns the build whose events are counted by this share of a ghost ledger.
    pub fn build(&self) -> BuildId
        ensures build { result ≡ self.now.build }
        ensures range { self.now.build < 8 }
    {
        let number = match &self.whole {
            Whole::Build0(_) => 0,
            Whole::Build1(_) => 1,
            Whole::Build2(_) => 2,
            Whole::Build3(_) => 3,
            Whole::Build4(_) => 4,
            Whole::Build5(_) => 5,
            Whole::Build6(_) => 6,
            Whole::Build7(_) => 7,
        };
        BuildId::at(number)
    }
}

/// Newly opened ghost ledgers of all builds, in which no event is counted yet. They are the counts that the lock will
/// protect, and a pass for each build, the lowest build first.
#[derive(Drop)]
pub struct Opened<L: Ledgers> {
    pub books: Books<L>,
    pub passes: [Pass<L>; 8],
    ghost books_are: { books ≡ 0 ∷ 0 ∷ 0 ∷ 0 ∷ 0 ∷ 0 ∷ 0 ∷ 0 ∷ [] },
    ghost passes_are: { passes ≡ map unused (range_with_len 0 8) },
}

impl<L: Ledgers> Opened<L> {
    /// Opens the blank ghost ledger of each build, with no event counted yet.
    pub fn new(blanks: Blanks) -> Opened<L>
        requires named { AreNamed L.names blanks }
    {
        let (book0, share0) = blanks.blank0.open::<LedgerOf<L, 0>>();
        let (book1, share1) = blanks.blank1.open::<LedgerOf<L, 1>>();
        let (book2, share2) = blanks.blank2.open::<LedgerOf<L, 2>>();
        let (book3, share3) = blanks.blank3.open::<LedgerOf<L, 3>>();
        let (book4, share4) = blanks.blank4.open::<LedgerOf<L, 4>>();
        let (book5, share5) = blanks.blank5.open::<LedgerOf<L, 5>>();
        let (book6, share6) = blanks.blank6.open::<LedgerOf<L, 6>>();
        let (book7, share7) = blanks.blank7.open::<LedgerOf<L, 7>>();
        Opened {
            books: Books {
                book0,
                book1,
                book2,
                book3,
                book4,
                book5,
                book6,
                book7,
            },
            passes: [
                Pass {
                    whole: Whole::Build0(share0),
                },
                Pass {
                    whole: Whole::Build1(share1),
                },
                Pass {
                    whole: Whole::Build2(share2),
                },
                Pass {
                    whole: Whole::Build3(share3),
                },
                Pass {
                    whole: Whole::Build4(share4),
                },
                Pass {
                    whole: Whole::Build5(share5),
                },
                Pass {
                    whole: Whole::Build6(share6),
                },
                Pass {
                    whole: Whole::Build7(share7),
                },
            ],
        }
    }
}
