//! Commands that create and destroy RECs, and the search for a REC by its number.
ghost use Rattle.std.specs.Prelude.{◌≡◌, ◌<◌, Some, length, map, option_map, IfOk, IfSome, IfNone, None};
ghost use Rattle.std.specs.List.{All};
ghost use Rattle.realm_model.specs.Machine.{RealmRow, cell_at};
ghost use Rattle.realm_model.specs.Command.Rec as command;
ghost use Rattle.rmi_monitor.specs.Attributes.{rec_row};
ghost use Rattle.rmi_monitor.specs.Places.{with_rec_more};
ghost use Rattle.rmi_monitor.specs.View.{IsTaken, Answers, IsOnRec, seen_in, after_command, rec_in};
ghost use Rattle.std.specs.FinMap.{get};
ghost use Rattle.rmi_monitor.specs.Inside.{recs_of, IsNumbered, IsRecAt};

use crate::places::{can_be_rec, release, release_all, shift_all};
use crate::{Monitor, RealmDesc, Rec, rec_event};
use arrayvec::ArrayVec;
use granule_addr::{Gran, RecNo};
use page_arena::PageStore;
use realm_model::{GranuleState, Rmi};
use rtt::GranuleTable;

// Takes and returns the realm's next REC number, and extends the realm's measurement by the event of that REC.
fn number_rec(realm: &mut RealmDesc) -> RecNo
    requires { realm.old.next < 65535 }
    ensures number { result ≡ realm.old.next }
    ensures counted { realm.new ≡ with_rec_more realm.old }
{
    let number = realm.take_rec_number();
    realm.measure(&rec_event(number));
    number
}

impl<S: PageStore> Monitor<S> {
    /// Returns the number of auxiliary granules that each REC needs. RMM 1.0, RMI_REC_AUX_COUNT; that it is the same
    /// for each realm is this profile's own.
    pub fn rec_aux_count(&self) -> u8
        ensures { result ≡ self.now.aux }
    {
        self.aux
    }

    /// Creates a REC of a NEW realm from DELEGATED granules. One granule is for the REC, and the others are auxiliary.
    /// Returns the REC's number.
    ///
    /// RMM 1.0, RMI_REC_CREATE. The error is RMI_ERROR_INPUT if `rd` is not an RD, one of the other granules is not
    /// DELEGATED, or two of these are the same. The error is the same if there are not as many auxiliaries as each REC
    /// has. The error is RMI_ERROR_REALM if the realm is not NEW.
    pub fn rec_create(
        &mut self,
        rd: Gran,
        rec: Gran,
        auxiliaries: ArrayVec<Gran, 16>,
    ) -> Result<RecNo, Rmi>
        requires rd_taken { IsTaken self.old rd }
        requires rec_taken { IsTaken self.old rec }
        requires auxiliaries_taken { All (IsTaken self.old) auxiliaries.items }
        requires numbers { (realm : RealmRow) → (cell_at self.old.machine rd).descriptor ≡ Some realm → realm.next < 65535 }
        ensures answer { Answers result
            (command.rec_create self.old.aux (seen_in self.old rd) (seen_in self.old rec) (map (seen_in self.old) auxiliaries.items)) }
        ensures number { IfOk result (λ number. (realm : RealmRow) → (cell_at self.old.machine rd).descriptor ≡ Some realm → number ≡ realm.next) }
        ensures machine { self.new ≡ after_command
            (command.rec_create self.old.aux (seen_in self.old rd) (seen_in self.old rec) (map (seen_in self.old) auxiliaries.items)) self.old }
    {
        let Some(realm) = &mut self.realms[rd.number() as usize] else {
            return Err(Rmi::INPUT);
        };
        if !can_be_rec(&self.granules, rec, auxiliaries.as_slice(), self.aux) {
            return Err(Rmi::INPUT);
        }
        if !realm.is_new() {
            return Err(Rmi::REALM);
        }
        self.granules
            .shift(rec, GranuleState::Delegated, GranuleState::Rec, Some(rd));
        shift_all(
            &mut self.granules,
            auxiliaries.as_slice(),
            GranuleState::Delegated,
            GranuleState::RecAux,
            rd,
        );
        let number = number_rec(realm);
        self.recs[rec.number() as usize] = Some(Rec::new(number, auxiliaries));
        self.rec_counts[rd.number() as usize] += 1;
        Ok(number)
    }

    /// Destroys a READY REC. Its granule and its auxiliary granules are cleared and become DELEGATED. The number of the
    /// REC is not used again.
    ///
    /// RMM 1.0, RMI_REC_DESTROY. The error is RMI_ERROR_INPUT if the granule is not a REC, and RMI_ERROR_REC if the REC
    /// is not READY.
    pub fn rec_destroy(&mut self, rec: Gran) -> Result<(), Rmi>
        requires { IsTaken self.old rec }
        ensures { IsOnRec command.rec_destroy self.old rec result self.new }
    {
        let Some(kept) = &self.recs[rec.number() as usize] else {
            return Err(Rmi::INPUT);
        };
        if !kept.is_ready() {
            return Err(Rmi::REC);
        }
        let rd = self.granules.realm_of(rec).unwrap();
        release(&mut self.store, &mut self.granules, rec, GranuleState::Rec);
        release_all(
            &mut self.store,
            &mut self.granules,
            kept.auxiliaries(),
            GranuleState::RecAux,
        );
        self.recs[rec.number() as usize] = None;
        self.rec_counts[rd.number() as usize] -= 1;
        Ok(())
    }

    /// Finds REC `number` of a realm. Returns the REC's granule and the REC itself; `None` if and only if there is no
    /// such realm or REC.
    pub fn rec(&self, rd: Gran, number: RecNo) -> Option<(Gran, &Rec)>
        requires { rd < length self.now.machine }
        ensures value { option_map (λ r. rec_row r.0 r.1.now) result ≡ rec_in self.now.machine rd number }
        ensures number { IfSome result (λ r. r.1.now.number ≡ number) }
        ensures inside { IfSome result (λ r. r.0 < length self.now.machine) }
    {
        let granule = find_rec(&self.granules, self.recs.as_slice(), rd, number)?;
        let rec = self.recs[granule.number() as usize].as_ref().unwrap();
        Some((granule, rec))
    }
}

// The granule of REC `number` of the realm with RD `rd`, if the realm has that REC.
pub(crate) fn find_rec(
    granules: &GranuleTable,
    recs: &[Option<Rec>],
    rd: Gran,
    number: RecNo,
) -> Option<Gran>
    requires places { length recs.now ≡ length granules.now }
    requires numbered { IsNumbered granules.now recs.now rd }
    ensures some { IfSome result (IsRecAt granules.now recs.now rd number) }
    ensures none { IfNone result (get (recs_of granules.now recs.now rd) number ≡ None) }
{
    'granules: for place in 0..granules.pages() {
        let granule = Gran::from_number(place);
        let Some(rec) = &recs[place as usize] else {
            continue;
        };
        if rec.number() == number && granules.realm_of(granule) == Some(rd) {
            return Some(granule);
        }
    }
    None
}
