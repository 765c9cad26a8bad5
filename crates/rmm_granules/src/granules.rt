//! Granules with their attributes and contents, and the set of VMIDs that realms use.
ghost use Rattle.std.specs.Prelude.{◌≡◌, ◌≢◌, ◌+◌, ◌^◌, ◌<◌, ◌≤◌, false, length, replicate, slice_set, IfErr, IfOk, IfSome, IsTrue};
ghost use Rattle.granule_addr.specs.Page.{page_of};
ghost use Rattle.page_arena.specs.Word.{with_bytes, bytes_of_words, rising_word};
ghost use Rattle.rmi_abi.specs.Settings.{IsPlatform};
ghost use Rattle.rmm_model.specs.declared.granule.RmmGranuleState.TheVariants.{Undelegated};
ghost use Rattle.rmm_model.specs.Granule.{of_no_realm, realm_of, rec_of, is_undelegated, is_delegated};
ghost use Rattle.rmm_model.specs.Machine as machine;
ghost use Rattle.rmm_model.specs.Machine.{granule_count, granule_at, page_in};
ghost use Rattle.rmm_model.specs.Realm.{IsServed};
ghost use Rattle.rmm_model.specs.Guest.{rec_in};
ghost use Rattle.rmm_model.specs.Command.PsciComplete.{with_rec};
ghost use Rattle.rmm_granules.specs.Inside.{platform_machine};
ghost use Rattle.rmm_granules.specs.RealmEdits.{with_edited_realm};
ghost use Rattle.rmm_granules.specs.RecEdits.{edited};

use crate::realm_edit::RealmEdit;
use crate::rec_edit::RecEdit;
use crate::record::GranuleRecord;
use crate::taking::take_all;
use granule_addr::{Gran, PageOff};
use page_arena::PageStore;
use rmi_abi::{Platform, RmmSettings};
use rmm_model::{RmmGranule, RmmGranuleState, RmmRealm, RmmRec};
use std::alloc::{AllocError, Global};
use std::marker::Model;

// The number of 16-bit VMIDs.
const VMIDS: u32 = 0x1_0000;

/// The granules of a platform: their attributes, their contents in a page store, and the set of VMIDs that realms use.
#[derive(Drop)]
pub struct Granules<S: PageStore> {
    platform: Platform,
    granules: Vec<GranuleRecord>,
    vmids: Vec<bool>,
    store: S,
}

impl<S: PageStore> Model for Granules<S> {
    ghost use Rattle.rmm_model.specs.Machine.{Machine};
    ghost use Rattle.rmm_model.specs.Codes.{machine_code};
    ghost use Rattle.rmm_granules.specs.Inside.{machine_of, IsWhole};

    ghost Value = { Machine };

    ghost coded = { machine_code };

    ghost view = { λ m. machine_of m.platform m.granules.items m.vmids.items (S.page_bytes m.store) };

    ghost invariant = { λ m. IsWhole m.platform m.granules.items m.vmids.items (S.page_bytes m.store) (S.free_flags m.store) };
}

// The attributes of `count` UNDELEGATED granules.
fn undelegated(alloc: Global, count: u16) -> Result<Vec<GranuleRecord>, AllocError>
    ensures { IfOk result (λ v. v.items ≡ replicate count (of_no_realm Undelegated)) }
{
    let mut granules = Vec::with_capacity(alloc, count as usize)?;
    for _i in 0..count {
        granules.push(GranuleRecord::undelegated())?;
    }
    Ok(granules)
}

// The empty set of VMIDs, as `count` flags.
fn no_vmids(alloc: Global, count: u32) -> Result<Vec<bool>, AllocError>
    ensures { IfOk result (λ v. v.items ≡ replicate count false) }
{
    vec![in alloc; false; count as usize]
}

// The attributes of `count` UNDELEGATED granules, and the empty set of VMIDs.
fn rows(
    alloc: Global,
    count: u16,
    vmids: u32,
) -> Result<(Vec<GranuleRecord>, Vec<bool>), AllocError>
    ensures granules { IfOk result (λ r. r.0.items ≡ replicate count (of_no_realm Undelegated)) }
    ensures set { IfOk result (λ r. r.1.items ≡ replicate vmids false) }
{
    let granules = undelegated(alloc, count)?;
    let set = no_vmids(alloc, vmids)?;
    Ok((granules, set))
}

impl<S: PageStore> Granules<S> {
    /// Creates the granules of a platform, one for each page of a page store. All granules are UNDELEGATED. An error
    /// returns the store as it was.
    pub fn open(
        alloc: Global,
        platform: Platform,
        mut store: S,
    ) -> Result<Granules<S>, (AllocError, S)>
        ensures ok { IfOk result (λ m. m ≡ platform_machine platform (S.page_bytes store)) }
        ensures err { IfErr result (λ error. error.1 ≡ store) }
    {
        match rows(alloc, store.pages(), VMIDS) {
            Ok((granules, vmids)) => {
                take_all(&mut store);
                Ok(Granules {
                    platform,
                    granules,
                    vmids,
                    store,
                })
            }
            Err(error) => Err((error, store)),
        }
    }

    /// Returns the settings of the platform.
    pub fn settings(&self) -> &RmmSettings
        ensures value { result.now ≡ self.now.settings }
        ensures ranges { IsPlatform result.now }
    {
        self.platform.settings()
    }

    /// Returns the platform to which the granules belong. The settings of the platform are in range.
    pub fn platform(&self) -> &Platform
        ensures { result.now ≡ self.now.settings }
    {
        &self.platform
    }

    /// Returns the number of granules.
    pub fn count(&self) -> u16
        ensures value { result ≡ granule_count self.now }
        ensures few { result ≤ 4096 }
    {
        self.granules.len() as u16
    }

    // ---- addresses

    /// Returns whether an address lies in a granule of the machine.
    #[tactic(auto, unfolding(rmm_model::specs::Machine::is_inside))]
    pub fn is_inside(&self, address: u64) -> bool
        ensures { result ≡ machine.is_inside self.now address }
    {
        let base = self.platform.settings().base;
        address >= base && (address - base) / 4096 < self.granules.len() as u64
    }

    /// Returns the number of the granule that contains an address.
    #[tactic(auto, unfolding(rmm_model::specs::Machine::is_inside, rmm_model::specs::Machine::number_of))]
    pub fn number_of(&self, address: u64) -> Gran
        requires { IsTrue (machine.is_inside self.now address) }
        ensures value { result ≡ machine.number_of self.now address }
        ensures inside { result < granule_count self.now }
    {
        let number = (address - self.platform.settings().base) / 4096;
        Gran::from_number(number as u16)
    }

    /// Returns whether an address lies in the platform's range of Secure memory.
    #[tactic(auto, unfolding(rmm_model::specs::Machine::is_secure))]
    pub fn is_secure(&self, address: u64) -> bool
        ensures { result ≡ machine.is_secure self.now address }
    {
        let s = self.platform.settings();
        address >= s.secure_base && (address - s.secure_base) / 4096 < s.secure_count as u64
    }

    // ---- attributes

    pub fn is_undelegated(&self, granule: Gran) -> bool
        requires { granule < granule_count self.now }
        ensures { result ≡ is_undelegated (granule_at self.now granule).state }
    {
        self.granules[granule.number() as usize].is_undelegated()
    }

    pub fn is_delegated(&self, granule: Gran) -> bool
        requires { granule < granule_count self.now }
        ensures { result ≡ is_delegated (granule_at self.now granule).state }
    {
        self.granules[granule.number() as usize].is_delegated()
    }

    /// Returns the state of a granule.
    pub fn state(&self, granule: Gran) -> RmmGranuleState
        requires { granule < granule_count self.now }
        ensures { result ≡ (granule_at self.now granule).state }
    {
        self.granules[granule.number() as usize].state()
    }

    /// Returns the realm of an RD granule, or `None` for a granule in another state. The realm's starting tables lie in
    /// the machine.
    pub fn realm(&self, granule: Gran) -> Option<RmmRealm>
        requires { granule < granule_count self.now }
        ensures value { result ≡ realm_of (granule_at self.now granule).state }
        ensures served { IfSome result (IsServed (granule_count self.now)) }
    {
        self.granules[granule.number() as usize].realm()
    }

    /// Returns the attributes of a REC granule, or `None` for a granule in another state.
    pub fn rec(&self, granule: Gran) -> Option<RmmRec>
        requires { granule < granule_count self.now }
        ensures { result ≡ rec_of (granule_at self.now granule).state }
    {
        self.granules[granule.number() as usize].rec()
    }

    /// Returns the RD of the realm that owns a granule, or `None` if no realm owns it.
    pub fn owner(&self, granule: Gran) -> Option<Gran>
        requires { granule < granule_count self.now }
        ensures { result ≡ (granule_at self.now granule).owner }
    {
        self.granules[granule.number() as usize].owner()
    }

    /// Sets the attributes of a granule: its state and its owner.
    pub fn set(&mut self, granule: Gran, kept: RmmGranule)
        requires inside { granule < granule_count self.old }
        requires served { IfSome (realm_of kept.state) (IsServed (granule_count self.old)) }
        ensures { self.new ≡ machine.with_granule self.old granule kept }
    {
        self.granules[granule.number() as usize].set(kept);
    }

    /// Changes the attributes of an RD's realm in place. A granule that is not an RD stays as it is.
    #[inline(always)]
    pub fn edit_realm(&mut self, rd: Gran, edit: RealmEdit)
        ensures machine { self.new
            ≡ with_edited_realm self.old rd edit (realm_of (granule_at self.old rd).state) }
        ensures count { granule_count self.new ≡ granule_count self.old }
    {
        let place = rd.number() as usize;
        if place < self.granules.len() {
            self.granules[place].edit_realm(edit);
        }
    }

    /// Edits the attributes of a REC in place. A granule that is not a REC first becomes one, with the attributes of a
    /// new REC.
    #[inline(always)]
    pub fn edit_rec(&mut self, granule: Gran, edit: RecEdit)
        requires { granule < granule_count self.old }
        ensures machine { self.new ≡ with_rec self.old granule (edited edit (rec_in self.old granule)) }
        ensures count { granule_count self.new ≡ granule_count self.old }
    {
        self.granules[granule.number() as usize].edit_rec(edit);
    }

    // ---- pages

    /// Returns the 4,096 bytes of a granule.
    pub fn page(&self, granule: Gran) -> &[u8]
        requires { granule < granule_count self.now }
        ensures value { result.now ≡ page_in self.now granule }
        ensures whole { length result.now ≡ 4096 }
    {
        self.store.bytes(granule)
    }

    /// Writes word `index` of a granule.
    pub fn set_word(&mut self, granule: Gran, index: u16, word: u64)
        requires inside { granule < granule_count self.old }
        requires index { index < 512 }
        ensures written { self.new ≡ machine.with_word self.old granule index word }
        ensures page { granule < length self.old.pages }
        ensures whole { length (page_in self.old granule) ≡ 4096 }
    {
        self.store.set_word(granule, index, word);
    }

    /// Writes bytes into a granule, from an offset on.
    pub fn write(&mut self, granule: Gran, offset: u16, bytes: &[u8])
        requires inside { granule < granule_count self.old }
        requires fits { offset + length bytes.now ≤ 4096 }
        ensures written { self.new
            ≡ machine.with_page self.old granule (with_bytes (page_in self.old granule) offset bytes.now) }
        ensures page { granule < length self.old.pages }
        ensures whole { length (page_in self.old granule) ≡ 4096 }
    {
        self.store.write(granule, offset, bytes);
    }

    /// Fills a granule with 512 words that rise by `step` modulo 2^48.
    ///
    /// Word k, counted from 0, is `kind + (first + k * step) % 2^48`.
    pub fn write_rising(&mut self, granule: Gran, kind: u64, first: u64, step: u64)
        requires inside { granule < granule_count self.old }
        requires kind { kind ≤ 2 ^ 60 }
        requires first { first < 2 ^ 48 }
        requires step { step ≤ 2 ^ 39 }
        ensures { self.new
            ≡ machine.with_page self.old granule (bytes_of_words 512 (rising_word kind first step)) }
    {
        self.store.write_rising(granule, kind, first, step);
    }

    /// Writes one byte of a granule.
    pub fn set_byte(&mut self, granule: Gran, offset: u16, value: u8)
        requires inside { granule < granule_count self.old }
        requires offset { offset < 4096 }
        ensures { self.new
            ≡ machine.with_page self.old granule (slice_set (page_in self.old granule) offset value) }
    {
        self.store
            .set(granule, PageOff::new(offset).unwrap(), value);
    }

    /// Writes one value to each byte of a granule.
    pub fn fill(&mut self, granule: Gran, value: u8)
        requires { granule < granule_count self.old }
        ensures page { granule < length self.old.pages }
        ensures filled { self.new ≡ machine.with_page self.old granule (page_of value) }
    {
        self.store.fill(granule, value);
    }

    /// Copies the contents of granule `source` to granule `target`. The two granules are different.
    pub fn copy(&mut self, target: Gran, source: Gran)
        requires target { target < granule_count self.old }
        requires source { source < granule_count self.old }
        requires different { target ≢ source }
        ensures { self.new ≡ machine.with_page self.old target (page_in self.old source) }
    {
        self.store.copy(target, source);
    }

    // ---- VMIDs

    /// Returns whether some realm uses a VMID.
    pub fn is_vmid_used(&self, vmid: u16) -> bool
        ensures { result ≡ machine.is_vmid_used self.now vmid }
    {
        self.vmids[usize::from(vmid)]
    }

    /// Marks a VMID as used by a realm, or as free.
    pub fn set_vmid(&mut self, vmid: u16, used: bool)
        ensures { self.new ≡ machine.with_vmid self.old vmid used }
    {
        self.vmids[vmid as usize] = used;
    }
}
