//! The simulated RMM, with functions for RMI calls and for the host's memory accesses.
ghost use Rattle.std.specs.Prelude.{◌≡◌, length, IfSome};
ghost use Rattle.std.specs.Option.{option_copied};
ghost use Rattle.rmm_model.specs.Call.{rmi, performed};
ghost use Rattle.rmm_model.specs.Guest.{queued};
ghost use Rattle.rmm_model.specs.Command.RecEnter.{interrupted};
ghost use Rattle.rmm_model.specs.Host.{can_access, can_fill, loaded, state_shown, after_store, after_fill};
ghost use Rattle.rmm.specs.Bytes.{can_access_bytes, loaded_bytes, after_store_bytes};
ghost use Rattle.rmm.specs.Reading.{word_shown};

use crate::data::{data_create_unknown, data_destroy};
use crate::data_create::data_create;
use crate::fold::rtt_fold;
use crate::granule::{granule_delegate, granule_undelegate};
use crate::guest::queue;
use crate::host::{fill, load, load_bytes, state, store, store_bytes, word};
use crate::information::{features, rec_aux_count, version};
use crate::init_ripas::rtt_init_ripas;
use crate::psci::psci_complete;
use crate::read_entry::rtt_read_entry;
use crate::realm::realm_activate;
use crate::realm_create::realm_create;
use crate::realm_destroy::realm_destroy;
use crate::rec_create::rec_create;
use crate::rec_destroy::rec_destroy;
use crate::rec_enter::{interrupt, rec_enter};
use crate::rtt_create::rtt_create;
use crate::rtt_destroy::rtt_destroy;
use crate::set_ripas::rtt_set_ripas;
use crate::unprotected::{rtt_map_unprotected, rtt_unmap_unprotected};
use page_arena::PageStore;
use rmi_abi::{
    Call, Registers, RmmSettings, SmcResult, answer_registers, decode_call, unknown_registers,
};
use rmm_granules::Granules;
use rmm_model::{Queued, RmmGranuleState, StepWords};
use std::marker::Model;

/// The simulated RMM of a platform, with the platform's memory in a store of pages. Contracts see an RMM as its
/// machine.
#[derive(Drop)]
pub struct Rmm<S: PageStore> {
    granules: Granules<S>,
}

impl<S: PageStore> Model for Rmm<S> {
    ghost use Rattle.rmm_model.specs.Machine.{Machine};
    ghost use Rattle.rmm_model.specs.Codes.{machine_code};

    ghost Value = { Machine };

    ghost coded = { machine_code };

    ghost view = { λ rmm. rmm.granules };
}

impl<S: PageStore> Rmm<S> {
    /// Creates an RMM with the given granules.
    pub fn over(granules: Granules<S>) -> Rmm<S>
        ensures { result ≡ granules }
    {
        Rmm { granules }
    }

    /// Returns the settings of the platform.
    pub fn settings(&self) -> &RmmSettings
        ensures { result.now ≡ self.now.settings }
    {
        self.granules.settings()
    }

    /// Returns a reference to the granules of the RMM's platform, including attributes and pages that no call shows to
    /// a host.
    pub fn granules(&self) -> &Granules<S>
        ensures { result.now ≡ self.now }
    {
        &self.granules
    }

    /// Consumes an RMM, and returns its granules.
    pub fn into_granules(self) -> Granules<S>
        ensures { result ≡ self }
    {
        self.granules
    }

    /// Loads the eight bytes at an address, or returns `None` if the load faults. A host can access UNDELEGATED
    /// granules alone.
    pub fn load(&self, address: u64) -> Option<u64>
        ensures { result ≡ loaded self.now address }
    {
        load(&self.granules, address)
    }

    /// Loads the `count` bytes that start at an address. Returns `None` if the host faults, or if the bytes are not all
    /// in one granule.
    pub fn load_bytes(&self, address: u64, count: usize) -> Option<&[u8]>
        ensures bytes { option_copied result ≡ loaded_bytes self.now address count }
        ensures count { IfSome result (λ bytes. length bytes.now ≡ count) }
    {
        load_bytes(&self.granules, address, count)
    }

    /// Returns the state of the granule that begins at an address, or `None` if no granule begins there. The state
    /// includes the attributes of a realm or REC. No host sees this state.
    pub fn state(&self, address: u64) -> Option<RmmGranuleState>
        ensures { result ≡ state_shown self.now address }
    {
        state(&self.granules, address)
    }

    /// Returns word `index` of the granule that begins at an address, or `None` if there is no such word. The granule
    /// may be in any state. No host sees the word.
    pub fn word(&self, address: u64, index: u16) -> Option<u64>
        ensures { result ≡ word_shown self.now address index }
    {
        word(&self.granules, address, index)
    }

    /// Stores eight bytes at an address. Returns `false`, with nothing changed, if the host faults.
    pub fn store(&mut self, address: u64, word: u64) -> bool
        ensures answer { result ≡ can_access self.old address }
        ensures machine { self.new ≡ after_store self.old address word }
    {
        store(&mut self.granules, address, word)
    }

    /// Stores the given bytes in memory, starting at an address. Returns `false`, with nothing changed, if the host
    /// faults, or if the bytes do not fit in one granule.
    pub fn store_bytes(&mut self, address: u64, bytes: &[u8]) -> bool
        ensures answer { result ≡ can_access_bytes self.old address (length bytes.now) }
        ensures machine { self.new ≡ after_store_bytes self.old address bytes.now }
    {
        store_bytes(&mut self.granules, address, bytes)
    }

    /// Writes one value to each byte of the granule that begins at an address. Returns `false`, with nothing changed,
    /// if the host faults.
    pub fn fill(&mut self, address: u64, value: u8) -> bool
        ensures answer { result ≡ can_fill self.old address }
        ensures machine { self.new ≡ after_fill self.old address value }
    {
        fill(&mut self.granules, address, value)
    }

    /// Queues a guest step for a REC.
    pub fn guest(&mut self, rec: u64, step: &StepWords) -> Queued
        ensures { (result, self.new) ≡ queued self.old rec step.now }
    {
        queue(&mut self.granules, rec, step)
    }

    /// Ends the run of a REC by a host interrupt. Returns the result word of the REC's RMI_REC_ENTER; `None` if no REC
    /// runs at the address.
    pub fn interrupt(&mut self, rec: u64) -> Option<rmi_abi::Word>
        ensures { (result, self.new) ≡ interrupted self.old rec }
    {
        interrupt(&mut self.granules, rec)
    }

    /// Performs the RMI call in the given registers. Returns the registers after the call.
    #[tactic(auto, unfolding(rmm_model::specs::Call::rmi))]
    pub fn smc(&mut self, regs: Registers) -> Registers
        ensures { (result, self.new) ≡ rmi regs self.old }
    {
        match decode_call(regs) {
            Some(call) => answer_registers(regs, perform(&mut self.granules, call)),
            None => unknown_registers(regs),
        }
    }
}

// Performs a call, and returns its answer.
#[inline(always)]
#[tactic(auto, unfolding(rmm_model::specs::Call::performed))]
fn perform<S: PageStore>(granules: &mut Granules<S>, call: Call) -> SmcResult
    ensures answer { result ≡ (performed call granules.old).0 }
    ensures machine { granules.new ≡ (performed call granules.old).1 }
{
    match call {
        Call::Version { requested } => version(granules, requested),
        Call::Features { index } => features(granules, index),
        Call::GranuleDelegate { address } => granule_delegate(granules, address),
        Call::GranuleUndelegate { address } => granule_undelegate(granules, address),
        Call::RealmCreate { rd, params } => realm_create(granules, rd, params),
        Call::RealmActivate { rd } => realm_activate(granules, rd),
        Call::RecAuxCount { rd } => rec_aux_count(granules, rd),
        Call::RttReadEntry { rd, ipa, level } => rtt_read_entry(granules, rd, ipa, level),
        Call::RttCreate {
            rd,
            rtt,
            ipa,
            level,
        } => rtt_create(granules, rd, rtt, ipa, level),
        Call::RttDestroy { rd, ipa, level } => rtt_destroy(granules, rd, ipa, level),
        Call::RealmDestroy { rd } => realm_destroy(granules, rd),
        Call::RttFold { rd, ipa, level } => rtt_fold(granules, rd, ipa, level),
        Call::RttMapUnprotected {
            rd,
            ipa,
            level,
            descriptor,
        } => rtt_map_unprotected(granules, rd, ipa, level, descriptor),
        Call::RttUnmapUnprotected { rd, ipa, level } => rtt_unmap_unprotected(
            granules, rd, ipa, level,
        ),
        Call::DataCreateUnknown { rd, data, ipa } => data_create_unknown(granules, rd, data, ipa),
        Call::DataCreate {
            rd,
            data,
            ipa,
            source,
            flags,
        } => data_create(granules, rd, data, ipa, source, flags),
        Call::RttInitRipas { rd, base, top } => rtt_init_ripas(granules, rd, base, top),
        Call::RttSetRipas { rd, rec, base, top } => rtt_set_ripas(granules, rd, rec, base, top),
        Call::DataDestroy { rd, ipa } => data_destroy(granules, rd, ipa),
        Call::RecCreate { rd, rec, params } => rec_create(granules, rd, rec, params),
        Call::RecDestroy { rec } => rec_destroy(granules, rec),
        Call::RecEnter { rec, run } => rec_enter(granules, rec, run),
        Call::PsciComplete {
            calling,
            target,
            status,
        } => psci_complete(granules, calling, target, status),
    }
}
