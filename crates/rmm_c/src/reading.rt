//! Functions of the C interface that read the state of an RMM. No firmware offers a host these readings.
ghost use Rattle.std.specs.Prelude.{◌≡◌};
ghost use Rattle.rmm.specs.Reading.{word_shown};
ghost use Rattle.rmm_c.specs.Reading as shown;
ghost use Rattle.rmm_c.specs.Reading.{Reports, Reads};

use crate::attributes::{granule_state_code, realm_attributes, rec_attributes};
use crate::{PlainRmm, RealmAttributes, RecAttributes, RmmHandle};
use std::alloc::Global;

// Writes a reading to `into`, if there is one, and returns whether there is one.
pub(crate) fn report<T: Drop>(read: Option<T>, into: &mut T) -> bool
    ensures { Reports read into.old result into.new }
{
    match read {
        Some(it) => {
            *into = it;
            true
        }
        None => false,
    }
}

// The number for the state of the granule at an address.
fn state_of(plain: &PlainRmm, address: u64) -> Option<u64>
    ensures { result ≡ shown.state_code_shown address plain.now }
{
    Some(granule_state_code(plain.rmm.state(address)?))
}

// Word `index` of the granule at an address.
fn word_of(plain: &PlainRmm, address: u64, index: u64) -> Option<u64>
    ensures { result ≡ word_shown plain.now address index }
{
    if index < 512 {
        plain.rmm.word(address, index as u16)
    } else {
        None
    }
}

// The attributes of the realm whose RD is at an address.
fn realm_of(plain: &PlainRmm, rd: u64) -> Option<RealmAttributes>
    ensures { result ≡ shown.realm_shown rd plain.now }
{
    let realm = plain.rmm.state(rd)?.realm()?;
    Some(realm_attributes(plain.rmm.settings().base, &realm))
}

// The attributes of the REC at an address.
fn rec_of(plain: &PlainRmm, rec: u64) -> Option<RecAttributes>
    ensures { result ≡ shown.rec_shown rec plain.now }
{
    let attributes = plain.rmm.state(rec)?.rec()?;
    Some(rec_attributes(&attributes))
}

/// Writes the state of the granule at an address to `state`. Returns false, and writes nothing, if there is no such
/// granule.
#[unsafe(no_mangle)]
pub extern "C" fn rmm_read_state(
    alloc: Global,
    handle: &mut RmmHandle,
    address: u64,
    state: &mut u64,
) -> bool
    ensures read { Reads (shown.state_code_shown address) handle.old.held.machine state.old result state.new }
    ensures same { handle.new.held.machine ≡ handle.old.held.machine }
{
    let Some(plain) = handle.take(alloc) else {
        return false;
    };
    let found = state_of(&plain, address);
    handle.give(plain);
    report(found, state)
}

/// Writes word `index` of the granule at an address to `word`. A word is eight bytes, little endian. Returns false, and
/// writes nothing, if there is no such granule, if the index is above 511, or if the handle is closed.
#[unsafe(no_mangle)]
pub extern "C" fn rmm_read_word(
    alloc: Global,
    handle: &mut RmmHandle,
    address: u64,
    index: u64,
    word: &mut u64,
) -> bool
    ensures read { Reads (λ m. word_shown m address index) handle.old.held.machine word.old result word.new }
    ensures same { handle.new.held.machine ≡ handle.old.held.machine }
{
    let Some(plain) = handle.take(alloc) else {
        return false;
    };
    let found = word_of(&plain, address, index);
    handle.give(plain);
    report(found, word)
}

/// Writes the attributes of the realm whose RD is at address `rd` to `realm`. Returns false, and writes nothing, if no
/// RD is there.
#[unsafe(no_mangle)]
pub extern "C" fn rmm_read_realm(
    alloc: Global,
    handle: &mut RmmHandle,
    rd: u64,
    realm: &mut RealmAttributes,
) -> bool
    ensures read { Reads (shown.realm_shown rd) handle.old.held.machine realm.old result realm.new }
    ensures same { handle.new.held.machine ≡ handle.old.held.machine }
{
    let Some(plain) = handle.take(alloc) else {
        return false;
    };
    let found = realm_of(&plain, rd);
    handle.give(plain);
    report(found, realm)
}

/// Writes the attributes of the REC at an address to `attributes`. Returns false, and writes nothing, if no REC is
/// there.
#[unsafe(no_mangle)]
pub extern "C" fn rmm_read_rec(
    alloc: Global,
    handle: &mut RmmHandle,
    rec: u64,
    attributes: &mut RecAttributes,
) -> bool
    ensures read { Reads (shown.rec_shown rec) handle.old.held.machine attributes.old result attributes.new }
    ensures same { handle.new.held.machine ≡ handle.old.held.machine }
{
    let Some(plain) = handle.take(alloc) else {
        return false;
    };
    let found = rec_of(&plain, rec);
    handle.give(plain);
    report(found, attributes)
}
