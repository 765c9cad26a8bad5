//! Functions for the host's accesses to memory, and for reading the states and the words of granules.
ghost use Rattle.std.specs.Prelude.{◌≡◌, ◌<◌, length, is_some, IfSome};
ghost use Rattle.std.specs.Option.{option_copied};
ghost use Rattle.rmm_model.specs.Machine.{granule_count, number_of};
ghost use Rattle.rmm_model.specs.Host as hosts;
ghost use Rattle.rmm.specs.Bytes as by_bytes;
ghost use Rattle.rmm.specs.Reading.{word_shown};

use granule_addr::Gran;
use page_arena::{PageStore, word_in};
use rmm_granules::Granules;
use rmm_model::RmmGranuleState;

// The granule in which an address lies, if the granule is a page of the host.
pub fn host_granule<S: PageStore>(granules: &Granules<S>, address: u64) -> Option<Gran>
    ensures is { is_some result ≡ hosts.is_host_page granules.now address }
    ensures number { IfSome result (λ granule. granule ≡ number_of granules.now address) }
    ensures inside { IfSome result (λ granule. granule < granule_count granules.now) }
{
    if !granules.is_inside(address) {
        return None;
    }
    let granule = granules.number_of(address);
    if granules.is_undelegated(granule) && !granules.is_secure(address) {
        Some(granule)
    } else {
        None
    }
}

// Loads the eight bytes at an address; `None` if the host may not load them.
pub fn load<S: PageStore>(granules: &Granules<S>, address: u64) -> Option<u64>
    ensures { result ≡ hosts.loaded granules.now address }
{
    if address % 8 != 0 {
        return None;
    }
    match host_granule(granules, address) {
        Some(granule) => Some(word_in(granules.page(granule), (address % 4096 / 8) as usize)),
        None => None,
    }
}

// The `count` bytes from an address on, if they are in one granule and the host may load them.
pub fn load_bytes<S: PageStore>(granules: &Granules<S>, address: u64, count: usize) -> Option<&[u8]>
    ensures bytes { option_copied result ≡ by_bytes.loaded_bytes granules.now address count }
    ensures count { IfSome result (λ bytes. length bytes.now ≡ count) }
{
    let offset = (address % 4096) as usize;
    if count > 4096 - offset {
        return None;
    }
    match host_granule(granules, address) {
        Some(granule) => Some(&granules.page(granule)[offset..offset + count]),
        None => None,
    }
}

// The state of the granule that begins at an address; `None` if no granule begins there.
pub fn state<S: PageStore>(granules: &Granules<S>, address: u64) -> Option<RmmGranuleState>
    ensures { result ≡ hosts.state_shown granules.now address }
{
    if address % 4096 == 0 && granules.is_inside(address) {
        Some(granules.state(granules.number_of(address)))
    } else {
        None
    }
}

// Word `index` of the granule that begins at an address; `None` if there is no such word.
pub fn word<S: PageStore>(granules: &Granules<S>, address: u64, index: u16) -> Option<u64>
    ensures { result ≡ word_shown granules.now address index }
{
    if address % 4096 == 0 && granules.is_inside(address) && index < 512 {
        let page = granules.page(granules.number_of(address));
        Some(word_in(page, index as usize))
    } else {
        None
    }
}

// Stores eight bytes at an address; `false`, with nothing changed, if the host may not store there.
pub fn store<S: PageStore>(granules: &mut Granules<S>, address: u64, word: u64) -> bool
    ensures answer { result ≡ hosts.can_access granules.old address }
    ensures machine { granules.new ≡ hosts.after_store granules.old address word }
{
    if address % 8 != 0 {
        return false;
    }
    match host_granule(granules, address) {
        Some(granule) => {
            granules.set_word(granule, (address % 4096 / 8) as u16, word);
            true
        }
        None => false,
    }
}

// Stores bytes from an address on; `false`, with nothing changed, if the host may not store there, or if they do not
// fit in one granule.
pub fn store_bytes<S: PageStore>(granules: &mut Granules<S>, address: u64, bytes: &[u8]) -> bool
    ensures answer { result ≡ by_bytes.can_access_bytes granules.old address (length bytes.now) }
    ensures machine { granules.new ≡ by_bytes.after_store_bytes granules.old address bytes.now }
{
    let offset = (address % 4096) as usize;
    if bytes.len() > 4096 - offset {
        return false;
    }
    match host_granule(granules, address) {
        Some(granule) => {
            granules.write(granule, offset as u16, bytes);
            true
        }
        None => false,
    }
}

// Fills the page at an address with one value; `false`, with nothing changed, if the host may not store there.
pub fn fill<S: PageStore>(granules: &mut Granules<S>, address: u64, value: u8) -> bool
    ensures answer { result ≡ hosts.can_fill granules.old address }
    ensures machine { granules.new ≡ hosts.after_fill granules.old address value }
{
    if address % 4096 != 0 {
        return false;
    }
    match host_granule(granules, address) {
        Some(granule) => {
            granules.fill(granule, value);
            true
        }
        None => false,
    }
}
