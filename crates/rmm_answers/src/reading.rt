//! Functions that report the state of granules, realms and RECs for a trace. No firmware offers a host these readings.
ghost use Rattle.std.specs.Prelude.{◌≡◌, ◌+◌, ◌<◌, ◌≤◌, length, take, []};
ghost use Rattle.std.specs.List.{sum};
ghost use Rattle.rmm_model.specs.Host.{state_shown};
ghost use Rattle.rmm_trace.specs.declared.word.Atom.TheVariants.{Decimal, Hexadecimal};
ghost use Rattle.rmm_answers.specs.Guest.{rec_named};
ghost use Rattle.rmm_answers.specs.Put.{put_value};
ghost use Rattle.rmm_answers.specs.Reading as readings;
ghost use Rattle.rmm_answers.specs.Replies.{no_answer};

use crate::guest::rec_at;
use crate::place::{
    ACTIVE, BASE, DATA_STATE, DELEGATED, GPR0, IS_SYSTEM_OFF, NEW, NEXT, OFF, PENDING, RD,
    RD_STATE, READY, REC_AUX, REC_STATE, RECS, RTT_STATE, TABLES, UNDELEGATED,
};
use crate::put::{put, put_flag, put_value};
use crate::reply::{Digest, TraceReply};
use page_arena::PageStore;
use rmi_abi::HashAlgorithm;
use rmm::Rmm;
use rmm_granules::is_pending;
use rmm_model::{RmmGranuleState, RmmRealm, RmmRealmState, RmmRec};
use rmm_trace::place::{LEVEL, MPIDR, NONE, PC, RUNNABLE, RUNNING, S2SZ, VMID};
use rmm_trace::{Atom, Sentence};

// The name of a granule's state.
fn state_name(state: RmmGranuleState) -> usize
    ensures { result ≡ readings.state_name state }
{
    match state {
        RmmGranuleState::Undelegated => UNDELEGATED,
        RmmGranuleState::Delegated => DELEGATED,
        RmmGranuleState::Rd(_) => RD_STATE,
        RmmGranuleState::Rec(_) => REC_STATE,
        RmmGranuleState::RecAux => REC_AUX,
        RmmGranuleState::Data => DATA_STATE,
        RmmGranuleState::Rtt => RTT_STATE,
    }
}

// The name of a granule's state, or `none` if there is no granule.
pub(crate) fn state_atom(state: Option<RmmGranuleState>) -> Atom
    ensures { result ≡ readings.state_atom state }
{
    match state {
        Some(state) => Atom::Name(state_name(state)),
        None => Atom::Name(NONE),
    }
}

// ---- sums

// Whether the page of a granule in this state holds the RMM's own data.
fn holds_rmm_data(state: RmmGranuleState) -> bool
    ensures { result ≡ readings.holds_rmm_data state }
{
    match state {
        RmmGranuleState::Rd(_) | RmmGranuleState::Rec(_) | RmmGranuleState::Rtt => true,
        RmmGranuleState::Undelegated
        | RmmGranuleState::Delegated
        | RmmGranuleState::RecAux
        | RmmGranuleState::Data => false,
    }
}

// The sum of the bytes of a page.
fn sum_of(page: &[u8]) -> u64
    requires { length page.now ≤ 4096 }
    ensures { result ≡ sum page.now }
{
    let mut total: u64 = 0;
    for byte in page {
        total += u64::from(*byte);
    }
    total
}

// The sum of the bytes of the granule at an address; 0 for a table, an RD, a REC or no granule.
fn granule_sum<S: PageStore>(rmm: &Rmm<S>, address: u64, state: RmmGranuleState) -> u64
    ensures { result ≡ readings.granule_sum rmm.now address state }
{
    let granules = rmm.granules();
    if holds_rmm_data(state) || !granules.is_inside(address) {
        return 0;
    }
    sum_of(granules.page(granules.number_of(address)))
}

// The sum of the bytes of the granule at an address, or `none` if there is no granule.
pub(crate) fn sum_atom<S: PageStore>(rmm: &Rmm<S>, address: u64) -> Atom
    ensures { result ≡ readings.sum_atom rmm.now address (state_shown rmm.now address) }
{
    match rmm.state(address) {
        Some(state) => Atom::Decimal(granule_sum(rmm, address, state)),
        None => Atom::Name(NONE),
    }
}

// ---- realms

fn realm_state_name(state: RmmRealmState) -> usize
    ensures { result ≡ readings.realm_state_name state }
{
    match state {
        RmmRealmState::New => NEW,
        RmmRealmState::Active => ACTIVE,
        RmmRealmState::SystemOff => IS_SYSTEM_OFF,
    }
}

// The realm whose RD is at an address.
fn realm_at<S: PageStore>(rmm: &Rmm<S>, address: u64) -> Option<RmmRealm>
    ensures { result ≡ readings.realm_named rmm.now address }
{
    rmm.state(address)?.realm()
}

// Appends a number in decimal, with its name.
fn put_number(answer: &mut Sentence, name: usize, number: u64)
    requires { length answer.old.items ≤ 62 }
    ensures items { answer.new.items ≡ put_value name (Decimal number) answer.old.items }
    ensures len { length answer.new.items ≡ length answer.old.items + 2 }
{
    put_value(answer, name, Atom::Decimal(number));
}

// Appends an address or a register, with its name.
fn put_word(answer: &mut Sentence, name: usize, word: u64)
    requires { length answer.old.items ≤ 62 }
    ensures items { answer.new.items ≡ put_value name (Hexadecimal word) answer.old.items }
    ensures len { length answer.new.items ≡ length answer.old.items + 2 }
{
    put_value(answer, name, Atom::Hexadecimal(word));
}

// Appends the attributes of a realm. `base` is the address of the machine's granule 0.
#[tactic(auto, unfolding(crate::specs::Reading::realm_words))]
fn put_realm(answer: &mut Sentence, realm: &RmmRealm, base: u64)
    requires { answer.old.items ≡ [] }
    ensures { answer.new.items ≡ readings.realm_words realm.now base }
{
    put(answer, Atom::Name(realm_state_name(realm.state)));
    put_number(answer, S2SZ, u64::from(realm.s2sz));
    put_number(answer, LEVEL, u64::from(realm.start_level));
    put_number(answer, TABLES, u64::from(realm.table_count));
    put_word(
        answer,
        BASE,
        base.wrapping_add(4096 * u64::from(realm.first_table.number())),
    );
    put_number(answer, VMID, u64::from(realm.vmid));
    put_number(answer, NEXT, u64::from(realm.next_rec));
    put_number(answer, RECS, u64::from(realm.rec_count));
}

// Answers with the attributes of the realm whose RD is at an address, or with `none`.
pub(crate) fn answer_realm<S: PageStore>(answer: &mut Sentence, rmm: &Rmm<S>, address: u64)
    requires { answer.old.items ≡ [] }
    ensures { answer.new.items ≡ readings.realm_answer (readings.realm_named rmm.now address) rmm.now.settings.base }
{
    match realm_at(rmm, address) {
        Some(realm) => put_realm(answer, &realm, rmm.settings().base),
        None => put(answer, Atom::Name(NONE)),
    }
}

// The first 32 of 64 bytes.
fn first_half(bytes: &[u8]) -> [u8; 32]
    requires { length bytes.now ≡ 64 }
    ensures { result ≡ take 32 bytes.now }
{
    let mut half = [0; 32];
    half.copy_from_slice(&bytes[..32]);
    half
}

// The digest in a measurement that was made with a hash algorithm. In a measurement a digest of 32 bytes has zeros
// after it.
fn digest_of(hash: HashAlgorithm, rim: [u8; 64]) -> Digest
    ensures { result ≡ readings.digest_of hash rim }
{
    match hash {
        HashAlgorithm::Sha256 => Digest::Sha256(first_half(&rim)),
        HashAlgorithm::Sha512 => Digest::Sha512(rim),
    }
}

// Answers with the initial measurement of the realm whose RD is at an address, or with `none`.
pub(crate) fn answer_rim<S: PageStore>(reply: &mut TraceReply, rmm: &Rmm<S>, address: u64)
    requires { reply.old ≡ no_answer }
    ensures { reply.new ≡ readings.rim_reply (readings.realm_named rmm.now address) }
{
    match realm_at(rmm, address) {
        Some(realm) => reply.rim = Some(digest_of(realm.hash, realm.rim)),
        None => put(&mut reply.words, Atom::Name(NONE)),
    }
}

// ---- RECs

// The address of the RD of the realm that owns a granule; 0 if none does.
#[tactic(auto, unfolding(crate::specs::Reading::owner_address))]
fn owner_address<S: PageStore>(rmm: &Rmm<S>, address: u64) -> u64
    ensures { result ≡ readings.owner_address rmm.now address }
{
    let granules = rmm.granules();
    if !granules.is_inside(address) {
        return 0;
    }
    match granules.owner(granules.number_of(address)) {
        Some(rd) => granules
            .settings()
            .base
            .wrapping_add(4096 * u64::from(rd.number())),
        None => 0,
    }
}

// Appends `pending`, if a request is pending.
#[tactic(auto, unfolding(crate::specs::Reading::put_pending))]
fn put_pending(answer: &mut Sentence, is_pending: bool)
    requires { length answer.old.items < 64 }
    ensures items { answer.new.items ≡ readings.put_pending is_pending answer.old.items }
    ensures len { length answer.new.items ≤ length answer.old.items + 1 }
{
    if is_pending {
        put_flag(answer, PENDING);
    }
}

// Appends the attributes of the REC at an address.
#[tactic(auto, unfolding(crate::specs::Reading::rec_words))]
fn put_rec<S: PageStore>(answer: &mut Sentence, rmm: &Rmm<S>, address: u64, rec: &RmmRec)
    requires { answer.old.items ≡ [] }
    ensures { answer.new.items ≡ readings.rec_words rmm.now address rec.now }
{
    put(
        answer,
        Atom::Name(if rec.is_running() { RUNNING } else { READY }),
    );
    put_word(answer, RD, owner_address(rmm, address));
    put_word(answer, MPIDR, rec.mpidr);
    put_flag(answer, if rec.is_runnable { RUNNABLE } else { OFF });
    put_pending(answer, is_pending(rec.psci));
    put_word(answer, PC, rmm.word(address, 31).unwrap_or(0));
    put_word(answer, GPR0, rmm.word(address, 0).unwrap_or(0));
}

// Answers with the attributes of the REC at an address, or with `none`.
pub(crate) fn answer_rec<S: PageStore>(answer: &mut Sentence, rmm: &Rmm<S>, address: u64)
    requires { answer.old.items ≡ [] }
    ensures { answer.new.items ≡ readings.rec_answer rmm.now address (rec_named rmm.now address) }
{
    match rec_at(rmm, address) {
        Some(rec) => put_rec(answer, rmm, address, &rec),
        None => put(answer, Atom::Name(NONE)),
    }
}
