//! The guest steps that are queued for a REC, and their results.
ghost use Rattle.std.specs.Prelude.{◌≡◌, ◌<◌, is_some, IfSome};
ghost use Rattle.rmm_model.specs.Guest as guests;
ghost use Rattle.rmm_model.specs.Machine.{granule_count, number_of};
ghost use Rattle.rmm_model.specs.Realm.{IsServed};
ghost use Rattle.rmm_model.specs.Command.RecEnter as entering;

use granule_addr::Gran;
use page_arena::PageStore;
use rmm_granules::{Granules, RecEdit, realm_in};
use rmm_model::{GuestStep, Queued, RmmRealm, RmmRec, StepResult, StepWords};

// The attributes of the REC in a granule; those of a new REC if the granule is not a REC.
pub fn rec_in<S: PageStore>(granules: &Granules<S>, g: Gran) -> RmmRec
    requires { g < granule_count granules.now }
    ensures { result ≡ guests.rec_in granules.now g }
{
    match granules.rec(g) {
        Some(rec) => rec,
        None => RmmRec::new(false, 0),
    }
}

// The realm that owns a granule.
pub fn owner_realm<S: PageStore>(granules: &Granules<S>, g: Gran) -> Option<RmmRealm>
    requires { g < granule_count granules.now }
    ensures value { result ≡ entering.owner_realm granules.now g }
    ensures served { IfSome result (IsServed (granule_count granules.now)) }
{
    match granules.owner(g) {
        Some(rd) => realm_in(granules, rd),
        None => None,
    }
}

// The first step of a guest.
#[inline(always)]
pub fn first_step<S: PageStore>(granules: &Granules<S>, g: Gran) -> GuestStep
    requires { g < granule_count granules.now }
    ensures { result ≡ guests.first_step granules.now g }
{
    let rec = rec_in(granules, g);
    StepWords::read(granules.page(g), rec.first_step % 16).step()
}

// Moves the guest of a REC past its first step.
#[tactic(auto, unfolding(rmm_model::specs::Guest::past_step))]
pub fn past_step<S: PageStore>(granules: &mut Granules<S>, g: Gran)
    requires { g < granule_count granules.old }
    ensures machine { granules.new ≡ guests.past_step granules.old g }
    ensures count { granule_count granules.new ≡ granule_count granules.old }
{
    granules.edit_rec(g, RecEdit::PassStep);
}

// Adds a result to the results of a REC's guest.
#[inline(always)]
#[tactic(auto, unfolding(rmm_model::specs::Guest::with_result))]
pub fn push_result<S: PageStore>(granules: &mut Granules<S>, g: Gran, r: &StepResult)
    requires { g < granule_count granules.old }
    ensures machine { granules.new ≡ guests.with_result granules.old g r.now }
    ensures count { granule_count granules.new ≡ granule_count granules.old }
{
    let first = 128 + 2 * (rec_in(granules, g).result_count % 32) as u16;
    granules.set_word(g, first, r.code());
    granules.set_word(g, first + 1, r.value());
    granules.edit_rec(g, RecEdit::AddResult);
}

// ---- actions of the host

// The granule of the REC that begins at an address, if a REC begins there.
pub fn rec_named<S: PageStore>(granules: &Granules<S>, address: u64) -> Option<Gran>
    ensures is { is_some result ≡ guests.is_rec_named granules.now address }
    ensures number { IfSome result (λ g. g ≡ number_of granules.now address) }
    ensures inside { IfSome result (λ g. g < granule_count granules.now) }
{
    if address % 4096 != 0 || !granules.is_inside(address) {
        return None;
    }
    let g = granules.number_of(address);
    if granules.rec(g).is_some() {
        Some(g)
    } else {
        None
    }
}

// Writes the words of a step into slot `place` of the guest's ring of steps.
fn write_step<S: PageStore>(granules: &mut Granules<S>, g: Gran, place: u8, words: &StepWords)
    requires inside { g < granule_count granules.old }
    requires below { place < 16 }
    ensures { granules.new ≡ guests.with_step_at granules.old g place words.now }
{
    let first = 48 + 5 * place as u16;
    granules.set_word(g, first, words.kind);
    granules.set_word(g, first + 1, words.a);
    granules.set_word(g, first + 2, words.b);
    granules.set_word(g, first + 3, words.c);
    granules.set_word(g, first + 4, words.d);
}

// Queues a step for the guest of the REC at an address.
#[tactic(auto, unfolding(rmm_model::specs::Guest::with_step))]
pub fn queue<S: PageStore>(granules: &mut Granules<S>, address: u64, words: &StepWords) -> Queued
    ensures { (result, granules.new) ≡ guests.queued granules.old address words.now }
{
    match rec_named(granules, address) {
        Some(g) => {
            let rec = rec_in(granules, g);
            if rec.step_count >= 16 {
                return Queued::Full;
            }
            write_step(
                granules,
                g,
                (rec.first_step % 16 + rec.step_count % 16) % 16,
                words,
            );
            granules.edit_rec(g, RecEdit::Steps(rec.step_count + 1));
            Queued::Queued
        }
        None => Queued::NoRec,
    }
}
