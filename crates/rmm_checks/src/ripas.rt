//! The checks of RMI_RTT_INIT_RIPAS and RMI_RTT_SET_RIPAS.
ghost use Rattle.std.specs.Prelude.{◌≡◌, ℕ, ◌+◌, ◌≤◌, ◌==◌, Bool, not, nat_le, true, false, [], ◌∷◌, length};
ghost use Rattle.rmm_model.specs.declared.condition.Condition.TheVariants.{BaseAlign, NoProgress, RtteState};
ghost use Rattle.rmm_model.specs.Check.{check, error_rtt};
ghost use Rattle.rmm_model.specs.Level.{entry_size as size_at};
ghost use Rattle.rmm_model.specs.Command.Operand.{is_multiple as is_at, realm_at, rec_at};
ghost use Rattle.rmm_model.specs.Command.RttInitRipas as making;
ghost use Rattle.rmm_model.specs.Command.RttSetRipas as setting;
ghost use Rattle.rmm_checks.specs.Evaluated.{Adds, evaluated, is_made, is_passed};

use crate::EvaluatedChecks;
use crate::operand::{is_aligned, number_at, owner_at};
use crate::realm::{add_new, add_rd, is_multiple, is_protected};
use crate::rec::{add_rec, rec_at};
use crate::walking::{Reached, reach};
use page_arena::PageStore;
use rmm_granules::{Granules, OperandConditions, init_changeable, set_changeable};
use rmm_model::{Condition, RmmRec, entry_size};

// ---- ranges

// Whether a range has no addresses.
fn is_empty(base: u64, top: u64) -> bool
    ensures { result ≡ nat_le top base }
{
    top <= base
}

// Whether a range of `size` addresses from `base` on ends at `top` or below it.
fn ends_within(base: u64, size: u64, top: u64) -> bool
    ensures { result ≡ nat_le (base + size) top }
{
    size <= top && base <= top - size
}

// Adds the checks that a range begins at the address of an entry and covers it, and that the entry can be changed.
fn add_progress(
    checks: &mut EvaluatedChecks,
    after: &[Condition],
    reached: &Reached,
    changes: bool,
    base: u64,
    top: u64,
)
    requires room { length checks.old + 3 ≤ 18 }
    ensures rows { (level : ℕ) (is : Bool)
        → (is_made checks.old after.now ≡ true → (reached.now.level ≡ level) × (changes ≡ is))
        → is_passed checks.old BaseAlign ≡ false
        → Adds checks.old
        (check BaseAlign after.now (not (is_at base (size_at level))) (error_rtt level)
        ∷ check RtteState (BaseAlign ∷ []) (not is) (error_rtt level)
        ∷ check NoProgress (BaseAlign ∷ []) (not (nat_le (base + size_at level) top)) (error_rtt level) ∷ [])
        checks.new }
    ensures length { length checks.new ≡ length checks.old + 3 }
{
    let size = entry_size(reached.level);
    let begins = is_multiple(base, size);
    checks.rtt(Condition::BaseAlign, after, !begins, reached.level);
    checks.rtt(
        Condition::RtteState,
        &[Condition::BaseAlign],
        !changes,
        reached.level,
    );
    let ends = ends_within(base, size, top);
    checks.rtt(
        Condition::NoProgress,
        &[Condition::BaseAlign],
        !ends,
        reached.level,
    );
}

// ---- RMI_RTT_INIT_RIPAS

// Adds the checks that a range consists of pages at protected addresses, and that the realm is NEW.
#[tactic(auto, unfolding(rmm_model::specs::Command::RttInitRipas::range_checks))]
fn add_range<S: PageStore>(
    checks: &mut EvaluatedChecks,
    granules: &Granules<S>,
    rd: u64,
    base: u64,
    top: u64,
)
    requires room { length checks.old + 5 ≤ 18 }
    ensures rows { Adds checks.old (making.range_checks (realm_at granules.now rd) base top) checks.new }
    ensures length { length checks.new ≡ length checks.old + 5 }
{
    checks.input(Condition::BaseGranAlign, &[], !is_aligned(base));
    checks.input(Condition::TopGranAlign, &[], !is_aligned(top));
    let base_within = is_protected(granules, rd, base);
    checks.input(Condition::BaseBound, &[Condition::RdState], !base_within);
    let last = top.saturating_sub(4096);
    let last_within = is_protected(granules, rd, last);
    checks.input(
        Condition::TopBound,
        &[Condition::RdState, Condition::Size],
        !last_within,
    );
    add_new(checks, granules, rd);
}

// The checks of RMI_RTT_INIT_RIPAS.
pub fn rtt_init_ripas<S: PageStore>(
    granules: &Granules<S>,
    rd: u64,
    base: u64,
    top: u64,
) -> EvaluatedChecks
    ensures { result ≡ evaluated (making.rtt_init_ripas rd base top granules.now).checks }
{
    let mut checks = EvaluatedChecks::new();
    checks.input(Condition::Size, &[], is_empty(base, top));
    add_rd(&mut checks, granules, rd);
    add_range(&mut checks, granules, rd, base, top);
    let reached = reach(granules, rd, base, 3);
    let changeable = init_changeable(granules.settings());
    let changes = reached.entry.can_change(changeable);
    add_progress(
        &mut checks,
        &[
            Condition::Size,
            Condition::RdState,
            Condition::BaseBound,
            Condition::TopBound,
            Condition::RealmState,
        ],
        &reached,
        changes,
        base,
        top,
    );
    checks
}

// ---- RMI_RTT_SET_RIPAS

// Whether a range begins at the address up to which a REC's RIPAS request is done.
fn begins_at(asking: &RmmRec, base: u64) -> bool
    ensures { result ≡ (base == asking.now.ripas.base) }
{
    base == asking.ripas.base
}

// Whether a range ends within the range of a REC's RIPAS request. A range with addresses also has to begin at a
// protected address, if the REC belongs to the realm.
fn is_within<S: PageStore>(
    granules: &Granules<S>,
    rd: u64,
    asking: &RmmRec,
    is_owner: bool,
    base: u64,
    top: u64,
) -> bool
    ensures { result ≡ setting.is_within (realm_at granules.now rd) asking.now is_owner base top }
{
    top <= asking.ripas.top && (!is_owner || top <= base || is_protected(granules, rd, base))
}

// Whether the REC at an address belongs to the realm of an RD.
fn is_rec_of<S: PageStore>(granules: &Granules<S>, rd: u64, rec: u64) -> bool
    ensures { result ≡ setting.is_rec_of granules.now rd rec }
{
    match owner_at(granules, rec) {
        Some(owner) => owner.number() as u64 == number_at(granules, rd),
        None => false,
    }
}

// Adds the checks that a REC belongs to an RD's realm and does not run, and that a range fits the REC's RIPAS request.
#[tactic(auto, unfolding(rmm_model::specs::Command::RttSetRipas::ripas_request_checks))]
fn add_request<S: PageStore>(
    checks: &mut EvaluatedChecks,
    granules: &Granules<S>,
    rd: u64,
    rec: u64,
    base: u64,
    top: u64,
)
    requires room { length checks.old + 5 ≤ 18 }
    ensures rows { Adds checks.old
        (setting.ripas_request_checks (realm_at granules.now rd) (rec_at granules.now rec)
        (setting.is_rec_of granules.now rd rec) base top)
        checks.new }
    ensures length { length checks.new ≡ length checks.old + 5 }
{
    let asking = rec_at(granules, rec);
    checks.input(Condition::TopGranAlign, &[], !is_aligned(top));
    let runs = asking.is_running();
    checks.rec(Condition::RecState, &[Condition::RecGranState], runs);
    let is_owner = is_rec_of(granules, rd, rec);
    checks.rec(
        Condition::RecOwner,
        &[Condition::RecGranState, Condition::RdState],
        !is_owner,
    );
    let begins = begins_at(&asking, base);
    checks.input(Condition::BaseBound, &[Condition::RecState], !begins);
    let within = is_within(granules, rd, &asking, is_owner, base, top);
    checks.input(Condition::TopBound, &[Condition::RecState], !within);
}

// The checks of RMI_RTT_SET_RIPAS.
pub fn rtt_set_ripas<S: PageStore>(
    granules: &Granules<S>,
    rd: u64,
    rec: u64,
    base: u64,
    top: u64,
) -> EvaluatedChecks
    ensures { result ≡ evaluated (setting.rtt_set_ripas rd rec base top granules.now).checks }
{
    let mut checks = EvaluatedChecks::new();
    checks.input(Condition::Size, &[], is_empty(base, top));
    add_rd(&mut checks, granules, rd);
    add_rec(&mut checks, granules, OperandConditions::REC, rec);
    add_request(&mut checks, granules, rd, rec, base, top);
    let reached = reach(granules, rd, base, 3);
    let asking = rec_at(granules, rec);
    let changeable = set_changeable(&asking.ripas);
    let changes = reached.entry.can_change(changeable);
    add_progress(
        &mut checks,
        &[
            Condition::Size,
            Condition::RecGranState,
            Condition::RdState,
            Condition::RecState,
            Condition::RecOwner,
            Condition::BaseBound,
            Condition::TopBound,
        ],
        &reached,
        changes,
        base,
        top,
    );
    checks
}
