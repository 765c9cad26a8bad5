//! The actions, such as RMM calls, that a host takes to perform a build's operation.
ghost use Rattle.std.specs.Prelude.{◌≡◌, ◌<◌, ◌-◌, ◌^◌, ◌++◌, [], ◌∷◌, map, length};
ghost use Rattle.std.specs.Option.{unwrap_or};
ghost use Rattle.history_calls.specs.declared.action.HostAction.TheVariants.{Fill, RealmParams, RecParams};
ghost use Rattle.history_calls.specs.Actions as specs;
ghost use Rattle.history_calls.specs.Frame as frames;

use crate::{Frame, HostAction};
use arrayvec::ArrayVec;
use granule_addr::{Gran, IpaGran, RecNo, Root, Vmid};
use realm_model::{Act, RealmAndRec};
use rmi_abi::Call;

/// The maximum number of actions, such as RMM calls, for one event of a history.
pub const MOST_ACTIONS: usize = 5;

/// A list of the actions, such as RMM calls, for one event of a history.
pub type Actions = ArrayVec<HostAction, MOST_ACTIONS>;

// The address of an IPA granule, in bytes.
fn ipa_of(ipa: IpaGran) -> u64
    ensures value { result ≡ specs.ipa_of ipa }
    ensures below { result < 2 ^ 55 }
{
    4096 * ipa.number() as u64
}

// The MPIDR of the REC with the given number.
fn mpidr_of(number: RecNo) -> u64
    ensures { result ≡ specs.mpidr_of number }
{
    let number = number.number() as u64;
    number % 16 + number / 16 * 256
}

// The address of a granule, or of granule 0 if there is none.
fn address_or_base(frame: Frame, granule: Option<Gran>) -> u64
    ensures { result ≡ frames.address frame (unwrap_or granule 0) }
{
    match granule {
        Some(granule) => frame.address(granule),
        None => frame.base(),
    }
}

// The addresses of granules.
fn addresses(frame: Frame, granules: &ArrayVec<Gran, 16>) -> ArrayVec<u64, 16>
    ensures { result.items ≡ map (frames.address frame) granules.now.items }
{
    let mut addresses = ArrayVec::new();
    for granule in granules.as_slice() {
        addresses.push(frame.address(*granule));
    }
    addresses
}

// Appends an action.
fn push(actions: &mut Actions, action: HostAction)
    requires { length actions.old.items < 5 }
    ensures { actions.new.items ≡ actions.old.items ++ action ∷ [] }
{
    actions.push(action);
}

// A call without a known output in X1.
fn plain_call(call: Call) -> HostAction
    ensures { result ≡ specs.plain_call call }
{
    HostAction::Call { call, x1: None }
}

// A call with a known output in X1.
fn with_x1(call: Call, x1: u64) -> HostAction
    ensures { result ≡ specs.with_x1 call x1 }
{
    HostAction::Call { call, x1: Some(x1) }
}

fn fill(frame: Frame, first: Gran, granules: u16, value: u8) -> HostAction
    ensures { result ≡ Fill (frames.address frame first) granules value }
{
    HostAction::Fill {
        address: frame.address(first),
        granules,
        value,
    }
}

// The action that writes the parameters of a realm.
fn realm_params(frame: Frame, root: Root, vmid: Vmid) -> HostAction
    ensures { result ≡ RealmParams (frames.realm_params frame) root.width vmid (frames.address frame root.first) (2 ^ (root.width - 39)) }
{
    HostAction::RealmParams {
        page: frame.host(0),
        width: root.width.number(),
        vmid: vmid.number(),
        tables: frame.address(root.first),
        count: root.width.start_count(),
    }
}

// The action that writes the parameters of a REC.
fn rec_params(frame: Frame, number: RecNo, auxiliaries: &ArrayVec<Gran, 16>) -> HostAction
    ensures { result ≡ RecParams (frames.rec_params frame) (specs.mpidr_of number) (record { items = map (frames.address frame) auxiliaries.now.items }) }
{
    HostAction::RecParams {
        page: frame.host(1),
        mpidr: mpidr_of(number),
        auxiliaries: addresses(frame, auxiliaries),
    }
}

// Appends the actions for an event that accesses, delegates, undelegates or gives back pages, or that creates or
// destroys a realm.
fn push_on_granules(actions: &mut Actions, frame: Frame, act: &Act)
    requires { actions.old.items ≡ [] }
    ensures { actions.new.items ≡ specs.on_granules frame act.now }
{
    match act {
        Act::UnTake { order, first } => push(actions, fill(frame, *first, order.size(), 0)),
        Act::Fill { granule, value } => push(actions, fill(frame, *granule, 1, *value)),
        Act::Peek {
            granule,
            offset,
            byte,
        } => push(
            actions,
            HostAction::Load {
                address: frame.address(*granule) + offset.number() as u64 / 8 * 8,
                byte: *byte,
            },
        ),
        Act::Delegate { granule } => {
            let address = frame.address(*granule);
            push(actions, plain_call(Call::GranuleDelegate { address }));
        }
        Act::Undelegate { granule } => {
            let address = frame.address(*granule);
            push(actions, plain_call(Call::GranuleUndelegate { address }));
        }
        Act::Realm { rd, root, vmid } => {
            push(actions, realm_params(frame, *root, *vmid));
            let (rd, params) = (frame.address(*rd), frame.host(0));
            push(actions, plain_call(Call::RealmCreate { rd, params }));
        }
        Act::UnRealm { rd, .. } => {
            let rd = frame.address(*rd);
            push(actions, plain_call(Call::RealmDestroy { rd }));
        }
        _ => {}
    }
}

// The call for an event about a realm's tables, memory or activation; `None` for any other event.
fn call_in_realm(frame: Frame, rd: u64, act: &Act) -> Option<HostAction>
    ensures { result ≡ specs.call_in_realm frame rd act.now }
{
    let action = match act {
        Act::Rtt {
            granule,
            ipa,
            level,
        } => plain_call(Call::RttCreate {
            rd,
            rtt: frame.address(*granule),
            ipa: ipa_of(*ipa),
            level: level.number() as u64,
        }),
        Act::UnRtt {
            granule,
            ipa,
            level,
        } => {
            let (ipa, level) = (ipa_of(*ipa), level.number() as u64);
            with_x1(Call::RttDestroy { rd, ipa, level }, frame.address(*granule))
        }
        Act::Ripas { ipa, count } => {
            let base = ipa_of(*ipa);
            let top = base + 4096 * *count as u64;
            with_x1(Call::RttInitRipas { rd, base, top }, top)
        }
        Act::Data {
            granule,
            ipa,
            source,
        } => plain_call(Call::DataCreate {
            rd,
            data: frame.address(*granule),
            ipa: ipa_of(*ipa),
            source: frame.address(*source),
            flags: 1,
        }),
        Act::Unknown { granule, ipa } => plain_call(Call::DataCreateUnknown {
            rd,
            data: frame.address(*granule),
            ipa: ipa_of(*ipa),
        }),
        Act::UnData { granule, ipa } => {
            let ipa = ipa_of(*ipa);
            with_x1(Call::DataDestroy { rd, ipa }, frame.address(*granule))
        }
        Act::Activate => plain_call(Call::RealmActivate { rd }),
        _ => return None,
    };
    Some(action)
}

// Appends the actions for the creation or the destruction of a REC.
fn push_on_rec_granule(actions: &mut Actions, frame: Frame, rd: u64, act: &Act)
    requires { actions.old.items ≡ [] }
    ensures { actions.new.items ≡ specs.on_rec_granule frame rd act.now }
{
    match act {
        Act::Rec {
            granule,
            auxiliaries,
            number,
        } => {
            push(actions, rec_params(frame, *number, auxiliaries));
            let (rec, params) = (frame.address(*granule), frame.host(1));
            push(actions, plain_call(Call::RecCreate { rd, rec, params }));
        }
        Act::UnRec { granule, .. } => {
            let rec = frame.address(*granule);
            push(actions, plain_call(Call::RecDestroy { rec }));
        }
        _ => {}
    }
}

// Appends the actions for an event about a REC that runs or is to run.
fn push_on_rec(actions: &mut Actions, rec: u64, run: u64, act: &Act)
    requires { actions.old.items ≡ [] }
    ensures { actions.new.items ≡ specs.on_rec rec run act.now }
{
    match act {
        Act::Enter { .. } => {
            push(actions, HostAction::Spin { rec });
            push(actions, HostAction::Enter { rec, run });
        }
        Act::Exit { .. } => push(actions, HostAction::Interrupt { rec }),
        Act::Poke {
            ipa,
            offset,
            value,
            ..
        } => {
            let (ipa, value) = (ipa_of(*ipa) + offset.number() as u64, *value);
            push(actions, HostAction::Interrupt { rec });
            push(actions, HostAction::Write { rec, ipa, value });
            push(actions, HostAction::Spin { rec });
            push(actions, HostAction::Enter { rec, run });
            push(actions, HostAction::Saw { rec });
        }
        _ => {}
    }
}

/// Returns the actions, such as RMM calls, that a host takes to perform a build's operation. `subject` is the realm and
/// the REC of the build's operation. The exits of a run go to the page with the number `run`, which is below
/// `RUN_PAGE_COUNT`.
///
/// A take and its reverse are the host's own: a take needs no action, and what is given back is cleared.
pub fn actions_of(frame: Frame, subject: RealmAndRec, run: u16, act: &Act) -> Actions
    requires { run < 64 }
    ensures { result.items ≡ specs.actions_of frame subject run act.now }
{
    let mut actions = ArrayVec::new();
    let rd = address_or_base(frame, subject.realm);
    match act {
        Act::Take { .. } => {}
        Act::Rec { .. } | Act::UnRec { .. } => push_on_rec_granule(&mut actions, frame, rd, act),
        Act::Enter { .. } | Act::Exit { .. } | Act::Poke { .. } => {
            let rec = address_or_base(frame, subject.rec);
            push_on_rec(&mut actions, rec, frame.host(2 + run), act);
        }
        _ => match call_in_realm(frame, rd, act) {
            Some(action) => push(&mut actions, action),
            None => push_on_granules(&mut actions, frame, act),
        },
    }
    actions
}
