//! The granules, RECs and realms that an operation changes.
ghost use Rattle.std.specs.Prelude.{◌≡◌, ◌+◌, ◌≤◌, IfSome, option_map};
ghost use Rattle.run_json.specs.Changes.{one_granule, granules_of, changes_realm, rec_named_by, level_above};

use granule_addr::{Gran, Level, RecNo};
use realm_model::Act;

/// The granules that an operation changes. They are `granule`, the `count` granules from number `from` on, and those in
/// `also`.
#[derive(Drop)]
pub struct Changed<'a> {
    pub granule: Gran,
    pub from: u16,
    pub count: u16,
    pub also: &'a [Gran],
}

// A change of one granule alone.
fn one<'a>(granule: Gran) -> Option<Changed<'a>>
    ensures value { option_map (λ c. record { granule = c.granule; from = c.from; count = c.count; also = c.also.now }) result ≡ one_granule granule }
    ensures few { IfSome result (λ c. c.from + c.count ≤ 65535) }
{
    Some(Changed {
        granule,
        from: 0,
        count: 0,
        also: &[],
    })
}

/// Returns the granules whose state, lease or realm an operation changes.
pub fn granules_of(act: &Act) -> Option<Changed<'_>>
    ensures value { option_map (λ c. record { granule = c.granule; from = c.from; count = c.count; also = c.also.now }) result ≡ granules_of act.now }
    ensures few { IfSome result (λ c. c.from + c.count ≤ 65535) }
{
    match act {
        Act::Take { order, first } | Act::UnTake { order, first } => Some(Changed {
            granule: *first,
            from: first.number() + 1,
            count: order.size() - 1,
            also: &[],
        }),
        Act::Realm { rd, root, .. } | Act::UnRealm { rd, root, .. } => Some(Changed {
            granule: *rd,
            from: root.first.number(),
            count: root.width.start_count(),
            also: &[],
        }),
        Act::Delegate { granule }
        | Act::Undelegate { granule }
        | Act::Rtt { granule, .. }
        | Act::UnRtt { granule, .. }
        | Act::Data { granule, .. }
        | Act::Unknown { granule, .. }
        | Act::UnData { granule, .. } => one(*granule),
        Act::Rec {
            granule,
            auxiliaries,
            ..
        }
        | Act::UnRec {
            granule,
            auxiliaries,
            ..
        } => Some(Changed {
            granule: *granule,
            from: 0,
            count: 0,
            also: auxiliaries.as_slice(),
        }),
        _ => None,
    }
}

/// Returns the number of the REC that an operation makes, changes or destroys, if any.
pub fn rec_named_by(act: &Act) -> Option<RecNo>
    ensures { result ≡ rec_named_by act.now }
{
    match act {
        Act::Rec { number, .. }
        | Act::UnRec { number, .. }
        | Act::Enter { number }
        | Act::Exit { number } => Some(*number),
        _ => None,
    }
}

/// Returns whether an operation changes a realm's existence, state, measurement or next REC number.
pub fn changes_realm(act: &Act) -> bool
    ensures { result ≡ changes_realm act.now }
{
    matches!(
        act,
        Act::Realm { .. }
            | Act::UnRealm { .. }
            | Act::Activate
            | Act::Ripas { .. }
            | Act::Data { .. }
            | Act::Rec { .. }
    )
}

/// Returns the level of the parent table of a table at `level`. It is 1 for a table of level 1.
pub fn level_above(level: Level) -> Level
    ensures { result ≡ level_above level }
{
    if level.number() == 3 {
        Level::new(2).unwrap()
    } else {
        Level::start()
    }
}
