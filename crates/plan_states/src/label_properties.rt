//! Properties of edge labels, by which the schedules of a state graph are counted.
ghost use Rattle.std.specs.Prelude.{◌≡◌, option_map};
ghost use Rattle.plan_states.specs.LabelProperties.{has_number, is_asked, refuses_asked};

use crate::edges::Label;
use crate::step_end::EndOfStep;
use schedule_graph::LabelProperty;

// Whether there is a number `other`, and it equals `number`.
fn has_number(number: usize, other: Option<usize>) -> bool
    ensures { result ≡ has_number number other }
{
    match other {
        Some(other) => other == number,
        None => false,
    }
}

/// The property that a label's turn ends a step with a given outcome. The field is the index of the outcome.
#[derive(Clone, Copy)]
pub(crate) struct HasEnd(pub(crate) usize);

impl LabelProperty<Label> for HasEnd {
    ghost use Rattle.plan_states.specs.LabelProperties.{has_number};

    ghost holds_for = { λ property label. has_number property.0 label.end };

    fn holds_for(&self, label: &Label) -> bool {
        has_number(self.0, label.end)
    }
}

/// The property that a label's turn ends a schedule with a given page map. The field is the index of the map.
#[derive(Clone, Copy)]
pub(crate) struct HasMap(pub(crate) usize);

impl LabelProperty<Label> for HasMap {
    ghost use Rattle.plan_states.specs.LabelProperties.{has_number};

    ghost holds_for = { λ property label. has_number property.0 label.map };

    fn holds_for(&self, label: &Label) -> bool {
        has_number(self.0, label.map)
    }
}

/// The property that a label's turn ends a step of `build` with a refusal. If `build` is `None`, the step may be one of
/// any build.
#[derive(Clone, Copy)]
pub(crate) struct HasRefusal<'a> {
    pub(crate) ends: &'a [EndOfStep],
    pub(crate) build: Option<usize>,
}

// Whether `asked` is `build`, or is `None`, which means every build.
fn is_asked(asked: Option<usize>, build: usize) -> bool
    ensures { result ≡ is_asked asked build }
{
    match asked {
        Some(one) => one == build,
        None => true,
    }
}

impl LabelProperty<Label> for HasRefusal<'_> {
    ghost use Rattle.plan_states.specs.LabelProperties.{is_refusal_of};

    ghost holds_for = { λ property label. is_refusal_of property.ends.now property.build label };

    fn holds_for(&self, label: &Label) -> bool {
        let Some(number) = label.end else {
            return false;
        };
        match self.ends.get(number) {
            Some(end) => end.refusal.is_some() && is_asked(self.build, end.build),
            None => false,
        }
    }
}
