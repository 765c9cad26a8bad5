//! The text of a schedule in a plan.
use std::fmt;

/// The text of a schedule's turns after the first. Each turn is given by its build, after a comma and a space.
#[derive(Clone, Copy)]
struct MoreTurns<'a>(&'a [usize]);

impl fmt::Display for MoreTurns<'_> {
    ghost use Rattle.std.specs.Prelude.{Some};
    ghost use Rattle.plan_states.specs.OrderText.{turns_after};

    ghost output = { λ schedule. Some (turns_after schedule.0.now) };

    fn fmt<W: fmt::Write>(&self, f: &mut fmt::Formatter<W>) -> fmt::Result {
        for build in self.0 {
            write!(f, ", {build}")?;
        }
        Ok(())
    }
}

/// A schedule as the line `order = [..]` of a plan.
#[derive(Clone, Copy)]
pub(crate) struct ScheduleText<'a>(pub &'a [usize]);

impl fmt::Display for ScheduleText<'_> {
    ghost use Rattle.std.specs.Prelude.{Some};
    ghost use Rattle.plan_states.specs.OrderText.{schedule_text};

    ghost output = { λ schedule. Some (schedule_text schedule.0.now) };

    fn fmt<W: fmt::Write>(&self, f: &mut fmt::Formatter<W>) -> fmt::Result {
        match self.0.split_first() {
            Some((first, more)) => write!(f, "order = [{first}{}]", MoreTurns(more)),
            None => f.write_str("order = []"),
        }
    }
}
