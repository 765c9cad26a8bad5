//! The text of a schedule, which is the value of a plan's key `order`.
ghost use Rattle.std.specs.Prelude.{◌≡◌, ◌++◌, IfOk, OnOk, string_bytes};
ghost use Rattle.view_program.specs.OrderText.{order_array, turn_in_lines, turns_in_lines, turns_on_one_line};

use std::alloc::{AllocError, Global};

/// The maximum number of turns in a schedule whose text is a single line. Such a line has up to 100 columns.
const MOST_ON_ONE: usize = 30;

/// The maximum number of turns per line if a schedule's text takes several lines. Such a line has up to 100 columns
/// too.
const TURNS_A_LINE: usize = 32;

// Appends the builds of turns as numbers, with commas between them.
fn push_on_one_line(text: &mut String, order: &[usize]) -> Result<(), AllocError>
    ensures { OnOk result (string_bytes text.new ≡ string_bytes text.old ++ turns_on_one_line order.now) }
{
    let Some((first, more)) = order.split_first() else {
        return Ok(());
    };
    write!(text, "{first}")?;
    for build in more {
        write!(text, ", {build}")?;
    }
    Ok(())
}

// Appends the turn at a place, with a comma after it. A new line begins before turn 0 and before every 32nd turn after
// it.
fn push_in_lines(text: &mut String, place: usize, build: usize) -> Result<(), AllocError>
    ensures { OnOk result (string_bytes text.new ≡ string_bytes text.old ++ turn_in_lines place build) }
{
    text.push_str(if place % TURNS_A_LINE == 0 {
        "\n    "
    } else {
        " "
    })?;
    write!(text, "{build},")
}

// Appends turns, with a comma after each. Lines have up to 32 turns.
fn push_lines(text: &mut String, order: &[usize]) -> Result<(), AllocError>
    ensures { OnOk result (string_bytes text.new ≡ string_bytes text.old ++ turns_in_lines 0 order.now) }
{
    for (place, build) in order.iter().enumerate() {
        push_in_lines(text, place, *build)?;
    }
    Ok(())
}

/// Returns the text of a schedule as a TOML array of build numbers. Up to 30 turns are on one line, and more turns are
/// in lines of up to 32.
pub fn order_array(alloc: Global, order: &[usize]) -> Result<String, AllocError>
    ensures { IfOk result (λ text. string_bytes text ≡ order_array order.now) }
{
    let mut text = String::new(alloc);
    text.push_str("[")?;
    if order.len() > MOST_ON_ONE {
        push_lines(&mut text, order)?;
        text.push_str("\n]")?;
    } else {
        push_on_one_line(&mut text, order)?;
        text.push_str("]")?;
    }
    Ok(text)
}
