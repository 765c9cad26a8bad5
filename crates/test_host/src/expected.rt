//! Functions that compare values with the values that a test expects.
//!
//! A test is proved before it runs, and each comparison in its body branches: written out there, a row of them costs
//! far more than a row of these calls.
ghost use Rattle.std.specs.Prelude.{◌≡◌, ◌++◌, ◌∷◌, []};

use page_arena::BuildError;
use std::process::Abort;

/// Checks that a number is the expected one.
pub(crate) fn equal(rt: &impl Abort, what: &str, seen: u64, want: u64) {
    assert_eq!(rt; seen, want, "{what}");
}

/// Checks that a string is the expected one.
pub(crate) fn same_text(rt: &impl Abort, seen: &str, want: &str) {
    assert_eq!(rt; seen, want);
}

/// Checks that a condition holds.
pub(crate) fn holds(rt: &impl Abort, what: &str, is_so: bool) {
    equal(rt, what, u64::from(is_so), 1);
}

/// Checks that a condition holds for one row of a table of test cases. `place` is the index of the row.
pub(crate) fn holds_at(rt: &impl Abort, what: &str, place: usize, is_so: bool) {
    assert!(rt; is_so, "{what}, row {place}");
}

/// Adds a value to a list, or aborts the test if there is no memory for it.
pub(crate) fn push<T>(rt: &impl Abort, values: &mut Vec<T>, value: T)
    ensures { values.new.items ≡ values.old.items ++ value ∷ [] }
{
    match values.push(value) {
        Ok(()) => {}
        Err(_) => panic!(rt; "memory"),
    }
}

/// Returns the page store, or aborts the test if the store could not be built.
pub(crate) fn built<S>(rt: &impl Abort, store: Result<S, BuildError>) -> S {
    match store {
        Ok(store) => store,
        Err(_) => panic!(rt; "there is no store"),
    }
}
