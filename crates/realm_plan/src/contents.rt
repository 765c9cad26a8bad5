//! The values of a plan's TOML keys, before they are checked against their limits.
ghost use Rattle.std.specs.Prelude.{◌≡◌, List, map, Some, None, IfOk, option_map, option_and_then};
ghost use Rattle.std.specs.List.{list_any};
ghost use Rattle.std.specs.Str.{bytes_eq};
ghost use Rattle.toml.specs.Data.{get_member, as_array};
ghost use Rattle.toml.specs.View.{view, array_view, table_view};
ghost use Rattle.realm_plan.specs.Contents.{has_only, whole_of, integers_at, integers_of, texts_of, step_texts_of, build_texts_of, builds_at, order_numbers_of};

use std::alloc::{AllocError, Global};
use toml::value::Array;
use toml::{Table, Value};

/// Returns the value of a key in a TOML table, if the key is there.
fn value_at<'a>(table: &'a Table, key: &str) -> Option<&'a Value>
    ensures { option_map (λ v. view v.now) result ≡ get_member key.now (table_view table.now) }
{
    table.get(key)
}

/// Returns the array at a key of a TOML table, if there is one.
fn array_at<'a>(table: &'a Table, key: &str) -> Option<&'a Array>
    ensures { option_map (λ a. array_view a.now) result
        ≡ option_and_then as_array (get_member key.now (table_view table.now)) }
{
    value_at(table, key)?.as_array()
}

/// Returns the integer at a key, or the default if the TOML table lacks the key. Returns `None` if the value is not an
/// integer, or if key and default are both missing.
fn integer_at(table: &Table, key: &str, default: Option<i64>) -> Option<i64>
    ensures { result ≡ whole_of default (get_member key.now (table_view table.now)) }
{
    match value_at(table, key) {
        Some(value) => value.as_integer(),
        None => default,
    }
}

/// The integers at a plan's keys `pages`, `vmids`, `aux` and `history`.
#[derive(Clone, Copy)]
struct PlanIntegers {
    pages: i64,
    vmids: i64,
    aux: i64,
    history: i64,
}

/// Returns the integers at the keys `pages`, `vmids`, `aux` and `history`. Missing keys have defaults, but `pages` has
/// none.
#[tactic(auto, unfolding(crate::specs::Contents::integers_at))]
fn integers_at(table: &Table) -> Option<PlanIntegers>
    ensures { result ≡ integers_at (table_view table.now) }
{
    let pages = integer_at(table, "pages", None)?;
    let vmids = integer_at(table, "vmids", Some(8))?;
    let aux = integer_at(table, "aux", Some(0))?;
    let history = integer_at(table, "history", Some(1024))?;
    Some(PlanIntegers {
        pages,
        vmids,
        aux,
        history,
    })
}

/// Returns the elements of a TOML array as integers. Returns `None` if an element is not an integer.
fn integers_of(alloc: Global, array: &Array) -> Result<Option<Vec<i64>>, AllocError>
    ensures { IfOk result (λ r. option_map (λ v. v.items) r ≡ integers_of (array_view array.now)) }
{
    let mut found = Vec::new(alloc);
    for value in array {
        match value.as_integer() {
            Some(whole) => found.push(whole)?,
            None => return Ok(None),
        }
    }
    Ok(Some(found))
}

/// Returns the elements of a TOML array as strings. Returns `None` if an element is not a string.
fn texts_of<'a>(alloc: Global, array: &'a Array) -> Result<Option<Vec<&'a str>>, AllocError>
    ensures { IfOk result (λ r. option_map (λ v. map (λ t. t.now) v.items) r ≡ texts_of (array_view array.now)) }
{
    let mut found = Vec::new(alloc);
    for value in array {
        let Some(text) = value.as_str() else {
            return Ok(None);
        };
        found.push(text)?;
    }
    Ok(Some(found))
}

fn is_among(names: &[&str], key: &str) -> bool
    ensures { result ≡ list_any (bytes_eq key.now) (map (λ n. n.now) names.now) }
{
    names.contains(&key)
}

/// Returns whether each key of a TOML table is in the list `names`.
fn has_only_keys(table: &Table, names: &[&str]) -> bool
    ensures { result ≡ has_only (map (λ n. n.now) names.now) (table_view table.now) }
{
    for key in table.keys() {
        if !is_among(names, key.as_str()) {
            return false;
        }
    }
    true
}

/// Returns the texts of a build's steps from the TOML value of the build. Returns `None` if `value` is not a table with
/// the single key `steps` and an array of strings.
fn steps_of<'a>(alloc: Global, value: &'a Value) -> Result<Option<Vec<&'a str>>, AllocError>
    ensures { IfOk result (λ r. option_map (λ v. map (λ t. t.now) v.items) r ≡ step_texts_of (view value.now)) }
{
    let Some(table) = value.as_table() else {
        return Ok(None);
    };
    if !has_only_keys(table, &["steps"]) {
        return Ok(None);
    }
    let Some(array) = array_at(table, "steps") else {
        return Ok(None);
    };
    texts_of(alloc, array)
}

/// Returns the texts of each build's steps from a plan's array of builds. Returns `None` if an element is not a build
/// as in `steps_of`.
fn builds_of<'a>(alloc: Global, array: &'a Array) -> Result<Option<Vec<Vec<&'a str>>>, AllocError>
    ensures { IfOk result (λ r. option_map (λ v. map (λ b. map (λ t. t.now) b.items) v.items) r
        ≡ build_texts_of (array_view array.now)) }
{
    let mut found = Vec::new(alloc);
    for value in array {
        let Some(steps) = steps_of(alloc, value)? else {
            return Ok(None);
        };
        found.push(steps)?;
    }
    Ok(Some(found))
}

/// Returns the texts of each build's steps from the TOML document of a plan.
fn builds_at<'a>(alloc: Global, table: &'a Table) -> Result<Option<Vec<Vec<&'a str>>>, AllocError>
    ensures { IfOk result (λ r. option_map (λ v. map (λ b. map (λ t. t.now) b.items) v.items) r
        ≡ builds_at (table_view table.now)) }
{
    let Some(array) = array_at(table, "build") else {
        return Ok(None);
    };
    builds_of(alloc, array)
}

/// Returns the entries of a plan's schedule from the value of its key `order`. Returns `None` if `value` is not an
/// array of integers. A missing value means an empty schedule.
fn order_of(alloc: Global, value: Option<&Value>) -> Result<Option<Vec<i64>>, AllocError>
    ensures { IfOk result (λ r. option_map (λ v. v.items) r
        ≡ order_numbers_of (option_map (λ v. view v.now) value.entry)) }
{
    let Some(value) = value else {
        return Ok(Some(Vec::new(alloc)));
    };
    let Some(array) = value.as_array() else {
        return Ok(None);
    };
    integers_of(alloc, array)
}

/// The values of a plan's TOML keys, not yet checked against their limits.
#[derive(Drop)]
pub struct Contents<'a> {
    pub pages: i64,
    pub vmids: i64,
    pub aux: i64,
    pub history: i64,
    pub order: Vec<i64>,
    pub builds: Vec<Vec<&'a str>>,
}

impl<'a> Contents<'a> {
    ghost use Rattle.realm_plan.specs.Contents.{contents_of};
    ghost use Rattle.realm_plan.specs.ContentsView.{contents_view};

    /// Reads the values of a plan's keys from the plan's TOML document. Returns `None` if a required key is missing, if
    /// a key is unknown, or if a value has the wrong type.
    #[tactic(auto, unfolding(crate::specs::Contents::contents_of))]
    pub fn of(alloc: Global, table: &'a Table) -> Result<Option<Contents<'a>>, AllocError>
        ensures { IfOk result (λ r. option_map contents_view r ≡ contents_of (table_view table.now)) }
    {
        if !has_only_keys(
            table,
            &["pages", "vmids", "aux", "history", "order", "build"],
        ) {
            return Ok(None);
        }
        let Some(wholes) = integers_at(table) else {
            return Ok(None);
        };
        let Some(order) = order_of(alloc, value_at(table, "order"))? else {
            return Ok(None);
        };
        let Some(builds) = builds_at(alloc, table)? else {
            return Ok(None);
        };
        Ok(Some(Contents {
            pages: wholes.pages,
            vmids: wholes.vmids,
            aux: wholes.aux,
            history: wholes.history,
            order,
            builds,
        }))
    }
}
