//! The HTML page of a run, made from the run's data in JSON.
ghost use Rattle.std.specs.Prelude.{◌≡◌, ◌++◌, OnOk, IfOk};
ghost use Rattle.run_json.specs.Page.{data_element, escaped, page_bytes};

use crate::template::{HEAD, TAIL};
use std::alloc::{AllocError, Global};

// Appends JSON text with each `<` written as an escape, so that no HTML tag begins in the text.
fn push_escaped(page: &mut Vec<u8>, json: &[u8]) -> Result<(), AllocError>
    ensures { OnOk result (page.new.items ≡ page.old.items ++ escaped json.now) }
{
    for byte in json {
        if *byte == b'<' {
            page.extend_from_slice(b"\\u003c")?;
        } else {
            page.push(*byte)?;
        }
    }
    Ok(())
}

// Appends the script element of the data.
fn push_data(page: &mut Vec<u8>, json: &[u8]) -> Result<(), AllocError>
    ensures { OnOk result (page.new.items ≡ page.old.items ++ data_element json.now) }
{
    page.extend_from_slice(b"<script id=\"data\" type=\"application/json\">")?;
    push_escaped(page, json)?;
    page.extend_from_slice(b"</script>")?;
    Ok(())
}

/// Puts the JSON data of a run into the HTML page template. The page is the template's head, a script element with the
/// data in JSON, and the template's tail. In the data each `<` is written as `\u003c`, so that the data cannot end the
/// element. The one error is that allocation failed.
pub fn page_of(alloc: Global, json: &[u8]) -> Result<Vec<u8>, AllocError>
    ensures { IfOk result (λ page. page.items ≡ page_bytes json.now) }
{
    let mut page = Vec::new(alloc);
    page.extend_from_slice(HEAD.as_bytes())?;
    push_data(&mut page, json)?;
    page.extend_from_slice(TAIL.as_bytes())?;
    Ok(page)
}
