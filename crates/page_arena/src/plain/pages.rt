//! Functions that create, clear, fill and copy the pages of `PlainStore`, each an array of 4,096 bytes.
ghost use Rattle.std.specs.Prelude.{◌≡◌, ◌≢◌, ◌+◌, ◌<◌, ◌≤◌, length, replicate, IfOk, slice_set};
ghost use Rattle.granule_addr.specs.Page.{page_of, zero_page};
ghost use Rattle.page_arena.specs.Page.{page_at};
ghost use Rattle.page_arena.specs.Block.{with_run};

use std::alloc::{AllocError, Global};

// `count` pages of zeros.
pub(crate) fn zero_pages(alloc: Global, count: usize) -> Result<Vec<[u8; 4096]>, AllocError>
    ensures { IfOk result (λ pages. pages.items ≡ replicate count zero_page) }
{
    let mut pages = Vec::with_capacity(alloc, count)?;
    for _i in 0..count {
        pages.push([0; 4096])?;
    }
    Ok(pages)
}

// Clears the `count` pages from `first` on.
pub(crate) fn clear_run(pages: &mut [[u8; 4096]], first: usize, count: usize)
    requires { first + count ≤ length pages.old }
    ensures { pages.new ≡ with_run pages.old first count zero_page }
{
    for i in first..first + count {
        fill_page(pages, i, 0);
    }
}

// Writes one value to each byte of a page.
pub(crate) fn fill_page(pages: &mut [[u8; 4096]], page: usize, value: u8)
    requires { page < length pages.old }
    ensures { pages.new ≡ slice_set pages.old page (page_of value) }
{
    pages[page].fill(value);
}

// Writes the bytes of one page to another.
pub(crate) fn copy_page(pages: &mut [[u8; 4096]], target: usize, source: usize)
    requires target { target < length pages.old }
    requires source { source < length pages.old }
    requires different { target ≢ source }
    ensures { pages.new ≡ slice_set pages.old target (page_at pages.old source) }
{
    if target < source {
        let (front, back) = pages.split_at_mut(source);
        front[target].copy_from_slice(&back[0]);
    } else {
        let (front, back) = pages.split_at_mut(target);
        back[0].copy_from_slice(&front[source]);
    }
}
