//! Boots a host for the machine that a history describes.
ghost use Rattle.std.specs.Prelude.{◌≡◌, IfOk};
ghost use Rattle.history_text.specs.Histories.{IsSize};
ghost use Rattle.view_program.specs.Applied.{host_of_opening};

use buddy::BuddyArena;
use history_text::Opening;
use realm_host::{Host, Settings};
use realm_program::boot_by;
use std::alloc::{AllocError, Global};

/// Boots a host with the settings in the first line of a history. All pages of the host are free.
pub fn boot(alloc: Global, opening: &Opening) -> Result<Host<BuddyArena>, AllocError>
    requires { IsSize opening.now }
    ensures { IfOk result (λ host. host ≡ host_of_opening opening.now) }
{
    let settings = Settings::new(
        opening.vmids,
        opening.aux,
        opening.history,
        opening.builds,
    ).unwrap();
    boot_by(alloc, settings, opening.pages)
}
