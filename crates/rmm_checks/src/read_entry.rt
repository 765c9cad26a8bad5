//! The checks of RMI_RTT_READ_ENTRY.
ghost use Rattle.std.specs.Prelude.{◌≡◌};
ghost use Rattle.rmm_model.specs.Command.RttReadEntry.{rtt_read_entry as reading};
ghost use Rattle.rmm_checks.specs.Evaluated.{evaluated};

use crate::EvaluatedChecks;
use crate::realm::{add_ipa, add_rd, start_level_at};
use page_arena::PageStore;
use rmm_granules::Granules;

// The checks of RMI_RTT_READ_ENTRY.
pub fn rtt_read_entry<S: PageStore>(
    granules: &Granules<S>,
    rd: u64,
    ipa: u64,
    level: u64,
) -> EvaluatedChecks
    ensures { result ≡ evaluated (reading rd ipa level granules.now).checks }
{
    let mut checks = EvaluatedChecks::new();
    add_rd(&mut checks, granules, rd);
    let least = start_level_at(granules, rd);
    add_ipa(&mut checks, granules, rd, least, level, 0, ipa);
    checks
}
