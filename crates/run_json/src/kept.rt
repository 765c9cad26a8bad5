//! The JSON members `mark` and `aborting` of a build: its mark, if it has one, and whether it is in abort.
ghost use Rattle.std.specs.Prelude.{◌≡◌};
ghost use Rattle.run_json.specs.Items.{build_kept};

use crate::json::ObjectWriter;
use granule_addr::BuildId;
use page_arena::PageStore;
use realm_host::Host;
use serde::Serializer;

/// The members `mark` and `aborting` in the JSON object of a build or of a turn. `mark` is the number of operations
/// that the build had open at its mark, if it has one. `aborting` is whether the build is in abort.
#[derive(Clone, Copy)]
pub struct BuildKept {
    pub mark: Option<u16>,
    pub aborting: bool,
}

impl BuildKept {
    // Writes the members `mark` and `aborting`.
    pub(crate) fn write<W: Serializer>(&self, object: &mut ObjectWriter<'_, W>) {
        object.member("mark", self.mark);
        object.member("aborting", self.aborting);
    }
}

/// Returns the JSON members `mark` and `aborting` of a build, with the values that the host has.
pub fn build_kept<S: PageStore>(host: &Host<S>, build: BuildId) -> BuildKept
    ensures { result ≡ build_kept host.now build }
{
    let mark = match host.kept_mark(build) {
        Some(mark) => Some(mark.length()),
        None => None,
    };
    BuildKept {
        mark,
        aborting: host.is_aborting(build),
    }
}
