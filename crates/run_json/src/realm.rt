//! The JSON object of a build's realm, without the realm's translation table rows and RECs.
ghost use Rattle.std.specs.Prelude.{◌≡◌};
ghost use Rattle.run_json.specs.Items.{realm_item};

use crate::json::{ObjectWriter, Shown};
use crate::words::HexDigits;
use granule_addr::{BuildId, Gran, RecNo, Root, Vmid};
use page_arena::PageStore;
use realm_host::Host;
use realm_model::RealmState;
use realm_plan::realm_word;
use serde::{Described, Serialize, Serializer};

/// The JSON object of a realm, with the realm's attributes and its RD. RMM 1.0, Realm attributes.
#[derive(Clone, Copy)]
pub struct RealmItem {
    pub rd: Gran,
    pub state: RealmState,
    pub vmid: Vmid,
    pub root: Root,
    pub next_rec: RecNo,
    pub measurement: [u8; 32],
}

impl RealmItem {
    // Writes the members of the realm.
    pub(crate) fn write<W: Serializer>(&self, object: &mut ObjectWriter<'_, W>) {
        object.member("rd", self.rd.number());
        object.member("state", realm_word(self.state));
        object.member("vmid", self.vmid.number());
        object.member("width", self.root.width.number());
        object.member("table", self.root.first.number());
        object.member("tables", self.root.width.start_count());
        object.member("next_rec", self.next_rec.number());
        object.member("measurement", Shown(HexDigits(self.measurement.as_slice())));
    }
}

impl Described for RealmItem {}

impl Serialize for RealmItem {
    fn serialize<W: Serializer>(&self, out: &mut W) -> Result<(), W::Error> {
        let mut object = ObjectWriter::begin(out, Some(8));
        self.write(&mut object);
        object.end()
    }
}

/// Returns the JSON object of a build's realm, if the build has a realm.
pub fn realm_item<S: PageStore>(host: &Host<S>, build: BuildId) -> Option<RealmItem>
    ensures { result ≡ realm_item host.now build }
{
    let (Some(rd), Some(realm)) = (host.rd(build), host.realm(build)) else {
        return None;
    };
    Some(RealmItem {
        rd,
        state: realm.state(),
        vmid: realm.vmid(),
        root: realm.root(),
        next_rec: realm.next_number(),
        measurement: *realm.measurement(),
    })
}
