//! The objects of a document.

ghost use Rattle.std.specs.Prelude.{◌≡◌, ◌<◌, ◌^◌, option_map};
ghost use Rattle.serde_json.specs.View.{view, members_view};
ghost use Rattle.prov_export.specs.inner.ObjectRefs.{objects_seen};
ghost use Rattle.prov_export.specs.Reading.{count, objects_of, node_count, edge_count};

use crate::members::{Members, members_at};
use serde_json::Value;

/// The members of each object of a document.
#[derive(Drop)]
pub(crate) struct ObjectRefs<'a> {
    pub(crate) entities: &'a Members,
    pub(crate) activities: &'a Members,
    pub(crate) used: &'a Members,
    pub(crate) generated: &'a Members,
    pub(crate) derived: &'a Members,
    pub(crate) informed: &'a Members,
}

/// The objects of a document, if it has them all.
pub(crate) fn objects_of(document: &Value) -> Option<ObjectRefs<'_>>
    ensures { option_map objects_seen result ≡ objects_of (view document.now) }
{
    Some(ObjectRefs {
        entities: members_at(document, "entity")?,
        activities: members_at(document, "activity")?,
        used: members_at(document, "used")?,
        generated: members_at(document, "wasGeneratedBy")?,
        derived: members_at(document, "wasDerivedFrom")?,
        informed: members_at(document, "wasInformedBy")?,
    })
}

fn count(members: &Members) -> u128
    ensures count { result ≡ count (members_view members.now.entries) }
    ensures small { result < 2 ^ 63 }
{
    members.len() as u128
}

impl<'a> ObjectRefs<'a> {
    /// The number of nodes.
    pub(crate) fn node_count(&self) -> u128
        ensures { result ≡ node_count (objects_seen self.now) }
    {
        count(self.entities) + count(self.activities)
    }

    /// The number of edges.
    pub(crate) fn edge_count(&self) -> u128
        ensures { result ≡ edge_count (objects_seen self.now) }
    {
        count(self.used) + (count(self.generated) + (count(self.derived) + count(self.informed)))
    }
}
