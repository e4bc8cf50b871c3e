ghost use Rattle.std.specs.Prelude.{◌≡◌, IfOk};
ghost use Rattle.std.specs.FinMap as map;
ghost use Rattle.serde_json.specs.View.{members_view};
ghost use Rattle.k8s_meta.specs.Lists.{label_map, labels_from};
ghost use Rattle.k8s_meta.specs.Spots.{◌·◌, Reads, seen};

use crate::fault::ReadFault;
use crate::key::Key;
use crate::place::Place;
use crate::strings::string_in;
use mesh_base::labels::Labels;
use mesh_base::memory::Memory;
use mesh_base::text::Text;
use serde_json::{Map, Value};
use std::alloc::Global;

fn labels_of(alloc: Global, members: &Map<String, Value>) -> Result<Option<Labels>, Memory>
    ensures { IfOk result (λ o. o ≡ labels_from map.empty (members_view members.now.entries)) }
{
    let mut found = Labels::new(alloc);
    for (key, value) in members.iter() {
        if value.is_null() {
            continue;
        }
        let Some(text) = string_in(value) else {
            return Ok(None);
        };
        let key = Text::from_str(alloc, key.as_str())?;
        let value = Text::from_str(alloc, text)?;
        found.put(key, value)?;
    }
    Ok(Some(found))
}

/// Reads an object of strings. Members that are null are left out.
#[tactic(auto, unfolding(crate::specs::Lists::label_map, crate::specs::Words::default))]
fn labels_here<'a>(place: &'a Place<'a>) -> Result<Labels, ReadFault>
    ensures { Reads result (label_map (seen place.now)) }
{
    if place.is_absent() {
        return Ok(Labels::new(place.alloc()));
    }
    let members = place.members()?;
    match labels_of(place.alloc(), members)? {
        Some(found) => Ok(found),
        None => Err(place.wrong_type()),
    }
}

impl<'a> Place<'a> {
    /// Reads the map of strings at a member, empty if absent. An error has the path of the map.
    pub fn labels(&'a self, key: Key) -> Result<Labels, ReadFault>
        ensures { Reads result (label_map ((seen self.now) · key)) }
    {
        labels_here(&self.member(key))
    }
}
