// Keys in the namespace app.
use mesh_base::key::{Kind, ObjKey};
use mesh_base::memory::Memory;
use mesh_base::text::Text;
use std::alloc::Global;

pub(crate) fn key(alloc: Global, kind: Kind, name: &str) -> Result<ObjKey, Memory> {
    Ok(ObjKey {
        kind,
        ns: Text::from_str(alloc, "app")?,
        name: Text::from_str(alloc, name)?,
    })
}

pub(crate) fn slice(alloc: Global, name: &str) -> Result<ObjKey, Memory> {
    key(alloc, Kind::EndpointSlice, name)
}
