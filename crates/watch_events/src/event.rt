use mesh_base::key::{Kind, ObjKey};
use mesh_base::list::List;
use view_types::object::Object;

/// The contents of a watch event or a list.
#[derive(Drop)]
pub enum Event {
    /// Puts the object.
    Set(Object),
    /// Removes the object under the key.
    Delete(ObjKey),
    /// Replaces all objects of the kind, in all namespaces, by the items.
    Relist { kind: Kind, items: List<Object> },
    /// The watch has progressed to this point.
    Bookmark,
}
