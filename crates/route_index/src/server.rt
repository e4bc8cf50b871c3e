// A Server, and the objects from which its routes are found.
use mark_rules::keys::RouteKey;
use object_store::store::Store;
use std::alloc::Global;

/// The key of a row, and the store in which the row is found.
#[derive(Clone, Copy)]
pub(crate) struct Server<'a> {
    pub(crate) alloc: Global,
    pub(crate) store: &'a Store,
    pub(crate) key: &'a RouteKey,
}
