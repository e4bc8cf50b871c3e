use object_store::store::Store;
use std::alloc::Global;
use view_types::config::Config;

/// The inputs of views: the configuration and the objects held.
#[derive(Clone, Copy)]
pub struct Snapshot<'a> {
    pub alloc: Global,
    pub config: &'a Config,
    pub store: &'a Store,
}
