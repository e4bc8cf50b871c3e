// A port of a Pod, and the objects from which its row is computed.
use mark_rules::keys::ServerKey;
use policy_rows::snapshot::Snapshot;
use view_types::pod::Pod;

/// The key of a row, and the inputs of the row.
#[derive(Clone, Copy)]
pub(crate) struct Port<'a> {
    pub(crate) from: &'a Snapshot<'a>,
    pub(crate) key: &'a ServerKey,
}

/// The same, with the Pod.
#[derive(Clone, Copy)]
pub(crate) struct PodPort<'a> {
    pub(crate) from: &'a Snapshot<'a>,
    pub(crate) key: &'a ServerKey,
    pub(crate) pod: &'a Pod,
}
