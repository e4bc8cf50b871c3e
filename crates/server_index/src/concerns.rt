// The ports that a changed Server may concern, by filters of strings.
ghost use Rattle.std.specs.Prelude.{◌≡◌, slice_get};
ghost use Rattle.std.specs.FinMap.{entries};
ghost use Rattle.std.specs.List.{list_any};
ghost use Rattle.std.specs.Option.{option_copied};
ghost use Rattle.server_index.specs.Concerned.{HaveValues, concern_of, first_probe, is_concerned, may_want, wanted};

use crate::name_filter::{NameFilter, probe_of};
use label_select::selector::Selector;
use mesh_base::key::ObjKey;
use mesh_base::text::Text;
use view_types::pod::Pod;
use view_types::server::ServerSpec;

/// The ports that a changed Server may concern.
#[derive(Clone, Copy, Drop)]
pub(crate) struct Concern {
    /// The probe of the Server's name.
    pub(crate) name: u128,
    /// The probe of a value that a selected Pod has among its labels: 0 if the Server requires no
    /// label, and None if it selects no Pod.
    pub(crate) value: Option<u128>,
}

/// Returns what the Server under a key concerns.
pub(crate) fn concern_of(key: &ObjKey, server: Option<&ServerSpec>) -> Concern
    ensures { result ≡ concern_of key.now (option_copied server.entry) }
{
    Concern {
        name: probe_of(key.name.as_bytes()),
        value: wanted(server),
    }
}

fn wanted(server: Option<&ServerSpec>) -> Option<u128>
    ensures { result ≡ wanted (option_copied server.entry) }
{
    match server {
        Some(server) => match &server.pods {
            Some(selector) => Some(first_probe(selector)),
            None => None,
        },
        None => None,
    }
}

/// Returns the probe of the value of the first label that is required, and 0 if none is.
fn first_probe(selector: &Selector) -> u128
    ensures { result ≡ first_probe (slice_get (entries selector.now.exact) 0) }
{
    match selector.exact.entries().first() {
        Some(label) => probe_of(label.1.as_bytes()),
        None => 0,
    }
}

/// Whether any of these may concern a port whose Servers have these names, and whose Pod has labels
/// with these values.
pub(crate) fn any_concerns(listed: &[Concern], names: &NameFilter, values: &NameFilter) -> bool
    ensures { result ≡ list_any (is_concerned names.now values.now) listed.now }
{
    listed
        .iter()
        .any(|concern| is_concerned(concern, names, values))
}

fn is_concerned(concern: &Concern, names: &NameFilter, values: &NameFilter) -> bool
    ensures { result ≡ is_concerned names.now values.now concern.now }
{
    names.may_have(concern.name) || may_want(values, concern.value)
}

fn may_want(values: &NameFilter, value: Option<u128>) -> bool
    ensures { result ≡ may_want values.now value }
{
    match value {
        Some(probe) => values.may_have(probe),
        None => false,
    }
}

/// Returns a filter of the values of the labels of a Pod.
pub(crate) fn pod_values(pod: &Pod) -> NameFilter
    ensures { HaveValues result (entries pod.now.meta.labels) }
{
    values_of(pod.meta.labels.entries())
}

fn values_of(labels: &[(Text, Text)]) -> NameFilter
    ensures { HaveValues result labels.now }
{
    let mut values = NameFilter::new();
    for label in labels {
        values.insert(probe_of(label.1.as_bytes()));
    }
    values
}
