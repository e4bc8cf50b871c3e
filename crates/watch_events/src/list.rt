ghost use Rattle.std.specs.Prelude.{◌≡◌, ℕ, IfOk, option_map};
ghost use Rattle.k8s_meta.specs.Lists.{each};
ghost use Rattle.k8s_meta.specs.Spots.{◌·◌, seen};
ghost use Rattle.k8s_meta.specs.declared.key.Key.TheVariants as keys;
ghost use Rattle.watch_events.specs.Given.{Gives};
ghost use Rattle.watch_events.specs.ListLines.{item_kind, list_of, repeated, unless_repeated};
ghost use Rattle.watch_events.specs.Reading.{of_object};

use crate::fault::object_fault;
use crate::form::Form;
use crate::kinds::kind_of;
use crate::line::LineFault;
use crate::table::KindTable;
use k8s_meta::fault::ReadFault;
use k8s_meta::key::Key;
use k8s_meta::place::Place;
use k8s_meta::reader::Reader;
use mesh_base::list::List;
use mesh_base::memory::Memory;
use std::alloc::Global;
use std::collections::BTreeSet;

/// Returns the name of the kind of the items of a list, whose own kind is such as `ServiceList`.
pub fn item_kind(kind: &str) -> Option<&[u8]>
    ensures { option_map (λ name. name.now) result ≡ item_kind kind.now }
{
    kind.as_bytes().strip_suffix(b"List")
}

/// An object of a kind of a table.
#[derive(Drop)]
struct ItemOf<'t, T: KindTable> {
    table: &'t T,
    kind: T::Kind,
}

impl<T: KindTable> Reader for ItemOf<'_, T> {
    type Made = T::Object;

    ghost reading = { λ reader. (T.table reader.table.now).object reader.kind };

    fn read<'a>(&self, place: &'a Place<'a>) -> Result<T::Object, ReadFault> {
        self.table.read_object(self.kind, place)
    }
}

fn read_items<'a, T: KindTable>(
    table: &T,
    kind: T::Kind,
    list: &'a Place<'a>,
) -> Result<List<T::Object>, LineFault>
    ensures { Gives result
        (of_object (each ((T.table table.now).object kind) ((seen list.now) · keys.Items))) }
{
    match list.each(Key::Items, &ItemOf { table, kind }) {
        Ok(items) => Ok(items),
        Err(fault) => Err(object_fault(fault)),
    }
}

// Returns the index of the first item with the key of an earlier one.
fn repeated<T: KindTable>(
    alloc: Global,
    table: &T,
    items: &[T::Object],
) -> Result<Option<usize>, Memory>
    ensures { IfOk result (λ place. place ≡ repeated (T.table table.now) items.now) }
{
    let mut seen = BTreeSet::new(alloc);
    for place in 0..items.len() {
        if !seen.insert(table.key(alloc, &items[place])?)? {
            return Ok(Some(place));
        }
    }
    Ok(None)
}

fn unless_repeated<C: Drop, M: Drop, K: Drop>(
    kind: C,
    items: List<M>,
    place: Option<usize>,
) -> Result<Form<C, M, K>, LineFault>
    ensures { Gives result (unless_repeated kind items place) }
{
    match place {
        None => Ok(Form::Relist { kind, items }),
        Some(place) => Err(LineFault::RepeatedItem {
            place: place as u64,
        }),
    }
}

/// Reads a list with items of the kind with this name, by a table of kinds.
#[tactic(auto, unfolding(crate::specs::Reading::then, crate::specs::ListLines::list_of))]
pub fn read_list<'a, T: KindTable>(
    table: &T,
    name: &[u8],
    list: &'a Place<'a>,
) -> Result<Form<T::Kind, T::Object, T::Key>, LineFault>
    ensures { Gives result (list_of (T.table table.now) name.now (seen list.now)) }
{
    let kind = kind_of(table, name, list)?;
    let items = read_items(table, kind, list)?;
    let place = repeated(list.alloc(), table, items.as_slice())?;
    unless_repeated(kind, items, place)
}
