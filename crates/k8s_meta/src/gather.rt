ghost use Rattle.std.specs.Prelude.{◌≡◌, ◌∷◌, ◌++◌, [], List as Row, OnOk, option_to_list};
ghost use Rattle.serde_json.specs.View.{items_view};
ghost use Rattle.k8s_meta.specs.Lists.{each, each_from, each_some, gathered};
ghost use Rattle.k8s_meta.specs.Spots.{◌·◌, Reads, seen};

use crate::fault::ReadFault;
use crate::key::Key;
use crate::place::Place;
use crate::reader::Reader;
use mesh_base::list::List;
use mesh_base::memory::Memory;
use serde_json::Value;

/// A way to add an item that was read to the list of results.
pub trait Gather<A> {
    type Item: Drop;

    ghost parts: { A → Row Self.Item };

    fn put(found: &mut List<Self::Item>, read: A) -> Result<(), Memory>
        ensures { OnOk result (found.new ≡ found.old ++ parts read) };
}

/// The item itself.
pub struct Single;

impl<T: Drop> Gather<T> for Single {
    type Item = T;

    ghost parts = { λ x. x ∷ [] };

    fn put(found: &mut List<T>, read: T) -> Result<(), Memory> {
        found.add(read)
    }
}

/// The value of an optional item. None adds nothing.
pub struct Present;

impl<T: Drop> Gather<Option<T>> for Present {
    type Item = T;

    ghost parts = { option_to_list };

    fn put(found: &mut List<T>, read: Option<T>) -> Result<(), Memory> {
        match read {
            Some(item) => found.add(item),
            None => Ok(()),
        }
    }
}

#[tactic(auto, unfolding(crate::specs::Spots::then, crate::specs::Lists::each, crate::specs::Words::default))]
fn read_list<'a, R: Reader, G: Gather<R::Made>>(
    place: &'a Place<'a>,
    reader: &R,
) -> Result<List<G::Item>, ReadFault>
    ensures { Reads result (gathered G.parts (each (R.reading reader.now) (seen place.now))) }
{
    if place.is_absent() {
        return Ok(List::new(place.alloc()));
    }
    let list = place.list()?;
    read_items::<R, G>(place, list, reader)
}

fn read_items<'a, R: Reader, G: Gather<R::Made>>(
    place: &'a Place<'a>,
    list: &'a [Value],
    reader: &R,
) -> Result<List<G::Item>, ReadFault>
    ensures { Reads result
        (gathered G.parts
        (each_from (R.reading reader.now) (seen place.now).at 0 (items_view list.now))) }
{
    let mut found = List::new(place.alloc());
    for i in 0..list.len() {
        let read = reader.read(&place.item(i, &list[i]))?;
        G::put(&mut found, read)?;
    }
    Ok(found)
}

impl<'a> Place<'a> {
    /// Reads the items of the list at a member. An absent list is empty.
    pub fn each<R: Reader>(&'a self, key: Key, reader: &R) -> Result<List<R::Made>, ReadFault>
        ensures { Reads result (each (R.reading reader.now) ((seen self.now) · key)) }
    {
        read_list::<R, Single>(&self.member(key), reader)
    }

    /// Reads the optional items of the list at a member. Items without a value are left out.
    pub fn each_some<T: Drop, R: Reader<Made = Option<T>>>(
        &'a self,
        key: Key,
        reader: &R,
    ) -> Result<List<T>, ReadFault>
        ensures { Reads result (each_some (R.reading reader.now) ((seen self.now) · key)) }
    {
        read_list::<R, Present>(&self.member(key), reader)
    }
}
