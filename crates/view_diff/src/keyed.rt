//! The messages for a change of rows that have keys.
ghost use Rattle.std.specs.Prelude.{◌≡◌, ◌≤◌, ◌++◌, IfOk, OnOk, map};
ghost use Rattle.mesh_base.specs.Keyed.{IsKeyed};
ghost use Rattle.view_rules.specs.Batch.{messages_of};
ghost use Rattle.view_rules.specs.ByKey.{changed_from, gone_keys};

use crate::cut::in_pieces;
use crate::merge::{Changes, find_changes};
use mesh_base::list::List;
use mesh_base::memory::Memory;
use row_places::keyed::KeyedRow;
use std::alloc::Global;
use view_types::message::Message;

/// Returns the messages from the old rows to the new ones. Both lists must be sorted by key, each
/// key once.
pub(crate) fn keyed_batch<T: KeyedRow>(
    alloc: Global,
    old: &[T],
    new: &[T],
    size: usize,
) -> Result<List<Message>, Memory>
    requires size { 1 ≤ size }
    requires old { IsKeyed T.cmp T.key_of (λ row. row) old.now }
    requires new { IsKeyed T.cmp T.key_of (λ row. row) new.now }
    ensures { IfOk result (λ messages. messages ≡ messages_of T.put T.gone size
        (changed_from T.same old.now new.now) (gone_keys T.cmp T.key_of old.now new.now)) }
{
    messages_of::<T>(alloc, find_changes(alloc, old, new)?, size)
}

/// The messages for the changed rows, followed by those for the removed keys. Each has `size`
/// entries; the last of either kind may have fewer.
pub(crate) fn messages_of<T: KeyedRow>(
    alloc: Global,
    found: Changes<T, T::Key>,
    size: usize,
) -> Result<List<Message>, Memory>
    requires { 1 ≤ size }
    ensures { IfOk result (λ messages.
        messages ≡ messages_of T.put T.gone size found.changed found.gone) }
{
    let Changes { changed, gone } = found;
    let mut messages = List::new(alloc);
    add_changed::<T>(&mut messages, in_pieces(alloc, changed, size)?)?;
    add_gone::<T>(&mut messages, in_pieces(alloc, gone, size)?)?;
    Ok(messages)
}

fn add_changed<T: KeyedRow>(
    messages: &mut List<Message>,
    pieces: List<List<T>>,
) -> Result<(), Memory>
    ensures { OnOk result (messages.new ≡ messages.old ++ map T.put pieces) }
{
    for rows in pieces.into_vec() {
        messages.add(T::put_message(rows))?;
    }
    Ok(())
}

fn add_gone<T: KeyedRow>(
    messages: &mut List<Message>,
    pieces: List<List<T::Key>>,
) -> Result<(), Memory>
    ensures { OnOk result (messages.new ≡ messages.old ++ map T.gone pieces) }
{
    for keys in pieces.into_vec() {
        messages.add(T::gone_message(keys))?;
    }
    Ok(())
}
