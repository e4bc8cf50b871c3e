ghost use Rattle.std.specs.Prelude.{option_and_then};
ghost use Rattle.k8s_meta.specs.Spots.{◌·◌, seen};
ghost use Rattle.k8s_meta.specs.Words.{string_in};
ghost use Rattle.k8s_meta.specs.declared.key.Key.TheVariants as keys;
ghost use Rattle.watch_events.specs.Forms.{form_of, list_as};
ghost use Rattle.watch_events.specs.Given.{Gives};
ghost use Rattle.watch_events.specs.ListLines.{item_kind};

use crate::line::LineFault;
use crate::list::{item_kind, read_list};
use crate::table::KindTable;
use crate::watch::read_event;
use k8s_meta::key::Key;
use k8s_meta::place::Place;
use mesh_base::list::List;

/// What a line says about the objects of a table of kinds, or that it is a control line.
#[derive(Drop)]
pub enum Form<C, M, K> {
    /// Puts the object.
    Set { kind: C, object: M },
    /// Removes the object under the key.
    Delete { kind: C, key: K },
    /// Replaces all objects of the kind, in all namespaces, by the items.
    Relist { kind: C, items: List<M> },
    /// The watch has progressed to this point.
    Bookmark,
    /// A control line, of which nothing was read.
    Control,
}

fn read_if_list<'a, T: KindTable>(
    table: &T,
    line: &'a Place<'a>,
) -> Result<Form<T::Kind, T::Object, T::Key>, LineFault>
    ensures { Gives result (list_as (T.table table.now)
        (option_and_then item_kind (string_in ((seen line.now) · keys.Kind).value))
        (seen line.now)) }
{
    let Some(kind) = line.member(Key::Kind).as_text() else {
        return Err(LineFault::NoForm);
    };
    match item_kind(kind) {
        Some(name) => read_list(table, name, line),
        None => Err(LineFault::NoForm),
    }
}

/// Reads the value of a line, by a table of kinds. Returns its first fault.
///
/// For `Form::Control` the caller reads the control line at the same place, with `read_control` or
/// by words of its own.
#[tactic(auto, unfolding(crate::specs::Forms::form_of))]
pub fn read_form<'a, T: KindTable>(
    table: &T,
    line: &'a Place<'a>,
) -> Result<Form<T::Kind, T::Object, T::Key>, LineFault>
    ensures { Gives result (form_of (T.table table.now) (seen line.now)) }
{
    if !line.member(Key::Control).is_absent() {
        Ok(Form::Control)
    } else if !line.member(Key::Type).is_absent() {
        read_event(table, line)
    } else {
        read_if_list(table, line)
    }
}
