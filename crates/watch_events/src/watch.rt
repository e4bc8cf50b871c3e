ghost use Rattle.std.specs.Prelude.{◌≡◌, option_and_then};
ghost use Rattle.k8s_meta.specs.Spots.{◌·◌, seen};
ghost use Rattle.k8s_meta.specs.Words.{object, required, string_in};
ghost use Rattle.k8s_meta.specs.declared.key.Key.TheVariants as keys;
ghost use Rattle.watch_events.specs.Events.{delete_of, event_of, event_type, set_of};
ghost use Rattle.watch_events.specs.Given.{Gives, GivesAs};
ghost use Rattle.watch_events.specs.Kinds.{text_or_empty};
ghost use Rattle.watch_events.specs.Reading.{of_object};
ghost use Rattle.watch_events.specs.Tables.{kind_of};

use crate::event_type::{EventType, event_type};
use crate::fault::object_fault;
use crate::form::Form;
use crate::kinds::{kind_of, text_or_empty};
use crate::line::LineFault;
use crate::table::KindTable;
use k8s_meta::key::Key;
use k8s_meta::place::Place;

// Returns the object of an event.
fn object_in<'a>(event: &'a Place<'a>) -> Result<Place<'a>, LineFault>
    ensures { GivesAs seen result (of_object (required object ((seen event.now) · keys.Object))) }
{
    match event.required_part(Key::Object) {
        Ok(object) => Ok(object),
        Err(fault) => Err(object_fault(fault)),
    }
}

fn kind_in<'a, T: KindTable>(table: &T, object: &'a Place<'a>) -> Result<T::Kind, LineFault>
    ensures { Gives result (kind_of (T.table table.now)
        (text_or_empty ((seen object.now) · keys.Kind)) (seen object.now)) }
{
    let name = text_or_empty(&object.member(Key::Kind));
    kind_of(table, name.as_bytes(), object)
}

fn read_held<'a, T: KindTable>(
    table: &T,
    kind: T::Kind,
    object: &'a Place<'a>,
) -> Result<T::Object, LineFault>
    ensures { Gives result (of_object ((T.table table.now).object kind (seen object.now))) }
{
    match table.read_object(kind, object) {
        Ok(object) => Ok(object),
        Err(fault) => Err(object_fault(fault)),
    }
}

fn read_gone<'a, T: KindTable>(
    table: &T,
    kind: T::Kind,
    object: &'a Place<'a>,
) -> Result<T::Key, LineFault>
    ensures { Gives result (of_object ((T.table table.now).removed kind (seen object.now))) }
{
    match table.read_key(kind, object) {
        Ok(key) => Ok(key),
        Err(fault) => Err(object_fault(fault)),
    }
}

#[tactic(auto, unfolding(crate::specs::Reading::then, crate::specs::Events::set_of))]
fn read_set<'a, T: KindTable>(
    table: &T,
    event: &'a Place<'a>,
) -> Result<Form<T::Kind, T::Object, T::Key>, LineFault>
    ensures { Gives result (set_of (T.table table.now) (seen event.now)) }
{
    let object = object_in(event)?;
    let kind = kind_in(table, &object)?;
    let object = read_held(table, kind, &object)?;
    Ok(Form::Set { kind, object })
}

#[tactic(auto, unfolding(crate::specs::Reading::then, crate::specs::Events::delete_of))]
fn read_delete<'a, T: KindTable>(
    table: &T,
    event: &'a Place<'a>,
) -> Result<Form<T::Kind, T::Object, T::Key>, LineFault>
    ensures { Gives result (delete_of (T.table table.now) (seen event.now)) }
{
    let object = object_in(event)?;
    let kind = kind_in(table, &object)?;
    let key = read_gone(table, kind, &object)?;
    Ok(Form::Delete { kind, key })
}

fn type_of<'a>(event: &'a Place<'a>) -> Option<EventType>
    ensures { result ≡ option_and_then event_type (string_in ((seen event.now) · keys.Type).value) }
{
    match event.member(Key::Type).as_text() {
        Some(word) => event_type(word),
        None => None,
    }
}

/// Reads a watch event, by a table of kinds.
pub fn read_event<'a, T: KindTable>(
    table: &T,
    event: &'a Place<'a>,
) -> Result<Form<T::Kind, T::Object, T::Key>, LineFault>
    ensures { Gives result (event_of (T.table table.now) (seen event.now)) }
{
    match type_of(event) {
        None => Err(LineFault::UnknownType),
        Some(EventType::Added) => read_set(table, event),
        Some(EventType::Modified) => read_set(table, event),
        Some(EventType::Deleted) => read_delete(table, event),
        Some(EventType::Bookmark) => Ok(Form::Bookmark),
        Some(EventType::Error) => Err(LineFault::ErrorEvent),
    }
}
