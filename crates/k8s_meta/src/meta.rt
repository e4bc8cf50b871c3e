ghost use Rattle.std.specs.Prelude.{◌≡◌, IfOk};
ghost use Rattle.serde_json.specs.View.{view};
ghost use Rattle.k8s_meta.specs.Lawful.{IsLawfulMeta};
ghost use Rattle.k8s_meta.specs.Metadata.{all_fit, fits, is_time, meta_at, meta_within, time_of};
ghost use Rattle.k8s_meta.specs.Spots.{Reads, seen};

use crate::fault::ReadFault;
use crate::key::Key;
use crate::place::Place;
use crate::words::{AnyText, NameWithin, Namespace};
use mesh_base::copied::Copied;
use mesh_base::labels::Labels;
use mesh_base::memory::Memory;
use mesh_base::text::Text;
use serde_json::Value;
use std::alloc::Global;

/// The metadata of an object (ObjectMeta, meta/v1).
#[derive(Debug)]
pub struct Meta {
    /// `default` if the object has no namespace.
    pub ns: Text,
    pub name: Text,
    pub labels: Labels,
    pub notes: Labels,
    /// A time of the form `dddd-dd-ddTdd:dd:ddZ`. Any other string counts as absent.
    pub created: Option<Text>,
}

/// Written by hand, as that of `Text`.
impl Drop for Meta {
    fn drop(self) {
        let Meta {
            ns: _ns,
            name: _name,
            labels: _labels,
            notes: _notes,
            created: _created,
        } = self;
    }
}

impl Copied for Meta {
    fn copy(&self, alloc: Global) -> Result<Meta, Memory> {
        Ok(Meta {
            ns: self.ns.copy()?,
            name: self.name.copy()?,
            labels: self.labels.copy(alloc)?,
            notes: self.notes.copy(alloc)?,
            created: self.created.copy(alloc)?,
        })
    }
}

/// Reads the metadata of the object at the path `at`.
pub fn read_meta(alloc: Global, object: &Value, at: &str) -> Result<Meta, ReadFault>
    ensures lawful { IfOk result IsLawfulMeta }
    ensures value { Reads result (meta_at record { at = at.now; value = view object.now }) }
{
    meta_of(&Place::top(alloc, object, at))
}

/// Reads the metadata of the object at a place.
pub fn meta_of<'a>(object: &'a Place<'a>) -> Result<Meta, ReadFault>
    ensures lawful { IfOk result IsLawfulMeta }
    ensures value { Reads result (meta_at (seen object.now)) }
{
    meta_within(object, 253)
}

/// Reads the metadata of an object whose name has at most `most` bytes.
#[tactic(auto, unfolding(crate::specs::Spots::then, crate::specs::Metadata::meta_within))]
pub fn meta_within<'a>(object: &'a Place<'a>, most: usize) -> Result<Meta, ReadFault>
    ensures { Reads result (meta_within most (seen object.now)) }
{
    object.object()?;
    let metadata = object.part(Key::Metadata)?;
    let name = metadata.required(Key::Name, &NameWithin { most })?;
    let ns = metadata.text_or(Key::Namespace, &Namespace, "default")?;
    let labels = metadata.labels(Key::Labels)?;
    let notes = metadata.labels(Key::Annotations)?;
    let created = metadata.optional(Key::CreationTimestamp, &AnyText)?;
    Ok(Meta {
        ns,
        name,
        labels,
        notes,
        created: time_of(created),
    })
}

fn time_of(text: Option<Text>) -> Option<Text>
    ensures { result ≡ time_of text }
{
    match text {
        Some(text) => {
            if is_time(text.as_bytes()) {
                Some(text)
            } else {
                None
            }
        }
        None => None,
    }
}

/// Whether a string has the form `dddd-dd-ddTdd:dd:ddZ`, where `d` is a digit.
#[tactic(auto, unfolding(crate::specs::Metadata::is_time))]
fn is_time(text: &[u8]) -> bool
    ensures { result ≡ is_time text.now }
{
    all_fit(b"dddd-dd-ddTdd:dd:ddZ", text)
}

#[tactic(auto, using(crate::proofs::Times::fits_other_length, crate::proofs::Times::fits_next, crate::proofs::Times::fits_not_here, crate::proofs::Times::fits_whole))]
fn all_fit(form: &[u8], text: &[u8]) -> bool
    ensures { result ≡ all_fit form.now text.now }
{
    if form.len() != text.len() {
        return false;
    }
    for at in 0..form.len() {
        if !fits(form[at], text[at]) {
            return false;
        }
    }
    true
}

fn fits(form: u8, byte: u8) -> bool
    ensures { result ≡ fits form byte }
{
    if form == b'd' {
        byte.is_ascii_digit()
    } else {
        form == byte
    }
}
