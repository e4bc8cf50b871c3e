ghost use Rattle.std.specs.Prelude.{◌≡◌, ◌≢◌, IfOk, None};
ghost use Rattle.k8s_meta.specs.Spots.{◌·◌, Gives, Reads, seen};
ghost use Rattle.k8s_meta.specs.Words.{default, lenient, object, optional, part, required, text};
ghost use Rattle.k8s_meta.specs.declared.fault.ReadFault.TheVariants as faults;

use crate::fault::ReadFault;
use crate::key::Key;
use crate::place::Place;
use crate::reader::Reader;
use mesh_base::memory::Memory;
use mesh_base::text::Text;

impl<'a> Place<'a> {
    /// Returns the object at a member. An absent one counts as empty.
    #[tactic(auto, unfolding(crate::specs::Words::part, crate::specs::Words::default))]
    pub fn part(&'a self, key: Key) -> Result<Place<'a>, ReadFault>
        ensures { Gives seen result (part ((seen self.now) · key)) }
    {
        let place = self.member(key);
        if place.is_absent() {
            return Ok(place);
        }
        place.object()?;
        Ok(place)
    }

    /// Returns the object at a member, or the error `Missing` if it is absent.
    #[tactic(auto, unfolding(crate::specs::Words::required))]
    pub fn required_part(&'a self, key: Key) -> Result<Place<'a>, ReadFault>
        ensures { Gives seen result (required object ((seen self.now) · key)) }
    {
        let place = self.member(key);
        if place.is_absent() {
            return Err(place.missing());
        }
        place.object()?;
        Ok(place)
    }

    /// Reads a member, or returns the error `Missing` if it is absent.
    #[tactic(auto, unfolding(crate::specs::Words::required))]
    pub fn required<R: Reader>(&'a self, key: Key, reader: &R) -> Result<R::Made, ReadFault>
        ensures { Reads result (required (R.reading reader.now) ((seen self.now) · key)) }
    {
        let place = self.member(key);
        if place.is_absent() {
            return Err(place.missing());
        }
        reader.read(&place)
    }

    /// Reads a member, or returns None if it is absent.
    #[tactic(auto, unfolding(crate::specs::Spots::then, crate::specs::Words::optional, crate::specs::Words::default))]
    pub fn optional<R: Reader>(&'a self, key: Key, reader: &R) -> Result<Option<R::Made>, ReadFault>
        ensures { Reads result (optional (R.reading reader.now) ((seen self.now) · key)) }
    {
        let place = self.member(key);
        if place.is_absent() {
            return Ok(None);
        }
        let found = reader.read(&place)?;
        Ok(Some(found))
    }

    /// Reads a member, or returns `other` if it is absent.
    #[tactic(auto, unfolding(crate::specs::Words::default))]
    pub fn default<R: Reader>(
        &'a self,
        key: Key,
        reader: &R,
        other: R::Made,
    ) -> Result<R::Made, ReadFault>
        ensures { Reads result (default other (R.reading reader.now) ((seen self.now) · key)) }
    {
        let place = self.member(key);
        if place.is_absent() {
            return Ok(other);
        }
        reader.read(&place)
    }

    /// Returns the string at a member without a copy, or `other` if it is absent.
    #[tactic(auto, unfolding(crate::specs::Words::default))]
    pub fn str_or(&'a self, key: Key, other: &'a str) -> Result<&'a str, ReadFault>
        ensures { Gives (λ s. s.now) result (default other.now text ((seen self.now) · key)) }
    {
        let place = self.member(key);
        if place.is_absent() {
            return Ok(other);
        }
        place.text()
    }

    /// Reads the string at a member, or returns a copy of `other` if it is absent.
    #[tactic(auto, unfolding(crate::specs::Words::default))]
    pub fn text_or<R: Reader<Made = Text>>(
        &'a self,
        key: Key,
        reader: &R,
        other: &str,
    ) -> Result<Text, ReadFault>
        ensures { Reads result (default other.now (R.reading reader.now) ((seen self.now) · key)) }
    {
        let place = self.member(key);
        if place.is_absent() {
            return Ok(Text::from_str(self.alloc(), other)?);
        }
        reader.read(&place)
    }

    /// Reads a member, or returns None if that fails. The only error is out of memory.
    #[tactic(auto, using(crate::proofs::Loop::fails_none))]
    pub fn lenient<R: Reader>(&'a self, key: Key, reader: &R) -> Result<Option<R::Made>, Memory>
        ensures { IfOk result
            (λ found. found ≡ lenient (R.reading reader.now) ((seen self.now) · key)) }
    {
        match reader.read(&self.member(key)) {
            Ok(found) => Ok(Some(found)),
            Err(fault) => none_for(fault),
        }
    }
}

/// Returns None for an error other than out of memory.
fn none_for<T: Drop>(fault: ReadFault) -> Result<Option<T>, Memory>
    ensures { IfOk result (λ found. (found ≡ None) × (fault ≢ faults.Memory)) }
{
    match fault {
        ReadFault::Memory => Err(Memory),
        _ => Ok(None),
    }
}
