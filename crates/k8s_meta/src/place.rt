ghost use Rattle.std.specs.Prelude.{◌≡◌, ◌≤◌, IfOk, option_map};
ghost use Rattle.serde_json.specs.Find.{get, as_array, as_object};
ghost use Rattle.serde_json.specs.View.{number_view, view, items_view, members_view};
ghost use Rattle.k8s_meta.specs.Keys.{key_text};
ghost use Rattle.k8s_meta.specs.Scalars.{number, whole};
ghost use Rattle.k8s_meta.specs.Spots.{◌·◌, Gives, IsFault, Reads, is_absent, item_spot, or_null, seen, value_seen};
ghost use Rattle.k8s_meta.specs.Words.{boolean, list, object, string_in, text, typed, valid};
ghost use Rattle.k8s_meta.specs.declared.fault.ReadFault.TheVariants as faults;

use crate::fault::{ReadFault, What};
use crate::key::Key;
use crate::path::Path;
use crate::strings::string_in;
use mesh_base::memory::Memory;
use mesh_base::text::Text;
use serde_json::{Map, Number, Value};
use std::alloc::Global;

/// A value, or None if it is absent, and its path.
#[derive(Clone, Copy)]
pub struct Place<'a> {
    alloc: Global,
    path: Path<'a>,
    value: Option<&'a Value>,
}

impl<'a> Place<'a> {
    /// Returns the place of a value at the path `at`.
    pub fn top(alloc: Global, value: &'a Value, at: &'a str) -> Place<'a>
        ensures { seen result ≡ record { at = at.now; value = view value.now } }
    {
        Place {
            alloc,
            path: Path::top(at),
            value: Some(value),
        }
    }

    /// Returns the allocator for what is read.
    pub fn alloc(&self) -> Global {
        self.alloc
    }

    /// Returns the value, which is None or null if it is absent.
    pub fn value(&self) -> Option<&'a Value>
        ensures { value_seen result ≡ (seen self.now).value }
    {
        self.value
    }

    /// Returns the string, or None if the value is not a string.
    #[tactic(auto, unfolding(crate::specs::Words::string_in))]
    pub fn as_text(&self) -> Option<&'a str>
        ensures { option_map (λ s. s.now) result ≡ string_in (seen self.now).value }
    {
        match self.value {
            Some(value) => string_in(value),
            None => None,
        }
    }

    /// Returns the items of the list, or None if the value is not a list.
    pub fn as_list(&self) -> Option<&'a [Value]>
        ensures { option_map (λ l. items_view l.now) result ≡ as_array (seen self.now).value }
    {
        match self.value {
            Some(value) => match value.as_array() {
                Some(list) => Some(list),
                None => None,
            },
            None => None,
        }
    }

    /// Returns the place of a member of the object. It is absent in any other value.
    pub fn member(&'a self, key: Key) -> Place<'a>
        ensures { seen result ≡ (seen self.now) · key }
    {
        Place {
            alloc: self.alloc,
            path: self.path.member(key),
            value: value_of(self.value, key.text()),
        }
    }

    /// Returns the place of an item of the list, by its index from 0.
    pub fn item(&'a self, index: usize, value: &'a Value) -> Place<'a>
        ensures { seen result ≡ item_spot (seen self.now).at index (view value.now) }
    {
        Place {
            alloc: self.alloc,
            path: self.path.item(index),
            value: Some(value),
        }
    }

    /// Whether the value is absent or null.
    pub fn is_absent(&self) -> bool
        ensures { result ≡ is_absent (seen self.now) }
    {
        match self.value {
            None => true,
            Some(value) => value.is_null(),
        }
    }

    fn path_text(&self) -> Result<Text, Memory>
        ensures { IfOk result (λ path. path ≡ (seen self.now).at) }
    {
        Text::from_string(self.path.text(self.alloc)?)
    }

    pub fn wrong_type(&self) -> ReadFault
        ensures { IsFault result (faults.WrongType (seen self.now).at) }
    {
        match self.path_text() {
            Ok(path) => ReadFault::WrongType { path },
            Err(_) => ReadFault::Memory,
        }
    }

    pub fn missing(&self) -> ReadFault
        ensures { IsFault result (faults.Missing (seen self.now).at) }
    {
        match self.path_text() {
            Ok(path) => ReadFault::Missing { path },
            Err(_) => ReadFault::Memory,
        }
    }

    pub fn bad_name(&self) -> ReadFault
        ensures { IsFault result (faults.BadName (seen self.now).at) }
    {
        match self.path_text() {
            Ok(path) => ReadFault::BadName { path },
            Err(_) => ReadFault::Memory,
        }
    }

    pub fn bad_value(&self, what: What) -> ReadFault
        ensures { IsFault result (faults.BadValue (seen self.now).at what) }
    {
        match self.path_text() {
            Ok(path) => ReadFault::BadValue { path, what },
            Err(_) => ReadFault::Memory,
        }
    }

    /// Returns the value found, or the error `BadValue` if it is None.
    pub fn valid<T: Drop>(&self, what: What, found: Option<T>) -> Result<T, ReadFault>
        ensures { Reads result (valid (seen self.now).at what found) }
    {
        match found {
            Some(value) => Ok(value),
            None => Err(self.bad_value(what)),
        }
    }

    #[tactic(auto, unfolding(crate::specs::Spots::then, crate::specs::Words::object))]
    pub fn object(&self) -> Result<(), ReadFault>
        ensures { Gives (λ _. seen self.now) result (object (seen self.now)) }
    {
        let Some(value) = self.value else {
            return Err(self.wrong_type());
        };
        if value.is_object() {
            Ok(())
        } else {
            Err(self.wrong_type())
        }
    }

    /// Returns the members of the object, or the error `WrongType` for any other value.
    pub fn members(&self) -> Result<&'a Map<String, Value>, ReadFault>
        ensures { Gives (λ m. members_view m.now.entries) result
            (typed (seen self.now).at (as_object (seen self.now).value)) }
    {
        let Some(value) = self.value else {
            return Err(self.wrong_type());
        };
        match value.as_object() {
            Some(members) => Ok(members),
            None => Err(self.wrong_type()),
        }
    }

    /// Returns the items of the list, or the error `WrongType` for any other value.
    #[tactic(auto, unfolding(crate::specs::Words::list))]
    pub fn list(&self) -> Result<&'a [Value], ReadFault>
        ensures { Gives (λ l. items_view l.now) result (list (seen self.now)) }
    {
        let Some(value) = self.value else {
            return Err(self.wrong_type());
        };
        match value.as_array() {
            Some(list) => Ok(list),
            None => Err(self.wrong_type()),
        }
    }

    #[tactic(auto, unfolding(crate::specs::Words::text))]
    pub fn text(&self) -> Result<&'a str, ReadFault>
        ensures { Gives (λ s. s.now) result (text (seen self.now)) }
    {
        match self.as_text() {
            Some(text) => Ok(text),
            None => Err(self.wrong_type()),
        }
    }

    #[tactic(auto, unfolding(crate::specs::Words::boolean))]
    pub fn boolean(&self) -> Result<bool, ReadFault>
        ensures { Reads result (boolean (seen self.now)) }
    {
        let Some(value) = self.value else {
            return Err(self.wrong_type());
        };
        match value.as_bool() {
            Some(b) => Ok(b),
            None => Err(self.wrong_type()),
        }
    }

    /// Reads an integer from `low` to `high`. Any other integer is the error `BadValue`.
    #[tactic(auto, unfolding(crate::specs::Spots::then, crate::specs::Scalars::number))]
    pub fn number(&self, low: u64, high: u64) -> Result<u64, ReadFault>
        ensures value { Reads result (number low high (seen self.now)) }
        ensures most { IfOk result (λ n. n ≤ high) }
    {
        let Some(value) = self.value else {
            return Err(self.wrong_type());
        };
        let Some(number) = value.as_number() else {
            return Err(self.wrong_type());
        };
        self.whole(number, low, high)
    }

    fn whole(&self, number: &Number, low: u64, high: u64) -> Result<u64, ReadFault>
        ensures value { Reads result (whole (seen self.now).at low high (number_view number.now)) }
        ensures most { IfOk result (λ n. n ≤ high) }
    {
        if number.is_f64() {
            return Err(self.wrong_type());
        }
        match number.as_u64() {
            Some(n) => {
                if low <= n && n <= high {
                    Ok(n)
                } else {
                    Err(self.bad_value(What::Range))
                }
            }
            None => Err(self.bad_value(What::Range)),
        }
    }
}

fn value_of<'a>(value: Option<&'a Value>, key: &str) -> Option<&'a Value>
    ensures { value_seen result ≡ or_null (get key.now (value_seen value.entry)) }
{
    match value {
        None => None,
        Some(value) => value.get(key),
    }
}
