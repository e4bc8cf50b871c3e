ghost use Rattle.std.specs.Prelude.{◌≡◌, IfOk, string_bytes};
ghost use Rattle.k8s_meta.specs.Keys.{key_text};
ghost use Rattle.k8s_meta.specs.Paths.{path_text, member_path, item_path};

use crate::key::Key;
use std::alloc::{AllocError, Global};

/// The path of a value. It borrows the path of the parent.
#[derive(Clone, Copy)]
pub enum Path<'a> {
    Top(&'a str),
    Member(&'a Path<'a>, Key),
    Item(&'a Path<'a>, usize),
}

impl<'a> Path<'a> {
    /// Returns the path of a whole value. Members of an empty path have no dot before them.
    pub fn top(at: &'a str) -> Path<'a>
        ensures { path_text result ≡ at.now }
    {
        Path::Top(at)
    }

    pub fn member(&'a self, key: Key) -> Path<'a>
        ensures { path_text result ≡ member_path (path_text self.now) (key_text key) }
    {
        Path::Member(self, key)
    }

    /// Returns the path of an item of a list, by its index from 0.
    pub fn item(&'a self, place: usize) -> Path<'a>
        ensures { path_text result ≡ item_path (path_text self.now) place }
    {
        Path::Item(self, place)
    }

    /// Formats the path. Members are joined by `.`, and the index of an item is `[n]`.
    pub fn text(&self, alloc: Global) -> Result<String, AllocError>
        ensures { IfOk result (λ t. string_bytes t ≡ path_text self.now) }
    {
        match self {
            Path::Top(top) => String::from_str(alloc, top),
            Path::Member(parent, key) => {
                let front = parent.text(alloc)?;
                with_member(front, key.text())
            }
            Path::Item(parent, place) => {
                let mut text = parent.text(alloc)?;
                let place = place.to_string(alloc)?;
                text.push_str("[")?;
                text.push_str(&place)?;
                text.push_str("]")?;
                Ok(text)
            }
        }
    }
}

fn with_member(front: String, key: &str) -> Result<String, AllocError>
    ensures { IfOk result (λ t. string_bytes t ≡ member_path (string_bytes front) key.now) }
{
    let mut text = front;
    if text.is_empty() {
        text.push_str(key)?;
        return Ok(text);
    }
    text.push_str(".")?;
    text.push_str(key)?;
    Ok(text)
}
