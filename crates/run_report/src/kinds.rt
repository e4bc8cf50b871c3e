// The kinds of the objects of a feed.
use std::alloc::{AllocError, Global};

// The greatest number of kinds that are recorded. The program reads 11.
const MAX_KINDS: usize = 24;

const MAX_NAME_LENGTH: usize = 64;

/// A kind, and its last list.
#[derive(Drop)]
pub(crate) struct KindLines {
    name: Vec<u8>,
    // The number of the last line of the kind, if it is a list, and the group of the list. Kinds of
    // different groups may have the same name.
    list: Option<u64>,
    group: Vec<u8>,
}

impl KindLines {
    pub(crate) fn note_event(&mut self) {
        self.list = None;
    }

    /// Records a list at the line with this number. Returns the number of the list of the same
    /// group before it, if there is no event between them.
    pub(crate) fn note_list(&mut self, number: u64, group: &[u8]) -> Option<u64> {
        let before = if self.group.as_slice() == group {
            self.list
        } else {
            None
        };
        self.group.clear();
        self.list = match self.group.extend_from_slice(group) {
            Ok(()) => Some(number),
            Err(_) => None,
        };
        before
    }
}

/// The kinds of a feed.
#[derive(Drop)]
pub(crate) struct KindTable {
    alloc: Global,
    kinds: Vec<KindLines>,
}

impl KindTable {
    pub(crate) fn new(alloc: Global) -> KindTable {
        KindTable {
            alloc,
            kinds: Vec::new(alloc),
        }
    }

    pub(crate) fn has(&self, name: &[u8]) -> bool {
        self.place_of(name).is_some()
    }

    /// Returns the entry of a kind, which is added if it is new. None if it cannot be added.
    pub(crate) fn with_line(&mut self, name: &[u8]) -> Option<&mut KindLines> {
        let at = match self.place_of(name) {
            Some(at) => at,
            None => self.add(name)?,
        };
        self.kinds.get_mut(at)
    }

    fn place_of(&self, name: &[u8]) -> Option<usize> {
        for (at, kind) in self.kinds.iter().enumerate() {
            if kind.name.as_slice() == name {
                return Some(at);
            }
        }
        None
    }

    fn add(&mut self, name: &[u8]) -> Option<usize> {
        let at = self.kinds.len();
        if at >= MAX_KINDS || name.len() > MAX_NAME_LENGTH {
            return None;
        }
        let Ok(()) = self.push(name) else {
            return None;
        };
        Some(at)
    }

    fn push(&mut self, name: &[u8]) -> Result<(), AllocError> {
        let kind = KindLines {
            name: Vec::from_slice(self.alloc, name)?,
            list: None,
            group: Vec::new(self.alloc),
        };
        self.kinds.push(kind)?;
        Ok(())
    }
}
