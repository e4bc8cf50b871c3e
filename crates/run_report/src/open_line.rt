// Keeps the first and the last bytes of a line that is read in parts.
ghost use Rattle.std.specs.Prelude.{◌≤◌, length};

use crate::lines::LineParts;
use std::alloc::Global;

// The number of first bytes that are kept, and of last bytes.
const KEPT: usize = 1024;

/// Returns the first bytes, up to the number that is kept.
pub(crate) fn first_of<'a>(bytes: &'a [u8]) -> &'a [u8] {
    bytes.get(..KEPT).unwrap_or(bytes)
}

/// Returns the last bytes, up to the number that is kept.
pub(crate) fn last_of<'a>(bytes: &'a [u8]) -> &'a [u8]
    ensures { length result.now ≤ 1024 }
{
    &bytes[bytes.len().saturating_sub(KEPT)..]
}

/// The first and the last bytes of a line that was read in part.
#[derive(Drop)]
pub(crate) struct OpenLine {
    pub(crate) first: Vec<u8>,
    pub(crate) last: Vec<u8>,
    /// Whether no byte of the line was read.
    pub(crate) is_empty: bool,
}

impl OpenLine {
    pub(crate) fn new(alloc: Global) -> OpenLine {
        OpenLine {
            first: Vec::new(alloc),
            last: Vec::new(alloc),
            is_empty: true,
        }
    }

    /// Adds bytes of the line. If out of memory, they are left out.
    pub(crate) fn add(&mut self, part: &[u8]) {
        if part.is_empty() {
            return;
        }
        self.is_empty = false;
        let room = KEPT.saturating_sub(self.first.len());
        let _ = self
            .first
            .extend_from_slice(part.get(..room).unwrap_or(part));
        self.add_last(part);
    }

    fn add_last(&mut self, part: &[u8]) {
        let last = last_of(part);
        let len = self.last.len();
        let kept = len.min(KEPT - last.len());
        self.last.as_mut_slice().copy_within(len - kept..len, 0);
        self.last.truncate(kept);
        let _ = self.last.extend_from_slice(last);
    }

    pub(crate) fn clear(&mut self) {
        self.first.clear();
        self.last.clear();
        self.is_empty = true;
    }
}
