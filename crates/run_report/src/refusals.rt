// Records the first refused line, and counts the verdicts, from the lines of the output.
use crate::lines::{LineParts, take_parts};
use crate::printable::Printable;
use std::alloc::Global;
use std::fmt;
use std::fmt::{Display, Formatter};

// The number of bytes of a line that are kept.
const KEPT: usize = 256;

const REFUSED: &[u8] = b"refused ";

fn add_front(kept: &mut Vec<u8>, part: &[u8]) {
    let room = KEPT.saturating_sub(kept.len());
    let _ = kept.extend_from_slice(part.get(..room).unwrap_or(part));
}

/// The record of an output. Its size is bounded for an output of any length.
#[derive(Drop)]
pub struct OutputNotes {
    // The first bytes of a line that was written in part.
    open: Vec<u8>,
    // The first bytes of the first line that reports a refused line.
    refused: Vec<u8>,
    /// The number of complete `verdict` lines.
    pub verdicts: u64,
}

impl OutputNotes {
    pub fn new(alloc: Global) -> OutputNotes {
        OutputNotes {
            open: Vec::new(alloc),
            refused: Vec::new(alloc),
            verdicts: 0,
        }
    }

    pub(crate) fn take(&mut self, piece: &[u8]) {
        take_parts(self, piece);
    }

    /// Returns the first line that was refused.
    pub(crate) fn first_refused(&self) -> Option<RefusedLine<'_>> {
        let after = self.refused.strip_prefix(REFUSED)?;
        RefusedLine::read(after)
    }
}

impl LineParts for OutputNotes {
    fn take_part(&mut self, part: &[u8]) {
        add_front(&mut self.open, part);
    }

    fn end_line(&mut self, part: &[u8]) {
        add_front(&mut self.open, part);
        if self.open.starts_with(b"verdict ") {
            self.verdicts = self.verdicts.saturating_add(1);
        } else if self.refused.is_empty() && self.open.starts_with(REFUSED) {
            add_front(&mut self.refused, &self.open);
        }
        self.open.clear();
    }
}

/// A line that was refused.
#[derive(Clone, Copy, Drop)]
pub(crate) struct RefusedLine<'a> {
    pub(crate) number: u64,
    fault: &'a [u8],
}

impl<'a> RefusedLine<'a> {
    // Reads the number of the line and the error, with a space between them.
    fn read(bytes: &'a [u8]) -> Option<RefusedLine<'a>> {
        let at = bytes.iter().position(|byte| *byte == b' ')?;
        let digits = std::str::from_utf8(&bytes[..at]).ok()?;
        Some(RefusedLine {
            number: digits.parse().ok()?,
            fault: &bytes[at + 1..],
        })
    }
}

impl RefusedLine<'_> {
    /// Whether the line was not read as JSON.
    pub(crate) fn is_unread(&self) -> bool {
        self.fault == b"NotJson".as_slice() || self.fault == b"TooLong".as_slice()
    }
}

impl Display for RefusedLine<'_> {
    fn fmt<W: fmt::Write>(&self, f: &mut Formatter<W>) -> fmt::Result {
        write!(f, "line {}: {}", self.number, Printable(self.fault))
    }
}
