// Records the kinds and the mistakes of a feed, from the first and last bytes of its lines.
use crate::cause::{Cause, Hint};
use crate::front::Front;
use crate::json::after_space;
use crate::kinds::KindTable;
use crate::lines::{LineParts, take_parts};
use crate::open_line::{OpenLine, first_of, last_of};
use crate::printable::Printable;
use crate::refusals::RefusedLine;
use memchr::memmem;
use std::alloc::{AllocError, Global};
use std::fmt;
use std::fmt::{Display, Formatter};

/// The reason why an accepted list may remove objects by mistake.
#[derive(Clone, Copy)]
pub(crate) enum ListFault {
    /// The list is one page of a longer list.
    Page,
    /// The line with this number lists the same kind, and no event of the kind is between them.
    Again(u64),
}

/// A list that may remove objects by mistake.
#[derive(Drop)]
pub(crate) struct ListNote {
    number: u64,
    kind: Vec<u8>,
    fault: ListFault,
}

impl Display for ListNote {
    fn fmt<W: fmt::Write>(&self, f: &mut Formatter<W>) -> fmt::Result {
        let kind = Printable(&self.kind);
        write!(f, "linkerd_cli: warning: line {} ", self.number)?;
        match self.fault {
            ListFault::Page => write!(
                f,
                "is one page of a list of kind {kind}: it counts as the whole list and replaces all objects of the kind\n"
            ),
            ListFault::Again(before) => write!(
                f,
                "lists kind {kind} again after line {before}: each list counts as the whole and replaces all objects of the kind\n"
            ),
        }
    }
}

// A line that is not part of a feed.
#[derive(Drop)]
struct OddLine {
    number: u64,
    cause: Cause,
    first: Vec<u8>,
}

/// The state after the lines so far.
#[derive(Drop)]
pub(crate) struct FeedLines {
    alloc: Global,
    number: u64,
    pub(crate) kinds: KindTable,
    /// Whether a line subscribes or simulates.
    pub(crate) has_request: bool,
    /// Whether the form of some line is unknown. The line may have been accepted.
    pub(crate) is_unsure: bool,
    // Whether the first line has `}{`, as several values on one line do.
    is_joined: bool,
    // Whether the part of the first line that was read ends with `}`.
    is_closed: bool,
    /// The first list that may remove objects by mistake.
    pub(crate) list: Option<ListNote>,
    odd: Option<OddLine>,
}

impl FeedLines {
    fn new(alloc: Global) -> FeedLines {
        FeedLines {
            alloc,
            number: 0,
            kinds: KindTable::new(alloc),
            has_request: false,
            is_unsure: false,
            is_joined: false,
            is_closed: false,
            list: None,
            odd: None,
        }
    }

    // Looks for several values on the first line. An input without LF is one line.
    fn look_for_joined(&mut self, part: &[u8]) {
        if self.number > 0 || self.is_joined {
            return;
        }
        let goes_on = self.is_closed && part.first() == Some(&b'{');
        self.is_joined = goes_on || memmem::find(part, b"}{").is_some();
        self.is_closed = part.last() == Some(&b'}');
    }

    fn note(&mut self, first: &[u8], last: &[u8]) {
        self.number = self.number.saturating_add(1);
        if after_space(first).is_empty() {
            return;
        }
        let front = Front::read(first, last);
        if let Some(cause) = cause_of(first, &front) {
            self.is_unsure = true;
            self.note_odd(cause, first);
        } else if let Some(control) = front.control {
            self.has_request = self.has_request || is_request(control);
        } else if let Some(kind) = kind_of(&front) {
            self.note_kind(kind, &front);
        } else {
            self.is_unsure = true;
        }
    }

    fn note_odd(&mut self, cause: Cause, first: &[u8]) {
        if self.odd.is_some() {
            return;
        }
        if let Ok(first) = Vec::from_slice(self.alloc, first) {
            self.odd = Some(OddLine {
                number: self.number,
                cause,
                first,
            });
        }
    }

    fn note_kind(&mut self, name: &[u8], front: &Front<'_>) {
        let number = self.number;
        let Some(kind) = self.kinds.with_line(name) else {
            self.is_unsure = true;
            return;
        };
        if front.is_event {
            kind.note_event();
            return;
        }
        let before = kind.note_list(number, front.group);
        if front.is_page {
            let _ = self.note_list(name, ListFault::Page);
        } else if let Some(before) = before {
            let _ = self.note_list(name, ListFault::Again(before));
        }
    }

    fn note_list(&mut self, name: &[u8], fault: ListFault) -> Result<(), AllocError> {
        if self.list.is_none() {
            self.list = Some(ListNote {
                number: self.number,
                kind: Vec::from_slice(self.alloc, name)?,
                fault,
            });
        }
        Ok(())
    }

    /// Returns the hint on a refused line, if there is one.
    pub(crate) fn hint(&self, refused: &RefusedLine<'_>) -> Option<Hint<'_>> {
        let number = refused.number;
        match &self.odd {
            Some(odd) if odd.number == number => Some(Hint {
                number,
                cause: odd.cause,
                first: &odd.first,
            }),
            _ if number == 1 && self.is_joined && refused.is_unread() => Some(Hint {
                number,
                cause: Cause::Joined,
                first: b"",
            }),
            _ => None,
        }
    }
}

fn cause_of(first: &[u8], front: &Front<'_>) -> Option<Cause> {
    match Cause::of_bytes(first) {
        Some(cause) => Some(cause),
        None => Cause::of_front(front),
    }
}

fn is_request(control: &[u8]) -> bool {
    control == b"subscribe".as_slice() || control == b"simulate".as_slice()
}

// Returns the kind of the objects of an event or a list.
fn kind_of<'a>(front: &Front<'a>) -> Option<&'a [u8]> {
    let kind = front.kind?;
    if front.is_event {
        Some(kind)
    } else {
        kind.strip_suffix(b"List")
    }
}

/// The record of a feed. Its size is bounded for a feed of any length.
#[derive(Drop)]
pub struct FeedNotes {
    open: OpenLine,
    pub(crate) lines: FeedLines,
}

impl FeedNotes {
    pub fn new(alloc: Global) -> FeedNotes {
        FeedNotes {
            open: OpenLine::new(alloc),
            lines: FeedLines::new(alloc),
        }
    }

    pub(crate) fn take(&mut self, piece: &[u8]) {
        take_parts(self, piece);
    }

    /// Ends the input. A last line without LF counts.
    pub(crate) fn end(&mut self) {
        if !self.open.is_empty {
            self.note_open();
        }
    }

    fn note_open(&mut self) {
        self.lines.note(&self.open.first, &self.open.last);
        self.open.clear();
    }
}

impl LineParts for FeedNotes {
    fn take_part(&mut self, part: &[u8]) {
        self.lines.look_for_joined(part);
        self.open.add(part);
    }

    fn end_line(&mut self, part: &[u8]) {
        self.lines.look_for_joined(part);
        if self.open.is_empty {
            self.lines.note(first_of(part), last_of(part));
        } else {
            self.open.add(part);
            self.note_open();
        }
    }
}
