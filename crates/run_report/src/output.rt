// Counts the lines of the output that have a frame, or report a refused line.
ghost use Rattle.std.specs.Prelude.{◌≡◌, ◌+◌, ◌++◌, ◌∷◌, ◌<◌, ◌≤◌, ◌==◌, ℕ, List, [], count_by, get_or, length, take, true, IfOk, IsErrOf, OnErr, if◌then◌else◌};
ghost use Rattle.std.specs.Io.{WritesAtMost};
ghost use Rattle.std.specs.Io.KnownBytes.{WriteAppends};
ghost use Rattle.line_run.specs.Rows.{NoBreak, lines_of};
ghost use Rattle.mesh_outside.specs.Causes.{WriteHasCause};
ghost use Rattle.run_report.specs.Counts.{counted};
ghost use Rattle.run_report.specs.Written.{AreWritten, IsAt, IsFault, IsNumber, IsWithin, has_frame, says_not_json, says_refused, word_text};

use crate::lines::first_break;
use crate::progress::clear_line;
use crate::refusals::OutputNotes;
use mesh_outside::{Sink, SinkFault};
use std::alloc::Global;
use std::io::Write;

// The first word of a line that is counted.
#[derive(Clone, Copy)]
pub(crate) enum Word {
    Refused,
    Frame,
    View,
}

// The position in a line of the output.
#[derive(Clone, Copy)]
pub(crate) enum Place {
    Start,
    // This number of bytes of a word, but not all.
    Word(Word, usize),
    // The number after `refused `.
    Number,
    // This number of bytes of `NotJson`.
    Fault(usize),
    // A refused line with another error.
    OtherFault,
    Frame,
    Other,
}

const NOT_JSON: &[u8] = b"NotJson";

fn is_next(text: &[u8], matched: usize, byte: u8) -> bool
    ensures within { result ≡ true → matched < length text.now }
    ensures same { matched < length text.now → result ≡ (get_or text.now matched 0 == byte) }
{
    match text.get(matched) {
        Some(next) => *next == byte,
        None => false,
    }
}

impl Word {
    #[tactic(auto, unfolding(crate::specs::Written::word_text))]
    fn text<'a>(self) -> &'a [u8]
        ensures { result.now ≡ word_text self }
    {
        match self {
            Word::Refused => b"refused ",
            Word::Frame => b"frame ",
            Word::View => b"view ",
        }
    }

    // Returns the position after the whole word.
    #[tactic(auto, using(crate::proofs::Places::whole_refused, crate::proofs::Places::whole_frame, crate::proofs::Places::whole_view))]
    fn end(self) -> Place
        ensures { IsAt result (word_text self) }
    {
        match self {
            Word::Refused => Place::Number,
            Word::Frame => Place::Frame,
            Word::View => Place::Frame,
        }
    }

    // Returns the position after this number of bytes of the word.
    fn front(self, matched: usize) -> Place
        ensures { 0 < matched → matched ≤ length (word_text self)
            → IsAt result (take matched (word_text self)) }
    {
        if matched < self.text().len() {
            Place::Word(self, matched)
        } else {
            self.end()
        }
    }

    #[tactic(auto, using(crate::proofs::Places::word_next, crate::proofs::Places::word_stops))]
    fn after(self, matched: usize, byte: u8) -> Place
        ensures { (line : List ℕ) → IsWithin (word_text self) matched line
            → IsAt result (line ++ byte ∷ []) }
    {
        if is_next(self.text(), matched, byte) {
            self.front(matched.saturating_add(1))
        } else {
            Place::Other
        }
    }
}

#[tactic(auto, using(crate::proofs::Places::begins_refused, crate::proofs::Places::begins_frame, crate::proofs::Places::begins_view, crate::proofs::Places::begins_no_word))]
fn first_place(byte: u8) -> Place
    ensures { IsAt result (byte ∷ []) }
{
    if byte == b'r' {
        Place::Word(Word::Refused, 1)
    } else if byte == b'f' {
        Place::Word(Word::Frame, 1)
    } else if byte == b'v' {
        Place::Word(Word::View, 1)
    } else {
        Place::Other
    }
}

#[tactic(auto, using(crate::proofs::Places::number_ends, crate::proofs::Places::number_grows))]
fn after_number(byte: u8) -> Place
    ensures { (line : List ℕ) → IsNumber line → IsAt result (line ++ byte ∷ []) }
{
    if byte == b' ' {
        Place::Fault(0)
    } else {
        Place::Number
    }
}

#[tactic(auto, using(crate::proofs::Places::fault_next, crate::proofs::Places::fault_stops))]
fn after_fault(matched: usize, byte: u8) -> Place
    ensures { (line : List ℕ) → IsFault matched line → IsAt result (line ++ byte ∷ []) }
{
    if is_next(NOT_JSON, matched, byte) {
        Place::Fault(matched.saturating_add(1))
    } else {
        Place::OtherFault
    }
}

impl Place {
    // Whether the rest of the line does not matter for the counts.
    #[tactic(auto, using(crate::proofs::Places::other_fault_more, crate::proofs::Places::frame_more, crate::proofs::Places::other_more))]
    fn is_passing(self) -> bool
        ensures { result ≡ true → (line more : List ℕ) → IsAt self line → IsAt self (line ++ more) }
    {
        match self {
            Place::OtherFault => true,
            Place::Frame => true,
            Place::Other => true,
            _ => false,
        }
    }

    #[tactic(auto, using(crate::proofs::Places::other_fault_more, crate::proofs::Places::frame_more, crate::proofs::Places::other_more))]
    fn after(self, byte: u8) -> Place
        ensures { (line : List ℕ) → IsAt self line → IsAt result (line ++ byte ∷ []) }
    {
        match self {
            Place::Start => first_place(byte),
            Place::Word(word, matched) => word.after(matched, byte),
            Place::Number => after_number(byte),
            Place::Fault(matched) => after_fault(matched, byte),
            Place::OtherFault => Place::OtherFault,
            Place::Frame => Place::Frame,
            Place::Other => Place::Other,
        }
    }

    #[tactic(auto, using(crate::proofs::Places::passes_rest))]
    fn after_part(self, part: &[u8]) -> Place
        ensures { (line : List ℕ) → IsAt self line → IsAt result (line ++ part.now) }
    {
        let mut place = self;
        for byte in part {
            if place.is_passing() {
                return place;
            }
            place = place.after(*byte);
        }
        place
    }

    #[tactic(auto, using(crate::proofs::Places::start_says, crate::proofs::Places::word_line_says, crate::proofs::Places::number_says, crate::proofs::Places::fault_says, crate::proofs::Places::other_fault_says, crate::proofs::Places::frame_says, crate::proofs::Places::other_says))]
    fn is_refused(self) -> bool
        ensures { (line : List ℕ) → IsAt self line → result ≡ says_refused line }
    {
        match self {
            Place::Number => true,
            Place::Fault(_) => true,
            Place::OtherFault => true,
            _ => false,
        }
    }

    #[tactic(auto, using(crate::proofs::Places::start_says, crate::proofs::Places::word_line_says, crate::proofs::Places::number_says, crate::proofs::Places::other_fault_says, crate::proofs::Places::frame_says, crate::proofs::Places::other_says, crate::proofs::Places::fault_tells))]
    fn is_not_json(self) -> bool
        ensures { (line : List ℕ) → IsAt self line → result ≡ says_not_json line }
    {
        match self {
            Place::Fault(matched) => matched == NOT_JSON.len(),
            Place::Start => false,
            Place::Word(_, _) => false,
            Place::Number => false,
            Place::OtherFault => false,
            Place::Frame => false,
            Place::Other => false,
        }
    }

    #[tactic(auto, using(crate::proofs::Places::start_says, crate::proofs::Places::word_line_says, crate::proofs::Places::number_says, crate::proofs::Places::fault_says, crate::proofs::Places::other_fault_says, crate::proofs::Places::frame_says, crate::proofs::Places::other_says))]
    fn is_frame(self) -> bool
        ensures { (line : List ℕ) → IsAt self line → result ≡ has_frame line }
    {
        match self {
            Place::Frame => true,
            Place::Start => false,
            Place::Word(_, _) => false,
            Place::Number => false,
            Place::Fault(_) => false,
            Place::OtherFault => false,
            Place::Other => false,
        }
    }

    fn is_start(self) -> bool {
        match self {
            Place::Start => true,
            _ => false,
        }
    }
}

// Returns the count, plus one if `is_one`. It saturates.
fn count_with(count: u64, is_one: bool) -> u64
    ensures { (n : ℕ) → count ≡ counted n → result ≡ counted (n + (if is_one then 1 else 0)) }
{
    if is_one {
        count.saturating_add(1)
    } else {
        count
    }
}

/// The counts of the output.
#[derive(Clone, Copy)]
pub struct OutputCounts {
    place: Place,
    // The counts of the lines with LF.
    ended_refused: u64,
    ended_frames: u64,
    /// The number of lines with LF that report a refused line with the error `NotJson`.
    pub not_json: u64,
}

impl OutputCounts {
    /// No output.
    pub const NONE: OutputCounts = OutputCounts {
        place: Place::Start,
        ended_refused: 0,
        ended_frames: 0,
        not_json: 0,
    };

    #[tactic(auto, using(crate::proofs::Written::none_written))]
    fn new() -> OutputCounts
        ensures { AreWritten result [] }
    {
        OutputCounts::NONE
    }

    /// Returns the number of lines that report a refused line. A last one without LF counts.
    pub fn refused(&self) -> u64
        ensures { (written : List ℕ) → AreWritten self.now written
            → result ≡ counted (count_by says_refused (lines_of written)) }
    {
        count_with(self.ended_refused, self.place.is_refused())
    }

    /// Returns the number of lines with a frame or a view. A last one without LF counts.
    pub fn frames(&self) -> u64
        ensures { (written : List ℕ) → AreWritten self.now written
            → result ≡ counted (count_by has_frame (lines_of written)) }
    {
        count_with(self.ended_frames, self.place.is_frame())
    }

    // Adds bytes of one line, which may continue after them.
    #[tactic(auto, using(crate::proofs::Written::part_written))]
    fn take_part(&mut self, part: &[u8])
        requires { NoBreak part.now }
        ensures { (written : List ℕ) → AreWritten self.old written
            → AreWritten self.new (written ++ part.now) }
    {
        self.place = self.place.after_part(part);
    }

    // Adds the LF of a line.
    fn end_line(&mut self)
        ensures { (written : List ℕ) → AreWritten self.old written
            → AreWritten self.new (written ++ 10 ∷ []) }
    {
        let place = self.place;
        *self = OutputCounts {
            place: Place::Start,
            ended_refused: count_with(self.ended_refused, place.is_refused()),
            ended_frames: count_with(self.ended_frames, place.is_frame()),
            not_json: count_with(self.not_json, place.is_not_json()),
        };
    }

    fn take(&mut self, piece: &[u8])
        ensures { (written : List ℕ) → AreWritten self.old written
            → AreWritten self.new (written ++ piece.now) }
    {
        let mut rest = piece;
        while let Some(at) = first_break(rest) {
            self.take_part(&rest[..at]);
            self.end_line();
            rest = &rest[at + 1..];
        }
        self.take_part(rest);
    }
}

/// A sink that passes on the bytes to another, and counts those it accepts. If there is a screen,
/// the line of progress is cleared before a line is written.
#[derive(Drop)]
pub struct OutputTally<K, W> {
    sink: K,
    pub counts: OutputCounts,
    pub notes: OutputNotes,
    pub screen: Option<W>,
}

impl<K: Sink, W: Write> OutputTally<K, W> {
    pub fn new(alloc: Global, sink: K, screen: Option<W>) -> OutputTally<K, W>
        ensures sink { result.sink ≡ sink }
        ensures counts { AreWritten result.counts [] }
    {
        OutputTally {
            sink,
            counts: OutputCounts::new(),
            notes: OutputNotes::new(alloc),
            screen,
        }
    }
}

fn clear<W: Write>(screen: &mut Option<W>) {
    if let Some(screen) = screen {
        clear_line(screen);
    }
}

impl<K: Sink, W: Write> Sink for OutputTally<K, W> {
    ghost held = { λ s. K.held s.sink };

    ghost faults = { λ s. K.faults s.sink };

    fn write(&mut self, piece: &[u8]) -> Result<usize, SinkFault>
        ensures bound { WritesAtMost result piece.now }
        ensures bytes { WriteAppends (K.held self.old.sink)
            (K.held self.new.sink) result piece.now }
        ensures cause { WriteHasCause (K.faults self.old.sink)
            (K.faults self.new.sink) piece.now result }
        ensures memory { IsErrOf result SinkFault.Memory
            → K.held self.new.sink ≡ K.held self.old.sink }

        // The bytes that the sink accepts are counted.
        ensures counts { (written : List ℕ) → AreWritten self.old.counts written
            → IfOk result (λ n. AreWritten self.new.counts (written ++ take n piece.now)) }
        ensures same { OnErr result (self.new.counts ≡ self.old.counts) }
    {
        if self.counts.place.is_start() {
            clear(&mut self.screen);
        }
        match self.sink.write(piece) {
            Ok(n) => {
                self.counts.take(&piece[..n]);
                self.notes.take(&piece[..n]);
                Ok(n)
            }
            Err(fault) => Err(fault),
        }
    }
}
