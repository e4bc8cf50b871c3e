ghost use Rattle.std.specs.Prelude.{◌≡◌, ◌+◌, ◌<◌, ◌++◌, ◌∷◌, ℕ, List, [], length, take, drop, IfSome, IfNone};
ghost use Rattle.line_run.specs.Rows.{NoBreak};
ghost use Rattle.run_report.specs.Counts.{AreLines};

use memchr::memchr;

const LINE_FEED: u8 = b'\n';

// Returns the index of the first LF.
pub(crate) fn first_break(bytes: &[u8]) -> Option<usize>
    ensures within { IfSome result (λ at. at < length bytes.now) }
    ensures cut { IfSome result
        (λ at. bytes.now ≡ take at bytes.now ++ 10 ∷ drop (at + 1) bytes.now) }
    ensures line { IfSome result (λ at. NoBreak (take at bytes.now)) }
    ensures none { IfNone result (NoBreak bytes.now) }
{
    memchr(LINE_FEED, bytes)
}

/// The count of lines.
#[derive(Clone, Copy)]
pub struct LineCount {
    /// The number of lines. A last one without LF counts.
    pub count: u64,
    // Whether the last line has no LF yet.
    is_open: bool,
}

impl LineCount {
    /// No lines.
    pub const NONE: LineCount = LineCount {
        count: 0,
        is_open: false,
    };

    // Adds bytes of one line, which may continue after them.
    #[tactic(auto, using(crate::proofs::Growth::part_begins, crate::proofs::Growth::part_goes_on, crate::proofs::Growth::ends_open_part))]
    fn take_part(&mut self, part: &[u8])
        requires { NoBreak part.now }
        ensures { (bytes : List ℕ) → AreLines self.old bytes
            → AreLines self.new (bytes ++ part.now) }
    {
        if part.is_empty() {
            return;
        }
        if !self.is_open {
            self.count = self.count.saturating_add(1);
        }
        self.is_open = true;
    }

    // Adds the LF of a line.
    #[tactic(auto, using(crate::proofs::Growth::line_begins, crate::proofs::Growth::line_goes_on, crate::proofs::Growth::ends_open_more))]
    fn end_line(&mut self)
        ensures { (bytes : List ℕ) → AreLines self.old bytes
            → AreLines self.new (bytes ++ 10 ∷ []) }
    {
        if !self.is_open {
            self.count = self.count.saturating_add(1);
        }
        self.is_open = false;
    }

    /// Adds the lines of a piece, which may begin and end within a line.
    pub(crate) fn take(&mut self, piece: &[u8])
        ensures { (bytes : List ℕ) → AreLines self.old bytes
            → AreLines self.new (bytes ++ piece.now) }
    {
        let mut rest = piece;
        while let Some(at) = first_break(rest) {
            self.take_part(&rest[..at]);
            self.end_line();
            rest = &rest[at + 1..];
        }
        self.take_part(rest);
    }
}

/// A reader of lines that arrive in parts.
pub(crate) trait LineParts {
    /// Adds bytes of a line that continues after them.
    fn take_part(&mut self, part: &[u8]);

    /// Adds the last bytes of a line, which may be none.
    fn end_line(&mut self, part: &[u8]);
}

/// Adds the lines of a piece, which may begin and end within a line.
pub(crate) fn take_parts<L: LineParts>(lines: &mut L, piece: &[u8]) {
    let mut rest = piece;
    while let Some(at) = first_break(rest) {
        lines.end_line(&rest[..at]);
        rest = &rest[at + 1..];
    }
    lines.take_part(rest);
}
