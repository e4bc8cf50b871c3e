ghost use Rattle.std.specs.Prelude.{◌≡◌, ◌+◌, ◌==◌, [], ◌∷◌, Some, bytes_eq, length};
ghost use Rattle.std.specs.List.{count_by};
ghost use Rattle.line_run.specs.Rows.{lines_of};
ghost use Rattle.cluster_sample.specs.Counted.{counts_of, counts_text, is_first, lines_with, size_in, words_of};
ghost use Rattle.cluster_sample.specs.Stand.{both, capped, capped_counts};

use mesh_base::pieces::cut;
use std::fmt;

/// The counts of the lines that a replay writes. A count stops at the end of `u64`.
#[derive(Clone, Copy, Debug, PartialEq, Eq)]
pub struct Counts {
    pub refused: u64,
    pub frames: u64,
    /// The bytes of all frames.
    pub bytes: u64,
    pub verdicts: u64,
}

fn is_text(text: &[u8], other: &[u8]) -> bool
    ensures { result ≡ bytes_eq text.now other.now }
{
    text == other
}

fn begins_with(line: &[u8], word: &[u8]) -> bool
    ensures { result ≡ is_first word.now (words_of line.now) }
{
    match cut(line, b' ') {
        None => is_text(line, word),
        Some((first, _)) => is_text(first, word),
    }
}

// Returns the number of bytes of the frame in a line, or 0.
fn frame_size(line: &[u8]) -> usize
    ensures { result ≡ size_in (words_of line.now) }
{
    let Some((first, words)) = cut(line, b' ') else {
        return 0;
    };
    if !is_text(first, b"frame") {
        return 0;
    }
    let Some((_, hex)) = cut(words, b' ') else {
        return 0;
    };
    match cut(hex, b' ') {
        None => hex.len() / 2,
        Some(_) => 0,
    }
}

// Returns the count, plus 1 if the line begins with the word.
fn count(counted: u64, line: &[u8], word: &[u8]) -> u64
    ensures { result ≡ capped (counted + lines_with word.now (line.now ∷ [])) }
{
    if begins_with(line, word) {
        counted.saturating_add(1)
    } else {
        counted
    }
}

impl Counts {
    pub(crate) fn new() -> Counts
        ensures { result ≡ counts_of [] }
    {
        Counts {
            refused: 0,
            frames: 0,
            bytes: 0,
            verdicts: 0,
        }
    }

    pub(crate) fn add(&mut self, line: &[u8])
        ensures { self.new ≡ capped_counts (both self.old (counts_of (line.now ∷ []))) }
    {
        self.refused = count(self.refused, line, b"refused");
        self.frames = count(self.frames, line, b"frame");
        self.bytes = self.bytes.saturating_add(frame_size(line) as u64);
        self.verdicts = count(self.verdicts, line, b"verdict");
    }
}

impl fmt::Display for Counts {
    ghost output = { λ counts. Some (counts_text counts) };

    #[tactic(auto, unfolding(crate::specs::Counted::counts_text))]
    fn fmt<W: fmt::Write>(&self, f: &mut fmt::Formatter<W>) -> fmt::Result {
        let Counts {
            refused,
            frames,
            bytes,
            verdicts,
        } = *self;
        write!(
            f,
            "refused {refused} frames {frames} bytes {bytes} verdicts {verdicts}"
        )
    }
}

fn count_breaks(text: &[u8]) -> usize
    ensures { result ≡ count_by (λ byte. byte == 10) text.now }
{
    text.iter().filter(|byte| **byte == b'\n').count()
}

/// Returns the number of lines of a text. The last byte of the text ends a line, whatever it is.
pub(crate) fn count_lines(text: &[u8]) -> u64
    ensures { result ≡ length (lines_of text.now) }
{
    match text {
        [] => 0,
        [before @ .., _] => count_breaks(before) as u64 + 1,
    }
}
