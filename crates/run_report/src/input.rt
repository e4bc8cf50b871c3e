// Counts the input.
ghost use Rattle.std.specs.Prelude.{◌≡◌, ◌++◌, ℕ, List, [], take, false, true, IfOk, OnErr};
ghost use Rattle.std.specs.Io.{ReadsAtMost};
ghost use Rattle.std.specs.Io.KnownBytes.{ReadConsumes};
ghost use Rattle.mesh_outside.specs.Causes.{HasCause};
ghost use Rattle.run_report.specs.Counts.{AreCounts};

use crate::feed::FeedNotes;
use crate::lines::LineCount;
use crate::progress::Progress;
use mesh_outside::{Failed, Source};
use std::alloc::Global;
use std::io::Write;
use std::time::Clock;

/// The counts of the input.
#[derive(Clone, Copy)]
pub struct InputCounts {
    /// Whether a read has succeeded.
    pub was_asked: bool,
    pub bytes: u64,
    pub lines: LineCount,
}

impl InputCounts {
    /// No input.
    pub const NONE: InputCounts = InputCounts {
        was_asked: false,
        bytes: 0,
        lines: LineCount::NONE,
    };

    fn new() -> InputCounts
        ensures counts { AreCounts result [] }
        ensures unasked { result.was_asked ≡ false }
    {
        InputCounts::NONE
    }

    fn take(&mut self, piece: &[u8])
        ensures counts { (bytes : List ℕ) → AreCounts self.old bytes
            → AreCounts self.new (bytes ++ piece.now) }
        ensures asked { self.new.was_asked ≡ true }
    {
        self.was_asked = true;
        self.bytes = self.bytes.saturating_add(piece.len() as u64);
        self.lines.take(piece);
    }
}

/// A source that passes on the bytes of another, counts them, and shows progress on a screen.
#[derive(Drop)]
pub struct InputTally<S, C, W> {
    source: S,
    counts: InputCounts,
    /// The record of the input as a feed.
    pub feed: FeedNotes,
    pub progress: Option<Progress<C, W>>,
}

impl<S: Source, C: Clock, W: Write> InputTally<S, C, W> {
    pub fn new(alloc: Global, source: S, progress: Option<Progress<C, W>>) -> InputTally<S, C, W>
        ensures source { result.source ≡ source }
        ensures counts { AreCounts result.counts [] }
        ensures unasked { result.counts.was_asked ≡ false }
    {
        InputTally {
            source,
            counts: InputCounts::new(),
            feed: FeedNotes::new(alloc),
            progress,
        }
    }

    /// Ends the input and clears the progress. Returns the counts.
    pub fn end(&mut self) -> InputCounts
        ensures source { self.new.source ≡ self.old.source }
        ensures counts { result ≡ self.old.counts }
    {
        self.feed.end();
        if let Some(progress) = &mut self.progress {
            progress.clear();
        }
        self.counts
    }
}

fn show<C: Clock, W: Write>(progress: &mut Option<Progress<C, W>>, bytes: u64) {
    if let Some(progress) = progress {
        progress.show(bytes);
    }
}

impl<S: Source, C: Clock, W: Write> Source for InputTally<S, C, W> {
    ghost left = { λ s. S.left s.source };

    ghost faults = { λ s. S.faults s.source };

    fn read(&mut self, buf: &mut [u8]) -> Result<usize, Failed>
        ensures bound { ReadsAtMost result buf.new }
        ensures bytes { ReadConsumes (S.left self.old.source)
            (S.left self.new.source) result buf.new }
        ensures cause { HasCause (S.faults self.old.source) (S.faults self.new.source) result }

        // The bytes that are returned are counted.
        ensures counts { (bytes : List ℕ) → AreCounts self.old.counts bytes
            → IfOk result (λ n. AreCounts self.new.counts (bytes ++ take n buf.new)) }
        ensures asked { IfOk result (λ n. self.new.counts.was_asked ≡ true) }
        ensures same { OnErr result (self.new.counts ≡ self.old.counts) }
    {
        match self.source.read(buf) {
            Ok(n) => {
                self.counts.take(&buf[..n]);
                self.feed.take(&buf[..n]);
                show(&mut self.progress, self.counts.bytes);
                Ok(n)
            }
            Err(fault) => Err(fault),
        }
    }
}
