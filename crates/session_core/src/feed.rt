// Cuts the bytes of a feed into numbered lines.
ghost use Rattle.std.specs.Prelude.{◌≡◌, ◌↔◌, IsTrue, ◌+◌, ◌<◌, ◌^◌, ℕ, List, [], ◌∷◌, ◌++◌, length, OnOk, IfOk};
ghost use Rattle.std.specs.Option.{option_copied};
ghost use Rattle.line_run.specs.Rows.{NoBreak, row_of, rows_of};
ghost use Rattle.session_core.specs.Feeds.{FeedPart, Takes};
ghost use Rattle.session_core.specs.Pieces.{line_ask, line_asks};

use crate::session::Ask;
use bytes::Bytes;
use line_run::Cutter;
use mesh_base::list::List;
use mesh_base::memory::Memory;
use std::alloc::Global;
use std::marker::Model;

fn ask(alloc: Global, number: u64, row: Option<&[u8]>) -> Result<Ask, Memory>
    ensures { IfOk result (λ made. made ≡ line_ask number (option_copied {T = List ℕ} row.entry)) }
{
    match row {
        Some(line) => {
            let Ok(text) = Bytes::copy_from_slice(alloc, line) else {
                return Err(Memory);
            };
            Ok(Ask::Line { number, text })
        }
        None => Ok(Ask::LongLine { number }),
    }
}

/// The state of a feed: the incomplete line, and the number of lines before it.
#[derive(Drop)]
pub struct Feed {
    cutter: Cutter,
    lines: u64,
}

impl Model for Feed {
    ghost use Rattle.line_run.specs.Rows.{NoBreak};
    ghost use Rattle.session_core.specs.Feeds.{FeedPart};

    ghost Value = { FeedPart };

    ghost view = { λ feed. record { part = feed.cutter.part.items; lines = feed.lines } };

    ghost invariant = { λ feed. NoBreak feed.cutter.part.items };
}

impl Feed {
    /// Creates a feed before its first byte.
    pub fn new(alloc: Global) -> Feed
        ensures { result ≡ record { part = []; lines = 0 } }
    {
        Feed {
            cutter: Cutter::new(alloc),
            lines: 0,
        }
    }

    /// Whether this number of further lines can be numbered.
    pub fn has_room(&self, more: u64) -> bool
        ensures { IsTrue result ↔ self.now.lines + more < 2 ^ 64 }
    {
        more <= u64::MAX - self.lines
    }

    // Appends the complete line to the requests, and begins the next line.
    fn give(&mut self, alloc: Global, limit: u64, asks: &mut List<Ask>) -> Result<(), Memory>
        requires { self.old.lines + 1 < 2 ^ 64 }
        ensures lines { OnOk result (self.new.lines ≡ self.old.lines + 1) }
        ensures part { OnOk result (self.new.part ≡ []) }
        ensures asks { OnOk result (asks.new
            ≡ asks.old ++ line_ask (self.old.lines + 1) (row_of limit self.old.part) ∷ []) }
    {
        self.lines += 1;
        let made = ask(alloc, self.lines, self.cutter.row(limit))?;
        let Ok(()) = asks.push(made) else {
            return Err(Memory);
        };
        self.cutter.clear();
        Ok(())
    }

    /// Appends each line that is now complete to the requests, and keeps the beginning of the next
    /// line.
    pub fn take(
        &mut self,
        alloc: Global,
        limit: u64,
        piece: &[u8],
        asks: &mut List<Ask>,
    ) -> Result<(), Memory>
        requires room { self.old.lines + length piece.now < 2 ^ 64 }
        ensures part { OnOk result (NoBreak self.new.part) }
        ensures takes { OnOk result (Takes limit self.old.part self.old.lines asks.old piece.now
            self.new.part self.new.lines asks.new) }
    {
        let mut rest = piece;
        loop {
            let Ok(found) = self.cutter.take(limit, rest) else {
                return Err(Memory);
            };
            let Some(after) = found else {
                return Ok(());
            };
            self.give(alloc, limit, asks)?;
            rest = after;
        }
    }

    /// Appends the last line to the requests, if bytes without LF are left.
    pub fn end(&mut self, alloc: Global, limit: u64, asks: &mut List<Ask>) -> Result<(), Memory>
        requires room { self.old.lines + 1 < 2 ^ 64 }
        ensures asks { OnOk result (asks.new
            ≡ asks.old ++ line_asks self.old.lines (rows_of limit self.old.part)) }
        ensures lines { OnOk result (self.new.lines
            ≡ self.old.lines + length (rows_of limit self.old.part)) }
    {
        if self.cutter.has_last() {
            return self.give(alloc, limit, asks);
        }
        Ok(())
    }
}
