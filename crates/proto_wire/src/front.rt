//! Bytes that grow at the front. The length of a message is written after the message.
ghost use Rattle.std.specs.Prelude.{◌≡◌, ◌≤◌, ◌++◌, [], length, drop, IfOk, OnOk, OnErr};

use mesh_base::memory::Memory;
use std::alloc::Global;
use std::marker::Model;

/// A buffer of bytes that grows at the front.
#[derive(Drop)]
pub struct FrontBytes {
    alloc: Global,
    buffer: Vec<u8>,
    /// The index at which the bytes begin.
    start: usize,
}

impl Model for FrontBytes {
    ghost use Rattle.std.specs.Prelude.{ℕ, ◌≤◌, List, drop, length};

    ghost Value = { List ℕ };

    ghost view = { λ f. drop f.start f.buffer.items };

    ghost invariant = { λ f. f.start ≤ length f.buffer.items };
}

/// Moves the bytes from `start` on to a larger buffer, with at least `room` bytes before them. If
/// out of memory, they do not change.
#[inline(never)]
fn grow(alloc: Global, buffer: &mut Vec<u8>, start: &mut usize, room: usize) -> Result<(), Memory>
    requires { start.old ≤ length buffer.old.items }
    ensures same { drop start.new buffer.new.items ≡ drop start.old buffer.old.items }
    ensures within { start.new ≤ length buffer.new.items }
    ensures room { OnOk result (room ≤ start.new) }
{
    let used = &buffer[*start..];
    let before = room.saturating_add(used.len()).saturating_add(64);
    let mut grown = Vec::with_capacity(alloc, before.saturating_add(used.len()))?;
    grown.resize(before, 0)?;
    grown.extend_from_slice(used)?;
    *buffer = grown;
    *start = before;
    Ok(())
}

/// Makes room for `room` bytes before those from `start` on. If out of memory, they do not change.
fn make_room(
    alloc: Global,
    buffer: &mut Vec<u8>,
    start: &mut usize,
    room: usize,
) -> Result<(), Memory>
    requires { start.old ≤ length buffer.old.items }
    ensures same { drop start.new buffer.new.items ≡ drop start.old buffer.old.items }
    ensures within { start.new ≤ length buffer.new.items }
    ensures room { OnOk result (room ≤ start.new) }
{
    if room <= *start {
        return Ok(());
    }
    grow(alloc, buffer, start, room)
}

impl FrontBytes {
    /// Returns an empty buffer with room for `room` bytes.
    pub fn with_room(alloc: Global, room: usize) -> Result<FrontBytes, Memory>
        ensures { IfOk result (λ bytes. bytes ≡ []) }
    {
        let mut buffer = Vec::new(alloc);
        let mut start = 0;
        make_room(alloc, &mut buffer, &mut start, room)?;
        Ok(FrontBytes {
            alloc,
            buffer,
            start,
        })
    }

    pub fn len(&self) -> usize
        ensures { result ≡ length self.now }
    {
        self.buffer.len() - self.start
    }

    pub fn as_slice(&self) -> &[u8]
        ensures { result.now ≡ self.now }
    {
        &self.buffer[self.start..]
    }

    /// Puts a piece before the bytes. If out of memory, they do not change.
    pub fn put(&mut self, piece: &[u8]) -> Result<(), Memory>
        ensures ok { OnOk result (self.new ≡ piece.now ++ self.old) }
        ensures err { OnErr result (self.new ≡ self.old) }
    {
        make_room(self.alloc, &mut self.buffer, &mut self.start, piece.len())?;
        let from = self.start - piece.len();
        self.buffer[from..self.start].copy_from_slice(piece);
        self.start = from;
        Ok(())
    }
}
