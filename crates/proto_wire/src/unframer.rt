//! Reads frames from a stream that arrives in pieces.
ghost use Rattle.std.specs.Prelude.{◌≡◌, ◌+◌, ◌-◌, ◌≤◌, ◌++◌, ℕ, List, Result, [], length, take, drop, option_map, IfOk, OnOk, IfErr, IfSome, IfNone};
ghost use Rattle.proto_wire.specs.Wire.{unless_fault};
ghost use Rattle.proto_wire.specs.Frames.{frame_fault, head_of};
ghost use Rattle.proto_wire.specs.Unframing.{frame_size, first_from, messages_from, part_from, WasFed, newly_whole};
ghost use Rattle.proto_wire.specs.Given.{Gives, GivesAs, IsAs, UnlessMemory};

use crate::fault::WireFault;
use bytes::Bytes;
use mesh_base::list::List;
use std::alloc::{AllocError, Global};
use std::marker::Model;
use std::mem;

/// The number of bytes before a message: one for the flag, four for the length.
const HEAD: usize = 5;

// Returns the size of the frame that begins like this, or 5 if its length is not complete.
fn size(limit: u32, part: &[u8]) -> Result<usize, WireFault>
    ensures { IsAs (λ len. len) result
        (unless_fault (frame_fault limit part.now) (frame_size part.now)) }
{
    match part {
        [] => Ok(HEAD),
        [0, a, b, c, d, ..] => {
            let len = u32::from_be_bytes([*a, *b, *c, *d]);
            if len > limit {
                return Err(WireFault::TooLong { len });
            }
            Ok(HEAD + len as usize)
        }
        [0, ..] => Ok(HEAD),
        _ => Err(WireFault::Compressed),
    }
}

// Adds bytes of a piece up to the length `len`. Returns the bytes after those.
fn fill<'a>(part: &mut Vec<u8>, len: usize, piece: &'a [u8]) -> Result<&'a [u8], AllocError>
    ensures part { OnOk result
        (part.new.items ≡ part.old.items ++ take (len - length part.old.items) piece.now) }
    ensures rest { IfOk result (λ rest. rest.now ≡ drop (len - length part.old.items) piece.now) }
{
    let missing = len.saturating_sub(part.len());
    if piece.len() <= missing {
        part.extend_from_slice(piece)?;
        return Ok(&piece[piece.len()..]);
    }
    let (front, rest) = piece.split_at(missing);
    part.extend_from_slice(front)?;
    Ok(rest)
}

// Adds bytes up to the end of a frame that has begun. Returns its message and the bytes after it,
// or None if the piece does not complete the frame.
fn next<'a>(
    alloc: Global,
    limit: u32,
    part: &mut Vec<u8>,
    piece: &'a [u8],
) -> Result<Option<(Bytes, &'a [u8])>, WireFault>
    requires { head_of limit part.old.items ≡ Ok None }
    ensures first { GivesAs (option_map (λ x. (x.0, x.1.now))) result
        (head_of limit (part.old.items ++ piece.now)) }
    ensures whole { IfOk result (λ found. IfSome found (λ _. part.new.items ≡ [])) }
    ensures part { IfOk result
        (λ found. IfNone found (part.new.items ≡ part.old.items ++ piece.now)) }
{
    let rest = fill(part, HEAD, piece)?;
    let len = size(limit, part)?;
    let rest = fill(part, len, rest)?;
    if part.len() < len {
        return Ok(None);
    }
    let mut message = Bytes::from_vec(mem::replace(part, Vec::new(alloc)))?;
    message.advance(HEAD);
    Ok(Some((message, rest)))
}

/// A reader of the messages of a stream of frames that arrives in pieces of any length. After an
/// error, including out of memory, it always returns that error.
#[derive(Drop)]
pub struct Unframer {
    alloc: Global,
    limit: u32,
    fault: Option<WireFault>,
    /// The bytes after the last complete frame, unless there is an error.
    part: Vec<u8>,
}

impl Model for Unframer {
    ghost use Rattle.std.specs.Prelude.{◌≡◌, IfNone, Ok, None};
    ghost use Rattle.proto_wire.specs.Wire.{unless_fault};
    ghost use Rattle.proto_wire.specs.Frames.{head_of};
    ghost use Rattle.proto_wire.specs.Unframing.{Held};

    ghost Value = { Held };

    ghost view = { λ u. record { limit = u.limit; part = unless_fault u.fault u.part.items } };

    ghost invariant = { λ u. IfNone u.fault (head_of u.limit u.part.items ≡ Ok None) };
}

impl Unframer {
    /// Creates a reader before any bytes. The limit is the greatest length of a message.
    pub fn new(alloc: Global, limit: u32) -> Unframer
        ensures held { result ≡ record { limit = limit; part = Ok [] } }
        ensures fed { WasFed result [] }
    {
        Unframer {
            alloc,
            limit,
            fault: None,
            part: Vec::new(alloc),
        }
    }

    fn stop(&mut self, fault: WireFault) -> WireFault
        ensures held { self.new ≡ record self.old { part = Err fault } }
        ensures fault { result ≡ fault }
    {
        self.fault = Some(fault);
        self.part = Vec::new(self.alloc);
        fault
    }

    /// Reads bytes up to the end of the first frame. Returns its message and the bytes after it, or
    /// None if the piece does not complete the frame.
    pub fn take<'a>(&mut self, piece: &'a [u8]) -> Result<Option<(Bytes, &'a [u8])>, WireFault>
        ensures first { GivesAs (option_map (λ x. (x.0, x.1.now))) result
            (first_from self.old piece.now) }
        ensures whole { IfOk result (λ found. IfSome found (λ _. self.new.part ≡ Ok [])) }
        ensures part { IfOk result (λ found. IfNone found (
            IfOk self.old.part (λ part. self.new.part ≡ Ok (part ++ piece.now)))) }
        ensures stopped { IfErr result (λ fault. self.new.part ≡ Err fault) }
        ensures same { IfErr self.old.part (λ fault. result ≡ Err fault) }
        ensures limit { self.new.limit ≡ self.old.limit }
    {
        if let Some(fault) = self.fault {
            return Err(fault);
        }
        match next(self.alloc, self.limit, &mut self.part, piece) {
            Ok(found) => Ok(found),
            Err(fault) => {
                self.fault = Some(fault);
                self.part = Vec::new(self.alloc);
                Err(fault)
            }
        }
    }

    /// Reads a piece of the stream. Returns the messages that it completes, or only the error if
    /// there is one in the piece.
    pub fn feed(&mut self, piece: &[u8]) -> Result<List<Bytes>, WireFault>
        ensures messages { Gives result (messages_from self.old piece.now) }
        ensures part { OnOk result (self.new.part ≡ part_from self.old piece.now) }
        ensures stopped { IfErr result (λ fault. self.new.part ≡ Err fault) }
        ensures same { IfErr self.old.part (λ fault. result ≡ Err fault) }
        ensures limit { self.new.limit ≡ self.old.limit }

        // The same, in terms of the whole stream, in whatever pieces it has arrived.
        ensures newly { (stream : List ℕ) → WasFed self.old stream
            → Gives result (newly_whole self.old.limit stream piece.now) }
        ensures fed { (stream : List ℕ) → WasFed self.old stream
            → UnlessMemory result (WasFed self.new (stream ++ piece.now)) }
    {
        let mut messages = List::new(self.alloc);
        let mut rest = piece;
        while let Some((message, after)) = self.take(rest)? {
            let Ok(()) = messages.add(message) else {
                return Err(self.stop(WireFault::Memory));
            };
            rest = after;
        }
        Ok(messages)
    }
}
