// The open links, each with the stream of its peer.
ghost use Rattle.std.specs.Prelude.{◌≡◌, ◌<◌, length, IfSome};
ghost use Rattle.std.specs.Io.{ReadsAtMost, WritesAtMost};
ghost use Rattle.std.specs.Io.KnownBytes.{ReadConsumes, WriteAppends};
ghost use Rattle.std.specs.List.{HoldsAt};

use mio::event::Source;
use mio::{Interest, Registry, Token};
use std::io::{self, Read, Write};

/// An open link.
#[derive(Drop)]
pub(crate) struct OpenLink<S> {
    pub(crate) number: u32,
    pub(crate) stream: S,
}

impl<S> OpenLink<S> {
    /// Returns the token under which polls show the link: its number.
    fn token(&self) -> Token
        ensures number { result.0 ≡ self.now.number }
    {
        Token(self.number as usize)
    }
}

impl<S: Source> OpenLink<S> {
    /// Makes polls show the link. Returns whether they do.
    pub(crate) fn watch(&mut self, registry: &Registry) -> bool
        ensures number { self.new.number ≡ self.old.number }
    {
        let token = self.token();
        registry
            .register(
                &mut self.stream,
                token,
                Interest::READABLE | Interest::WRITABLE,
            )
            .is_ok()
    }

    /// Makes the next poll show the link again if it is ready. Returns whether it will.
    pub(crate) fn watch_again(&mut self, registry: &Registry) -> bool
        ensures number { self.new.number ≡ self.old.number }
    {
        let token = self.token();
        registry
            .reregister(
                &mut self.stream,
                token,
                Interest::READABLE | Interest::WRITABLE,
            )
            .is_ok()
    }
}

impl<S: Read> OpenLink<S> {
    /// Reads from the stream of the link.
    pub(crate) fn read(&mut self, buf: &mut [u8]) -> io::Result<usize>
        ensures bound { ReadsAtMost result buf.new }
        ensures number { self.new.number ≡ self.old.number }
        ensures bytes { ReadConsumes (S.remaining self.old.stream) (S.remaining self.new.stream)
            result buf.new }
    {
        self.stream.read(buf)
    }
}

impl<S: Write> OpenLink<S> {
    /// Writes to the stream of the link.
    pub(crate) fn write(&mut self, piece: &[u8]) -> io::Result<usize>
        ensures bound { WritesAtMost result piece.now }
        ensures number { self.new.number ≡ self.old.number }
        ensures bytes { WriteAppends (S.contents self.old.stream) (S.contents self.new.stream)
            result piece.now }
    {
        self.stream.write(piece)
    }
}

/// Returns the index of a link among the open ones.
pub(crate) fn place<S>(links: &[OpenLink<S>], link: u32) -> Option<usize>
    ensures within { IfSome result (λ at. at < length links.now) }
    ensures number { IfSome result (λ at. HoldsAt (λ other. other.number ≡ link) links.now at) }
{
    match links.binary_search_by_key(&link, |other| other.number) {
        Ok(at) => Some(at),
        Err(_) => None,
    }
}
