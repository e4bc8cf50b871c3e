// Sources of bytes.
ghost use Rattle.std.specs.Prelude.{◌≡◌, ◌≤◌, ◌↔◌, List, [], ℕ, Some, None, min, length, drop, vec_len, Contains, IsErr, IfOk, is_err};
ghost use Rattle.std.specs.declared.option.Option.{Option};
ghost use Rattle.std.specs.Io.{ReadsAtMost};
ghost use Rattle.std.specs.Io.KnownBytes.{ReadConsumes};
ghost use Rattle.mesh_outside.specs.Causes.{HasCause, one_more, counted, none_ever};

use mesh_base::list::List;
use std::alloc::Global;
use std::io::Read;

/// The error of a read from a source.
#[derive(Clone, Copy, Debug, PartialEq, Eq)]
pub struct Failed;

/// A source of bytes.
pub trait Source {
    /// The bytes that are left, if specified.
    ghost left: { Self → Option (List ℕ) };

    /// The number of failed reads so far, which saturates at `u64::MAX`.
    ghost faults: { Self → ℕ };

    /// Moves bytes from the front of what is left to the front of the buffer, and returns their
    /// number. 0 for a nonempty buffer means the end of the input.
    fn read(&mut self, buf: &mut [u8]) -> Result<usize, Failed>
        ensures bound { ReadsAtMost result buf.new }
        ensures bytes { ReadConsumes (left self.old) (left self.new) result buf.new }
        ensures cause { HasCause (faults self.old) (faults self.new) result };
}

/// A source in memory. The calls whose numbers, from 1, are in `fails` fail.
#[derive(Drop)]
pub struct MemSource {
    /// The bytes left.
    pub bytes: Vec<u8>,
    pub fails: List<u64>,
    /// The number of calls so far.
    pub calls: u64,
    /// The number of failed calls so far.
    pub count: u64,
}

impl MemSource {
    /// Returns a source of these bytes that never fails.
    pub fn of(alloc: Global, bytes: Vec<u8>) -> MemSource
        ensures bytes { result.bytes.items ≡ bytes.items }
        ensures fails { result.fails ≡ [] }
        ensures calls { result.calls ≡ 0 }
        ensures count { result.count ≡ 0 }
    {
        MemSource {
            bytes,
            fails: List::new(alloc),
            calls: 0,
            count: 0,
        }
    }
}

fn remove_front(bytes: &mut Vec<u8>, n: usize)
    requires { n ≤ vec_len bytes.old }
    ensures items { bytes.new.items ≡ drop n bytes.old.items }
{
    let len = bytes.len();
    bytes.as_mut_slice().copy_within(n..len, 0);
    bytes.truncate(len - n);
}

impl Source for MemSource {
    ghost left = { λ s. Some s.bytes.items };

    ghost faults = { λ s. s.count };

    fn read(&mut self, buf: &mut [u8]) -> Result<usize, Failed>
        ensures bound { ReadsAtMost result buf.new }
        ensures bytes { ReadConsumes (Some self.old.bytes.items) (Some self.new.bytes.items) result
            buf.new }
        ensures cause { HasCause self.old.count self.new.count result }

        // The calls in `fails` fail, others read all bytes that are left and fit the buffer.
        ensures fails { IsErr result ↔ Contains self.old.fails self.new.calls }
        ensures whole { IfOk result (λ n. n ≡ min (length buf.old) (vec_len self.old.bytes)) }
        ensures calls { self.new.calls ≡ one_more self.old.calls }
        ensures count { self.new.count ≡ counted (is_err result) self.old.count }
        ensures same { self.new.fails ≡ self.old.fails }
    {
        self.calls = self.calls.saturating_add(1);
        if self.fails.as_slice().contains(&self.calls) {
            self.count = self.count.saturating_add(1);
            return Err(Failed);
        }
        let n = buf.len().min(self.bytes.len());
        let front = &self.bytes.as_slice()[..n];
        buf[..n].copy_from_slice(front);
        remove_front(&mut self.bytes, n);
        Ok(n)
    }
}

/// A source of borrowed bytes. No call fails.
#[derive(Drop)]
pub struct SureSource<'a> {
    /// The bytes left.
    pub bytes: &'a [u8],
}

impl<'a> Source for SureSource<'a> {
    ghost left = { λ s. Some s.bytes.now };

    ghost faults = { λ s. none_ever };

    fn read(&mut self, buf: &mut [u8]) -> Result<usize, Failed>
        ensures bound { ReadsAtMost result buf.new }
        ensures bytes { ReadConsumes (Some self.old.bytes.now)
            (Some self.new.bytes.now) result buf.new }
        ensures cause { HasCause none_ever none_ever result }

        // A read moves all bytes that are left and fit the buffer.
        ensures whole { result ≡ Ok (min (length buf.old) (length self.old.bytes.now)) }
    {
        let bytes = self.bytes;
        let n = buf.len().min(bytes.len());
        buf[..n].copy_from_slice(&bytes[..n]);
        self.bytes = &bytes[n..];
        Ok(n)
    }
}

/// A source over any `Read`. Its bytes are specified if std does so: not for a file or stdin.
#[derive(Drop)]
pub struct ReadSource<R> {
    reader: R,
    count: u64,
}

impl<R: Read> ReadSource<R> {
    pub fn new(reader: R) -> ReadSource<R>
        ensures faults { ⟦<ReadSource<R> as Source>⟧.faults result ≡ 0 }
        ensures left { ⟦<ReadSource<R> as Source>⟧.left result ≡ R.remaining reader }
    {
        ReadSource { reader, count: 0 }
    }
}

impl<R: Read> Source for ReadSource<R> {
    ghost left = { λ s. R.remaining s.reader };

    ghost faults = { λ s. s.count };

    fn read(&mut self, buf: &mut [u8]) -> Result<usize, Failed>
        ensures bound { ReadsAtMost result buf.new }
        ensures bytes { ReadConsumes (R.remaining self.old.reader) (R.remaining self.new.reader)
            result buf.new }
        ensures cause { HasCause self.old.count self.new.count result }

        // Only errors are counted.
        ensures count { self.new.count ≡ counted (is_err result) self.old.count }
    {
        match self.reader.read(buf) {
            Ok(n) => Ok(n),
            Err(_) => {
                self.count = self.count.saturating_add(1);
                Err(Failed)
            }
        }
    }
}
