// Records the last error of a reader or a writer, which a source or a sink does not return.
use std::cell::Cell;
use std::io;
use std::io::{Read, Write};

/// The last error, or None if there was none.
pub type LastError = Cell<Option<io::Error>>;

/// A reader or a writer that passes each call on to another, and records its last error.
#[derive(Drop)]
pub struct ErrorKeeper<'a, T> {
    inner: T,
    last: &'a LastError,
}

impl<'a, T> ErrorKeeper<'a, T> {
    pub fn new(inner: T, last: &'a LastError) -> ErrorKeeper<'a, T> {
        ErrorKeeper { inner, last }
    }
}

impl<R: Read> Read for ErrorKeeper<'_, R> {
    ghost remaining = { λ s. R.remaining s.inner };

    fn read(&mut self, buf: &mut [u8]) -> io::Result<usize> {
        match self.inner.read(buf) {
            Ok(n) => Ok(n),
            Err(error) => {
                self.last.set(Some(error));
                Err(error)
            }
        }
    }
}

impl<W: Write> Write for ErrorKeeper<'_, W> {
    ghost contents = { λ s. W.contents s.inner };

    fn write(&mut self, piece: &[u8]) -> io::Result<usize> {
        match self.inner.write(piece) {
            Ok(n) => Ok(n),
            Err(error) => {
                self.last.set(Some(error));
                Err(error)
            }
        }
    }

    fn flush(&mut self) -> io::Result<()> {
        self.inner.flush()
    }
}
