// Formats bytes of the input for a terminal.
use std::fmt;
use std::fmt::{Display, Formatter};

fn shown(byte: u8) -> char {
    if byte.is_ascii_graphic() || byte == b' ' {
        char::from(byte)
    } else {
        '?'
    }
}

/// Bytes, with `?` in place of each that is not printable ASCII.
#[derive(Clone, Copy, Drop)]
pub(crate) struct Printable<'a>(pub(crate) &'a [u8]);

impl Display for Printable<'_> {
    fn fmt<W: fmt::Write>(&self, f: &mut Formatter<W>) -> fmt::Result {
        for byte in self.0 {
            f.write_char(shown(*byte))?;
        }
        Ok(())
    }
}

/// A JSON string as it is between its quotes, formatted without the backslashes of escapes.
#[derive(Clone, Copy, Drop)]
pub(crate) struct JsonString<'a>(pub(crate) &'a [u8]);

impl Display for JsonString<'_> {
    fn fmt<W: fmt::Write>(&self, f: &mut Formatter<W>) -> fmt::Result {
        let mut is_escaped = false;
        for byte in self.0 {
            is_escaped = *byte == b'\\' && !is_escaped;
            if !is_escaped {
                f.write_char(shown(*byte))?;
            }
        }
        Ok(())
    }
}
