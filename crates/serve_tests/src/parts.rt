// Paths and lines by their names, and the bytes that are made of them.
use crate::scripts::number;
use mesh_base::list::List;
use mesh_base::memory::Memory;
use row_file::TrialFault;
use std::alloc::Global;

/// Texts by their names.
#[derive(Drop)]
pub struct Parts {
    pub alloc: Global,
    lines: String,
}

impl Parts {
    /// Reads lines of a name and a text.
    pub fn new(alloc: Global, lines: &str) -> Result<Parts, Memory> {
        Ok(Parts {
            alloc,
            lines: String::from_str(alloc, lines)?,
        })
    }

    fn text_of(&self, name: &str) -> Option<&str> {
        for line in self.lines.as_str().lines() {
            match line.split_once(' ') {
                Some((other, text)) if other == name => return Some(text),
                _ => {}
            }
        }
        None
    }

    /// Returns the bytes of parts with `+` between them.
    pub fn bytes(&self, parts: &str) -> Result<List<u8>, TrialFault> {
        let mut bytes = List::new(self.alloc);
        for part in parts.split('+') {
            self.push_part(part, &mut bytes)?;
        }
        Ok(bytes)
    }

    // Appends the bytes of a part: hex or the name of hex after `#`, this number of `a` after `*`,
    // a line by its name, or a string. A line ends with a line feed.
    fn push_part(&self, part: &str, bytes: &mut List<u8>) -> Result<(), TrialFault> {
        if let Some(count) = part.strip_prefix('*') {
            return push_many(number(count)?, bytes);
        }
        let text = self.text_of(part);
        if let Some(digits) = part.strip_prefix('#') {
            let part = hex::decode(self.alloc, text.unwrap_or(digits))?;
            return Ok(bytes.extend_from_slice(part.as_slice())?);
        }
        match text {
            Some(line) => {
                bytes.extend_from_slice(line.as_bytes())?;
                Ok(bytes.add(b'\n')?)
            }
            None => Ok(bytes.extend_from_slice(part.as_bytes())?),
        }
    }
}

fn push_many(count: u32, bytes: &mut List<u8>) -> Result<(), TrialFault> {
    for _ in 0..count {
        bytes.add(b'a')?;
    }
    Ok(())
}
