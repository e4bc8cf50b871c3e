// The arguments of the program.
use command_run::words::{status_without_words, words_of};
use row_file::TrialFault;
use std::alloc::Global;
use std::env::{Env, FillError};
use std::io::ErrorKind;

// The arguments of a program that is called with one word.
#[derive(Clone, Copy, Drop)]
struct OneWord<'a> {
    word: &'a [u8],
}

impl<'a> Env for OneWord<'a> {
    fn arg(&self, i: usize, buf: &mut [u8]) -> Result<usize, FillError> {
        let argument = match i {
            0 => b"linkerd_cli" as &[u8],
            1 => self.word,
            _ => return Err(FillError::NotPresent),
        };
        let size = argument.len();
        let Some(start) = buf.get_mut(..size) else {
            return Err(FillError::TooLong);
        };
        start.copy_from_slice(argument);
        Ok(size)
    }

    fn var(&self, _name: &str, _buf: &mut [u8]) -> Result<usize, FillError> {
        Err(FillError::NotPresent)
    }

    fn var_at(&self, _i: usize, _buf: &mut [u8]) -> Result<usize, FillError> {
        Err(FillError::NotPresent)
    }
}

/// Appends the words of a command line of one argument, each ended by `;`, or why they cannot be
/// read.
pub fn push_argument(alloc: Global, digits: &str, out: &mut String) -> Result<(), TrialFault> {
    let argument = hex::decode(alloc, digits)?;
    let word = argument.as_slice();
    match words_of(&(OneWord { word }, alloc)) {
        Ok(words) => {
            for word in words.iter() {
                out.push_str(word.as_str())?;
                out.push(';')?;
            }
            out.push('\n')?;
        }
        Err(status) => write!(out, "status {status:?}\n")?,
    }
    Ok(())
}

/// Appends the status for arguments that cannot be read.
pub fn push_unread(kind: &str, out: &mut String) -> Result<(), TrialFault> {
    let status = match kind {
        "OutOfMemory" => status_without_words(ErrorKind::OutOfMemory),
        "InvalidData" => status_without_words(ErrorKind::InvalidData),
        _ => return Err(TrialFault::new("no kind of error has this name")),
    };
    write!(out, "status {status:?}\n")?;
    Ok(())
}
