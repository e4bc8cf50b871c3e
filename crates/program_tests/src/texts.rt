// The input of a run.
use crate::endpoints::push_slice;
use crate::settings::Settings;
use row_file::TrialFault;
use std::alloc::{AllocError, Global};

/// Returns the lines, each ended by a carriage return and a line feed.
pub fn crlf(alloc: Global, input: &str) -> Result<String, AllocError> {
    let mut text = String::new(alloc);
    for line in input.split_terminator('\n') {
        text.push_str(line)?;
        text.push_str("\r\n")?;
    }
    Ok(text)
}

// Appends a text in which `\r`, `\t` and `\s` stand for a carriage return, a tab and a space.
fn push_unescaped(text: &mut String, escaped: &str) -> Result<(), TrialFault> {
    let Some((front, pieces)) = escaped.split_once('\\') else {
        text.push_str(escaped)?;
        return Ok(());
    };
    text.push_str(front)?;
    for piece in pieces.split('\\') {
        let byte = match piece.get(..1) {
            Some("r") => '\r',
            Some("t") => '\t',
            Some("s") => ' ',
            _ => return Err(TrialFault::new("no escape is so")),
        };
        text.push(byte)?;
        text.push_str(piece.get(1..).unwrap_or(""))?;
    }
    Ok(())
}

// Appends a line of the input, and spaces until it has this length.
fn push_line(
    text: &mut String,
    settings: &Settings,
    line: &str,
    length: u64,
) -> Result<(), TrialFault> {
    if settings.endpoints {
        if let Some(range) = line.strip_prefix("slice ") {
            return push_slice(text, range);
        }
    }
    push_unescaped_if(text, settings.escapes, line)?;
    for _ in line.len() as u64..length {
        text.push(' ')?;
    }
    text.push('\n')?;
    Ok(())
}

fn push_unescaped_if(text: &mut String, escapes: bool, line: &str) -> Result<(), TrialFault> {
    if escapes {
        return push_unescaped(text, line);
    }
    text.push_str(line)?;
    Ok(())
}

/// Returns the input that a row with these settings stands for.
pub fn input_of(alloc: Global, settings: &Settings, input: &str) -> Result<String, TrialFault> {
    let mut text = String::new(alloc);
    let mut length = settings.pad;
    for line in input.split_terminator('\n') {
        push_line(&mut text, settings, line, length)?;
        length = 0;
    }
    if settings.no_end {
        text.pop();
    }
    Ok(text)
}
