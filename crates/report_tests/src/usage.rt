// What is told of command lines that are refused.
use crate::texts::{bytes_of, words_of};
use mesh_base::text::Text;
use row_file::TrialFault;
use run_report::{CommandReader, USAGE, USAGE_LINE, WrongWords};
use std::alloc::Global;

// A reader that refuses words among which is one of these, each on a line.
#[derive(Clone, Copy)]
struct Refusing<'a> {
    words: &'a str,
}

impl CommandReader for Refusing<'_> {
    fn refuses(&self, words: &[Text]) -> bool {
        for refused in self.words.split_terminator('\n') {
            for word in words {
                if word.as_str() == refused {
                    return true;
                }
            }
        }
        false
    }
}

fn text_of(alloc: Global, words: &str, refused: &str) -> Result<String, TrialFault> {
    let reader = Refusing { words: refused };
    let texts = words_of(alloc, words)?;
    Ok(format!(in alloc; "{}", WrongWords::of(alloc, &texts, &reader))?)
}

// Returns what a text says after the line of the usage.
fn fault_in(text: &str) -> &str {
    let fault = text
        .strip_prefix(USAGE_LINE)
        .and_then(|rest| rest.strip_prefix("linkerd_cli: "));
    fault
        .and_then(|fault| fault.strip_suffix('\n'))
        .unwrap_or(text)
}

/// Appends the fault of each line of words.
pub fn push_wrong_words(
    alloc: Global,
    refused: &str,
    table: &str,
    out: &mut String,
) -> Result<(), TrialFault> {
    for row in table.split_terminator('\n') {
        let (words, _) = row.split_once(" => ").unwrap_or((row, ""));
        let text = text_of(alloc, words, refused)?;
        let fault = fault_in(text.as_str());
        write!(out, "{words} => {fault}\n")?;
    }
    Ok(())
}

/// Appends the first line of what is told of words, and whether the usage follows.
pub fn push_usage(alloc: Global, words: &str, out: &mut String) -> Result<(), TrialFault> {
    let text = text_of(alloc, words, "")?;
    match text.as_str().split_once('\n') {
        Some((line, rest)) if rest == USAGE => write!(out, "{line}\nand the whole usage\n")?,
        _ => write!(out, "{text}")?,
    }
    Ok(())
}

/// Appends what is told of words that are not UTF-8.
pub fn push_not_utf8(alloc: Global, out: &mut String) -> Result<(), TrialFault> {
    let text = format!(in alloc; "{}", WrongWords::not_utf8())?;
    let fault = fault_in(text.as_str());
    write!(out, "{fault}\n")?;
    Ok(())
}

/// Appends the lines of the usage that are too long for a terminal, and the names that it does not
/// contain.
pub fn push_usage_text(alloc: Global, names: &str, out: &mut String) -> Result<(), TrialFault> {
    for line in USAGE.split_terminator('\n') {
        if line.len() > 80 {
            write!(out, "{line}\n")?;
        }
    }
    for name in names.split_terminator('\n') {
        let bytes = bytes_of(alloc, name)?;
        if !USAGE.contains(str::from_utf8(bytes.as_slice())?) {
            write!(out, "{name}\n")?;
        }
    }
    Ok(())
}
