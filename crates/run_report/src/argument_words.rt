// Finds the error in the words after the name of a command.
use crate::command::{Command, value_of};
use crate::options::{ARGUMENTS, Argument};
use crate::words::{CommandReader, Wrong};
use mesh_base::memory::Memory;
use mesh_base::text::Text;
use std::alloc::Global;

// The state after some of the words.
#[derive(Drop)]
struct Walk<'a> {
    command: Command,
    // The option whose value is the next word.
    pending: Option<Argument>,
    // The word `--` was read.
    is_ended: bool,
    number: Option<&'a str>,
}

impl<'a> Walk<'a> {
    // Reads the next word. Returns its error and the word to report, if it is wrong.
    fn step(&mut self, word: &'a str) -> Option<(Wrong, &'a str)> {
        let is_hyphened = word.len() > 1 && word.starts_with("-");
        if let Some(option) = self.pending.take() {
            return if is_hyphened {
                Some((Wrong::NoValue(option), ""))
            } else {
                None
            };
        }
        if self.is_ended || !is_hyphened {
            return self.take_number(word);
        }
        if word == "--" {
            self.is_ended = true;
            return None;
        }
        self.take_option(word)
    }

    fn take_number(&mut self, word: &'a str) -> Option<(Wrong, &'a str)> {
        if self.command == Command::Sample && self.number.is_none() {
            self.number = Some(word);
            return None;
        }
        Some((Wrong::Extra, word))
    }

    fn take_option(&mut self, word: &'a str) -> Option<(Wrong, &'a str)> {
        let (name, has_value) = match word.split_once("=") {
            Some((name, _)) => (name, true),
            None => (word, false),
        };
        match Argument::named(name) {
            Some(option) if option.is_of(self.command) => {
                if !has_value {
                    self.pending = Some(option);
                }
                None
            }
            _ => Some((Wrong::Option, name)),
        }
    }
}

// The words of a command. The command has all the options, and each has a value.
#[derive(Clone, Copy)]
struct ArgumentWords<'a> {
    command: Command,
    words: &'a [Text],
    number: Option<&'a str>,
}

// Checks the options and the number, but not the values of options.
fn read_form<'a>(
    command: Command,
    words: &'a [Text],
) -> Result<ArgumentWords<'a>, (Wrong, &'a str)> {
    let mut walk = Walk {
        command,
        pending: None,
        is_ended: false,
        number: None,
    };
    for word in words {
        if let Some(found) = walk.step(word.as_str()) {
            return Err(found);
        }
    }
    match walk.pending {
        Some(option) => Err((Wrong::NoValue(option), "")),
        None => Ok(ArgumentWords {
            command,
            words,
            number: walk.number,
        }),
    }
}

fn is_option(word: &str, name: &str) -> bool {
    match word.strip_prefix(name) {
        Some(rest) => rest.is_empty() || rest.starts_with("="),
        None => false,
    }
}

// Returns the words of a command line with one more argument of this value.
fn probe_words(
    alloc: Global,
    probe: &str,
    argument: Argument,
    value: &str,
) -> Result<Vec<Text>, Memory> {
    let mut words = Vec::new(alloc);
    for word in probe.split(' ') {
        words.push(Text::from_str(alloc, word)?)?;
    }
    let last = if argument == Argument::Number {
        String::from_str(alloc, value)?
    } else {
        format!(in alloc; "{}={value}", argument.name())?
    };
    words.push(Text::from_string(last)?)?;
    Ok(words)
}

impl<'a> ArgumentWords<'a> {
    fn value(&self, argument: Argument) -> Option<&'a str> {
        if argument == Argument::Number {
            self.number
        } else {
            value_of(self.words, argument.name())
        }
    }

    fn method(&self) -> &'a str {
        self.value(Argument::Method).unwrap_or("")
    }

    fn is_twice(&self, argument: Argument) -> bool {
        let mut is_given = false;
        for word in self.words {
            if is_option(word.as_str(), argument.name()) {
                if is_given {
                    return true;
                }
                is_given = true;
            }
        }
        false
    }

    fn is_missing(&self, argument: Argument) -> bool {
        argument.is_needed(self.command, self.method()) && self.value(argument).is_none()
    }

    // Whether the reader refuses a command line because of the value of the argument alone.
    fn is_refused<R: CommandReader>(&self, alloc: Global, argument: Argument, reader: &R) -> bool {
        let (Some(value), Some(probe)) = (self.value(argument), argument.probe()) else {
            return false;
        };
        if argument.is_of_method() && !argument.is_needed(self.command, self.method()) {
            return false;
        }
        match probe_words(alloc, probe, argument, value) {
            Ok(words) => reader.refuses(&words),
            Err(_) => false,
        }
    }

    // Returns the error in the options and their values.
    fn wrong<R: CommandReader>(&self, alloc: Global, reader: &R) -> (Wrong, &'a str) {
        for argument in &ARGUMENTS {
            if self.is_twice(*argument) {
                return (Wrong::Twice(*argument), "");
            }
            if self.is_refused(alloc, *argument, reader) {
                let value = self.value(*argument).unwrap_or("");
                return (Wrong::Value(*argument), value);
            }
        }
        self.missing_or_path()
    }

    // Returns the first missing option. If none is missing, only the target can be wrong.
    fn missing_or_path(&self) -> (Wrong, &'a str) {
        for argument in &ARGUMENTS {
            if self.is_missing(*argument) {
                return (Wrong::Missing(*argument), "");
            }
        }
        match self.value(Argument::Path) {
            Some(path) if Argument::Path.is_needed(self.command, self.method()) => {
                (Wrong::Value(Argument::Path), path)
            }
            _ => (Wrong::Unknown, ""),
        }
    }
}

/// Finds the error in the words after the name of a command, and the word that is wrong.
pub(crate) fn wrong_after<'a, R: CommandReader>(
    alloc: Global,
    command: Command,
    words: &'a [Text],
    reader: &R,
) -> (Wrong, &'a str) {
    match read_form(command, words) {
        Ok(given) => given.wrong(alloc, reader),
        Err(found) => found,
    }
}
