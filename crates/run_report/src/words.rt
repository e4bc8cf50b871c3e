// Reports the error in a refused command line.
use crate::argument_words::wrong_after;
use crate::command::{COMMANDS, Command};
use crate::nearest::Nearest;
use crate::options::{ARGUMENTS, Argument};
use crate::usage::{USAGE, USAGE_LINE};
use mesh_base::text::Text;
use std::alloc::Global;
use std::fmt;
use std::fmt::{Display, Formatter};

/// A reader of command lines.
pub trait CommandReader {
    /// Whether the words are not an accepted command line. Returns false if out of memory.
    fn refuses(&self, words: &[Text]) -> bool;
}

/// The error in a command line.
#[derive(Clone, Copy, PartialEq, Eq)]
pub(crate) enum Wrong {
    /// No error, or an unknown one: there are no words, or they ask for help.
    Unknown,
    NotUtf8,
    Command,
    /// The command does not have the option. Other commands may have it.
    Option,
    Twice(Argument),
    NoValue(Argument),
    /// A word that is neither an option nor a value.
    Extra,
    Missing(Argument),
    Value(Argument),
}

/// The message for a refused command line: a line of usage and the error, or else the whole usage.
#[derive(Clone, Copy, Drop)]
pub struct WrongWords<'a> {
    pub(crate) wrong: Wrong,
    command: Option<Command>,
    /// The word that is wrong, if there is one.
    word: &'a str,
    /// The name that was probably intended, if there is one.
    near: Option<&'static str>,
}

impl<'a> WrongWords<'a> {
    // Creates a message without a wrong word.
    fn as_whole(wrong: Wrong) -> WrongWords<'a> {
        WrongWords {
            wrong,
            command: None,
            word: "",
            near: None,
        }
    }

    /// Creates the message for a word that is not UTF-8.
    pub fn not_utf8() -> WrongWords<'a> {
        WrongWords::as_whole(Wrong::NotUtf8)
    }

    /// Finds the error in words that the reader refuses.
    pub fn of<R: CommandReader>(alloc: Global, words: &'a [Text], reader: &R) -> WrongWords<'a> {
        let Some((first, rest)) = words.split_first() else {
            return WrongWords::as_whole(Wrong::Unknown);
        };
        if words.iter().any(|word| is_help(word.as_str())) {
            return WrongWords::as_whole(Wrong::Unknown);
        }
        let named = Command::named(first.as_str());
        let (wrong, word) = match named {
            Some(command) => wrong_after(alloc, command, rest, reader),
            None => (Wrong::Command, first.as_str()),
        };
        WrongWords {
            wrong,
            command: named,
            word,
            near: near_of(alloc, named.unwrap_or(Command::Replay), wrong, word),
        }
    }
}

fn is_help(word: &str) -> bool {
    word == "--help" || word == "-h"
}

// Returns the name that was probably intended.
fn near_of(alloc: Global, command: Command, wrong: Wrong, word: &str) -> Option<&'static str> {
    let mut near = Nearest::to(alloc, word);
    match wrong {
        Wrong::Command => near.offer_all(&COMMANDS),
        Wrong::Value(argument) => near.offer_all(argument.choices()),
        Wrong::Option if Argument::named(word).is_none() => offer_options(&mut near, command),
        _ => {}
    }
    near.name
}

fn offer_options(near: &mut Nearest<'_>, command: Command) {
    for option in &ARGUMENTS {
        if option.is_of(command) {
            near.offer(option.name());
        }
    }
}

// Describes the input of a command, for users who name a file.
fn input_of(command: Command) -> &'static str {
    match command {
        Command::Serve => "",
        _ => ", and the input is standard input",
    }
}

// The names of the options of a command, separated by commas.
#[derive(Clone, Copy, Drop)]
struct OptionNames(Command);

impl Display for OptionNames {
    fn fmt<W: fmt::Write>(&self, f: &mut Formatter<W>) -> fmt::Result {
        let mut before = "";
        for option in &ARGUMENTS {
            if option.is_of(self.0) && *option != Argument::Number {
                write!(f, "{before}{}", option.name())?;
                before = ", ";
            }
        }
        Ok(())
    }
}

impl WrongWords<'_> {
    fn write_option<W: fmt::Write>(&self, command: Command, f: &mut Formatter<W>) -> fmt::Result {
        let name = command.name();
        match Argument::named(self.word) {
            Some(option) => write!(
                f,
                "{name} has no option {}, an option of {}: ",
                option.name(),
                option.commands()
            )?,
            None => write!(f, "{name} has no option {:?}: ", self.word)?,
        }
        write!(f, "its options are {}", OptionNames(command))
    }

    fn write_wrong<W: fmt::Write>(&self, f: &mut Formatter<W>) -> fmt::Result {
        let command = self.command.unwrap_or(Command::Replay);
        let word = self.word;
        match self.wrong {
            Wrong::Unknown => Ok(()),
            Wrong::NotUtf8 => f.write_str("a word is not UTF-8"),
            Wrong::Command => write!(
                f,
                "{word:?} is not a command: the first word is replay, diagnose, fold, sample or serve"
            ),
            Wrong::Option => self.write_option(command, f),
            Wrong::Twice(option) => write!(
                f,
                "{} is given twice: each option is given once",
                option.name()
            ),
            Wrong::NoValue(option) => write!(
                f,
                "{} has no value: it is {}",
                option.name(),
                option.value()
            ),
            Wrong::Extra => write!(
                f,
                "{word:?} is neither an option nor a value: options are written --name VALUE or --name=VALUE{}",
                input_of(command)
            ),
            Wrong::Missing(option) => write!(
                f,
                "{} needs {}: {}",
                command.name(),
                option.name(),
                option.value()
            ),
            Wrong::Value(option) => write!(
                f,
                "{} {word:?} is not accepted: it is {}",
                option.name(),
                option.value()
            ),
        }
    }
}

impl Display for WrongWords<'_> {
    fn fmt<W: fmt::Write>(&self, f: &mut Formatter<W>) -> fmt::Result {
        f.write_str(USAGE_LINE)?;
        if self.wrong == Wrong::Unknown {
            return f.write_str(USAGE);
        }
        f.write_str("linkerd_cli: ")?;
        self.write_wrong(f)?;
        match self.near {
            Some(near) => write!(f, " (did you mean {near}?)\n"),
            None => f.write_str("\n"),
        }
    }
}
