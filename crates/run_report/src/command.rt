use mesh_base::text::Text;

/// A command of the program.
#[derive(Clone, Copy, Debug, PartialEq, Eq)]
pub enum Command {
    Replay,
    Diagnose,
    Fold,
    Sample,
    Serve,
}

pub(crate) static COMMANDS: [&str; 5] = ["replay", "diagnose", "fold", "sample", "serve"];

impl Command {
    /// Returns the command with a name.
    pub fn named(word: &str) -> Option<Command> {
        match word {
            "replay" => Some(Command::Replay),
            "diagnose" => Some(Command::Diagnose),
            "fold" => Some(Command::Fold),
            "sample" => Some(Command::Sample),
            "serve" => Some(Command::Serve),
            _ => None,
        }
    }

    pub(crate) fn name(self) -> &'static str {
        match self {
            Command::Replay => "replay",
            Command::Diagnose => "diagnose",
            Command::Fold => "fold",
            Command::Sample => "sample",
            Command::Serve => "serve",
        }
    }

    /// Whether the input of the command is a feed.
    pub(crate) fn reads_feed(self) -> bool {
        self == Command::Replay || self == Command::Diagnose
    }
}

/// Returns the value of an option, written `--name VALUE` or `--name=VALUE`. Each option has one.
pub(crate) fn value_of<'a>(words: &'a [Text], option: &str) -> Option<&'a str> {
    let mut is_next = false;
    for word in words {
        if is_next {
            return Some(word.as_str());
        }
        if let Some(rest) = word.as_str().strip_prefix(option) {
            match rest.strip_prefix("=") {
                Some(value) => return Some(value),
                None => is_next = rest.is_empty(),
            }
        }
    }
    None
}

/// The command, the method and the path of a command line.
#[derive(Clone, Copy)]
pub struct CommandLine<'a> {
    pub(crate) command: Command,
    pub(crate) method: &'a str,
    pub(crate) path: &'a str,
}

impl<'a> CommandLine<'a> {
    /// Reads an accepted command line, or returns None if its first word is not a command.
    pub fn of(words: &'a [Text]) -> Option<CommandLine<'a>> {
        let (first, options) = words.split_first()?;
        Some(CommandLine {
            command: Command::named(first.as_str())?,
            method: value_of(options, "--method").unwrap_or(""),
            path: value_of(options, "--path").unwrap_or(""),
        })
    }
}
