ghost use Rattle.std.specs.Prelude.{◌≡◌, IfOk, Some, map};
ghost use Rattle.command_words.specs.Apps.{name_of};
ghost use Rattle.command_words.specs.Commands.{command_in, command_named};
ghost use Rattle.command_words.specs.Gives.{Gives};

use crate::command::{Command, Name, read_command};
use crate::fault::WordsFault;
use crate::parse::parse;
use mesh_base::memory::Memory;
use mesh_base::text::Text;
use std::alloc::Global;

#[tactic(auto, unfolding(crate::specs::Apps::name_of))]
fn name_of(word: &str) -> Option<Name>
    ensures { result ≡ name_of word.now }
{
    if word == "replay" {
        Some(Name::Replay)
    } else if word == "diagnose" {
        Some(Name::Diagnose)
    } else if word == "fold" {
        Some(Name::Fold)
    } else if word == "sample" {
        Some(Name::Sample)
    } else if word == "serve" {
        Some(Name::Serve)
    } else {
        None
    }
}

fn texts_of<'w>(alloc: Global, words: &'w [Text]) -> Result<Vec<&'w str>, Memory>
    ensures { IfOk result (λ texts. map (λ text. text.now) texts.items ≡ words.now) }
{
    let mut texts = Vec::new(alloc);
    for word in words {
        texts.push(word.as_str())?;
    }
    Ok(texts)
}

#[tactic(auto, unfolding(crate::specs::Gives::then))]
fn read_named<'a>(alloc: Global, name: Name, words: &'a [&'a str]) -> Result<Command, WordsFault>
    ensures { Gives result (command_named (Some name) (map (λ w. w.now) words.entry.now)) }
{
    let matches = parse(alloc, name, words)?;
    read_command(alloc, name, &matches)
}

/// Reads the command from the words of the command line, without the program's name.
pub fn read_words(alloc: Global, words: &[Text]) -> Result<Command, WordsFault>
    ensures { Gives result (command_in words.now) }
{
    let [first, rest @ ..] = words else {
        return Err(WordsFault::Usage);
    };
    let Some(name) = name_of(first.as_str()) else {
        return Err(WordsFault::Usage);
    };
    let Ok(texts) = texts_of(alloc, rest) else {
        return Err(WordsFault::Memory);
    };
    read_named(alloc, name, texts.as_slice())
}
