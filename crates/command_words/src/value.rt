ghost use Rattle.std.specs.Prelude.{◌≡◌, ◌≤◌, IfOk, IfSome};
ghost use Rattle.watch_events.specs.Queries.{method_of};
ghost use Rattle.command_words.specs.Arguments.{rows_in, text_at};
ghost use Rattle.command_words.specs.Gives.{Gives, needed};
ghost use Rattle.command_words.specs.Numbers.{number_within};
ghost use Rattle.command_words.specs.declared.argument.Argument.TheVariants as arguments;

use crate::argument::Argument;
use crate::fault::WordsFault;
use crate::parse::given;
use clap::ArgMatches;
use mesh_base::numeral::read_number;
use view_types::query::Method;
use watch_events::method::method_of;

#[tactic(auto, unfolding(crate::specs::Numbers::number_within))]
fn number_within(digits: &[u8], low: u64, high: u64) -> Option<u64>
    ensures value { result ≡ number_within low high digits.now }
    ensures within { IfSome result (λ n. n ≤ high) }
{
    if digits.len() > 10 {
        return None;
    }
    let number = read_number(digits, 10, high)?;
    if low <= number { Some(number) } else { None }
}

/// Reads the number of an argument, which must be from `low` to `high`.
pub(crate) fn read_number_at<'a>(
    matches: &ArgMatches<'a>,
    argument: Argument,
    low: u64,
    high: u64,
) -> Result<u64, WordsFault>
    ensures value { Gives result (needed (number_within low high)
        (text_at argument (rows_in matches.now))) }
    ensures within { IfOk result (λ n. n ≤ high) }
{
    let Some(text) = given(matches, argument) else {
        return Err(WordsFault::Usage);
    };
    match number_within(text.as_bytes(), low, high) {
        Some(number) => Ok(number),
        None => Err(WordsFault::Usage),
    }
}

/// Reads the method.
pub(crate) fn read_method<'a>(matches: &ArgMatches<'a>) -> Result<Method, WordsFault>
    ensures { Gives result (needed method_of (text_at arguments.Method (rows_in matches.now))) }
{
    let Some(text) = given(matches, Argument::Method) else {
        return Err(WordsFault::Usage);
    };
    match method_of(text) {
        Some(method) => Ok(method),
        None => Err(WordsFault::Usage),
    }
}
