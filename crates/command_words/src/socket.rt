ghost use Rattle.std.specs.Prelude.{◌≡◌, None, Some, is_some, MatchOption};
ghost use Rattle.mesh_base.specs.Pieces.{pieces};
ghost use Rattle.mesh_text.specs.Targets.{port_of};
ghost use Rattle.command_words.specs.Arguments.{rows_in, text_at};
ghost use Rattle.command_words.specs.declared.argument.Argument.TheVariants as arguments;
ghost use Rattle.command_words.specs.Gives.{Gives, needed};
ghost use Rattle.command_words.specs.Sockets.{is_port_after, is_socket, is_v4_socket, is_v6_socket, pair_of, socket_of};

use crate::argument::Argument;
use crate::fault::WordsFault;
use crate::parse::given;
use clap::ArgMatches;
use mesh_base::numeral::read_plain;
use mesh_base::pieces::cut;
use mesh_base::text::Text;
use net_cidr::ip::{Ip, read_ip};
use std::alloc::Global;

/// Splits the text at `mark`. Returns None unless the mark occurs exactly once.
#[tactic(auto, using(crate::proofs::Sockets::pair_of_more))]
fn cut_once(text: &[u8], mark: u8) -> Option<(&[u8], &[u8])>
    ensures { MatchOption result (pair_of (pieces mark text.now) ≡ None)
        (λ p. pair_of (pieces mark text.now) ≡ Some (p.0.now, p.1.now)) }
{
    let (first, second) = cut(text, mark)?;
    if cut(second, mark).is_some() {
        return None;
    }
    Some((first, second))
}

#[tactic(auto, unfolding(mesh_text::specs::Targets::port_of))]
fn is_port(digits: &[u8]) -> bool
    ensures { result ≡ is_some (port_of digits.now) }
{
    match read_plain(digits, 65535) {
        Some(port) => port != 0,
        None => false,
    }
}

fn is_port_after(text: &[u8]) -> bool
    ensures { result ≡ is_port_after text.now }
{
    match text {
        [b':', digits @ ..] => is_port(digits),
        _ => false,
    }
}

fn is_v4_socket(text: &[u8]) -> bool
    ensures { result ≡ is_v4_socket (pair_of (pieces 58 text.now)) }
{
    let Some((ip, digits)) = cut_once(text, b':') else {
        return false;
    };
    match read_ip(ip) {
        Some(Ip::V4(_)) => is_port(digits),
        _ => false,
    }
}

fn is_v6_socket(text: &[u8]) -> bool
    ensures { result ≡ is_v6_socket (pair_of (pieces 93 text.now)) }
{
    let Some((ip, after)) = cut_once(text, b']') else {
        return false;
    };
    match read_ip(ip) {
        Some(Ip::V6(_)) => is_port_after(after),
        _ => false,
    }
}

/// Whether the text is an IP address and a port, for example `127.0.0.1:8086` or `[::1]:8086`.
#[tactic(auto, unfolding(crate::specs::Sockets::is_socket))]
fn is_socket(text: &[u8]) -> bool
    ensures { result ≡ is_socket text.now }
{
    match text {
        [] => false,
        [b'[', rest @ ..] => is_v6_socket(rest),
        _ => is_v4_socket(text),
    }
}

/// Reads the address and port of `--bind`.
pub(crate) fn read_socket<'a>(alloc: Global, matches: &ArgMatches<'a>) -> Result<Text, WordsFault>
    ensures { Gives result (needed socket_of (text_at arguments.Bind (rows_in matches.now))) }
{
    let Some(text) = given(matches, Argument::Bind) else {
        return Err(WordsFault::Usage);
    };
    if !is_socket(text.as_bytes()) {
        return Err(WordsFault::Usage);
    }
    Ok(Text::from_str(alloc, text)?)
}
