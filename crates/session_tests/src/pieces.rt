use mesh_base::limits::Limits;
use row_file::TrialFault;
use session_core::link::Session;
use session_core::session::Ask;
use std::alloc::Global;
use view_types::config::Config;
use view_types::query::Query;

const SMALL: Limits = Limits {
    line: 4,
    request: 40,
    ..Limits::USUAL
};

// The bytes of a part: a text, hex after `#`, or the path line of Get.
fn part_of(alloc: Global, part: &str) -> Result<Vec<u8>, TrialFault> {
    if let Some(digits) = part.strip_prefix('#') {
        return Ok(hex::decode(alloc, digits)?);
    }
    let mut bytes = Vec::new(alloc);
    if part == "@" {
        bytes.extend_from_slice(b"/io.linkerd.proxy.destination.Destination/Get\n")?;
    } else {
        bytes.extend_from_slice(part.as_bytes())?;
    }
    Ok(bytes)
}

/// The bytes of a piece, whose parts have a `+` between them.
fn bytes_of(alloc: Global, piece: &str) -> Result<Vec<u8>, TrialFault> {
    let mut bytes = Vec::new(alloc);
    for part in piece.split('+') {
        let part = part_of(alloc, part)?;
        bytes.extend_from_slice(part.as_slice())?;
    }
    Ok(bytes)
}

fn put_ask(alloc: Global, ask: &Ask, out: &mut String) -> Result<(), TrialFault> {
    match ask {
        Ask::Subscribe(Query::Get { ns, name, port, .. }) => {
            let (ns, name) = (ns.as_str(), name.as_str());
            write!(out, "[get {ns}/{name}:{port}]")?;
        }
        Ask::Subscribe(_) => out.push_str("[other]")?,
        Ask::FeedBegins => out.push_str("[begins]")?,
        Ask::Line { number, text } => {
            let hex = hex::encode(alloc, text.as_slice())?;
            write!(out, "[{number} {hex}]")?;
        }
        Ask::LongLine { number } => write!(out, "[{number} long]")?,
        Ask::Ended => out.push_str("[ended]")?,
    }
    Ok(())
}

/// Puts the answers to the pieces of a line.
fn put_answers(alloc: Global, line: &str, out: &mut String) -> Result<(), TrialFault> {
    let config = Config::usual(alloc)?;
    let mut session = Session::new(alloc, &config, &SMALL)?;
    for (i, piece) in line.split('|').enumerate() {
        if i > 0 {
            out.push_str("|")?;
        }
        match session.feed(&bytes_of(alloc, piece)?) {
            Ok(asks) => {
                for ask in asks.as_slice() {
                    put_ask(alloc, ask, out)?;
                }
            }
            Err(fault) => write!(out, "{fault:?}")?,
        }
    }
    Ok(())
}

/// Writes for each line the answers to its pieces.
pub fn pieces(alloc: Global, input: &str, out: &mut String) -> Result<(), TrialFault> {
    for line in input.lines() {
        put_answers(alloc, line, out)?;
        out.push('\n')?;
    }
    Ok(())
}
