// The lines of a relay.
ghost use Rattle.std.specs.Prelude.{◌≡◌, ◌∷◌, [], bytes_eq};
ghost use Rattle.std.specs.Option.{option_copied};
ghost use Rattle.mesh_base.specs.Pieces.{pieces};
ghost use Rattle.watch_events.specs.Lines.{is_blank, is_blank_byte};
ghost use Rattle.view_relay.specs.Given.{Gives, IsAs, RowGives};
ghost use Rattle.view_relay.specs.RelayLines.{id_alone, id_and_bytes, line_in, read_bytes, read_id, row_says};

use crate::fault::{RelayFault, RowFault};
use mesh_base::list::List;
use mesh_base::pieces::cut;
use mesh_base::sub_id::SubId;
use output_fold::fault::FoldFault;
use output_fold::frame::bytes_of;
use output_fold::number::id_of;
use std::alloc::Global;

/// The contents of a line of a relay.
#[derive(Drop)]
pub enum RelayLine {
    /// Only spaces, tabs and carriage returns, or nothing.
    Blank,
    /// A stream of the origin was opened with these bytes.
    Carry { id: SubId, opening: List<u8> },
    /// A client opened a stream with these bytes.
    Client { id: SubId, opening: List<u8> },
    /// A frame of the origin on a carried stream.
    Frame { id: SubId, frame: List<u8> },
    /// Sends the client what has changed in its view.
    Drain { id: SubId },
    /// Ends the client.
    Leave { id: SubId },
}

fn is_blank_byte(byte: u8) -> bool
    ensures { result ≡ is_blank_byte byte }
{
    byte == b' ' || byte == b'\t' || byte == b'\r'
}

fn is_blank(line: &[u8]) -> bool
    ensures { result ≡ is_blank line.now }
{
    line.iter().all(|byte| is_blank_byte(*byte))
}

fn is_text(text: &[u8], other: &[u8]) -> bool
    ensures { result ≡ bytes_eq text.now other.now }
{
    text == other
}

fn read_id(word: &[u8]) -> Result<SubId, RelayFault>
    ensures { IsAs (λ id. id) result (read_id word.now) }
{
    match id_of(word) {
        Some(id) => Ok(SubId(id)),
        None => Err(RelayFault::NotLine),
    }
}

fn read_bytes(alloc: Global, hex: &[u8]) -> Result<List<u8>, RelayFault>
    ensures { Gives result (read_bytes hex.now) }
{
    match bytes_of(alloc, hex) {
        Ok(bytes) => Ok(List::from_vec(bytes)),
        Err(FoldFault::Memory) => Err(RelayFault::Memory),
        Err(_) => Err(RelayFault::NotLine),
    }
}

// Reads words that are an id alone.
#[tactic(auto, using(crate::proofs::Words::more_than_an_id))]
fn id_alone(words: &[u8]) -> Result<SubId, RelayFault>
    ensures { IsAs (λ id. id) result (id_alone (pieces 32 words.now)) }
{
    match cut(words, b' ') {
        None => read_id(words),
        Some(_) => Err(RelayFault::NotLine),
    }
}

// Reads words that are an id and hex.
#[tactic(auto, using(crate::proofs::Words::more_than_two))]
fn id_and_bytes(alloc: Global, words: &[u8]) -> Result<(SubId, List<u8>), RelayFault>
    ensures { Gives result (id_and_bytes (pieces 32 words.now)) }
{
    let Some((word, hex)) = cut(words, b' ') else {
        return Err(RelayFault::NotLine);
    };
    match cut(hex, b' ') {
        None => both(alloc, word, hex),
        Some(_) => Err(RelayFault::NotLine),
    }
}

fn both(alloc: Global, word: &[u8], hex: &[u8]) -> Result<(SubId, List<u8>), RelayFault>
    ensures { Gives result (id_and_bytes (word.now ∷ hex.now ∷ [])) }
{
    let id = read_id(word)?;
    let bytes = read_bytes(alloc, hex)?;
    Ok((id, bytes))
}

#[tactic(auto, unfolding(crate::specs::RelayLines::line_in))]
fn read_line(alloc: Global, line: &[u8]) -> Result<RelayLine, RelayFault>
    ensures { Gives result (line_in (pieces 32 line.now)) }
{
    let Some((word, words)) = cut(line, b' ') else {
        return Err(RelayFault::NotLine);
    };
    if is_text(word, b"carry") {
        let (id, opening) = id_and_bytes(alloc, words)?;
        return Ok(RelayLine::Carry { id, opening });
    }
    if is_text(word, b"client") {
        let (id, opening) = id_and_bytes(alloc, words)?;
        return Ok(RelayLine::Client { id, opening });
    }
    if is_text(word, b"frame") {
        let (id, frame) = id_and_bytes(alloc, words)?;
        return Ok(RelayLine::Frame { id, frame });
    }
    if is_text(word, b"drain") {
        let id = id_alone(words)?;
        return Ok(RelayLine::Drain { id });
    }
    if is_text(word, b"leave") {
        let id = id_alone(words)?;
        return Ok(RelayLine::Leave { id });
    }
    Err(RelayFault::NotLine)
}

/// Reads a row: a line, or None for one that is longer than the limit.
#[tactic(auto, unfolding(crate::specs::RelayLines::row_says))]
pub fn read_relay_row(alloc: Global, row: Option<&[u8]>) -> Result<RelayLine, RowFault>
    ensures { RowGives result (row_says (option_copied row.entry)) }
{
    let Some(line) = row else {
        return Err(RowFault::TooLong);
    };
    if is_blank(line) {
        return Ok(RelayLine::Blank);
    }
    Ok(read_line(alloc, line)?)
}
