ghost use Rattle.std.specs.Prelude.{◌≡◌, bytes_eq, option_map};
ghost use Rattle.std.specs.Option.{option_copied};
ghost use Rattle.mesh_base.specs.Pieces.{pieces};
ghost use Rattle.output_fold.specs.Given.{Gives, IsAs};
ghost use Rattle.output_fold.specs.Lines.{are_two_numbers, begin_with_number, frame_words, hex_of, passed_if, row_says};

use crate::fault::FoldFault;
use crate::frame::read_frame;
use crate::number::{begins_with_number, is_number, is_number_of};
use mesh_base::pieces::cut;
use std::alloc::Global;
use view_types::message::Message;
use view_types::query::Method;

fn is_text(text: &[u8], other: &[u8]) -> bool
    ensures { result ≡ bytes_eq text.now other.now }
{
    text == other
}

fn passed_if<'a>(is_line: bool) -> Result<Option<&'a [u8]>, FoldFault>
    ensures { IsAs (option_map (λ hex. hex.now)) result (passed_if is_line) }
{
    if is_line {
        Ok(None)
    } else {
        Err(FoldFault::NotLine)
    }
}

// Reads the words after `frame`.
#[tactic(auto, using(crate::proofs::Words::more_words))]
fn frame_words(id: u32, words: &[u8]) -> Result<Option<&[u8]>, FoldFault>
    ensures { IsAs (option_map (λ hex. hex.now)) result (frame_words id (pieces 32 words.now)) }
{
    let Some((number, hex)) = cut(words, b' ') else {
        return Err(FoldFault::NotLine);
    };
    if !is_number_of(number, id) {
        return passed_if(is_number(number));
    }
    match cut(hex, b' ') {
        None => Ok(Some(hex)),
        Some(_) => Err(FoldFault::NotLine),
    }
}

// Reads the words after `oversize`.
#[tactic(auto, using(crate::proofs::Words::more_than_two))]
fn are_two_numbers(words: &[u8]) -> bool
    ensures { result ≡ are_two_numbers (pieces 32 words.now) }
{
    let Some((id, bytes)) = cut(words, b' ') else {
        return false;
    };
    match cut(bytes, b' ') {
        None => is_number(id) && is_number(bytes),
        Some(_) => false,
    }
}

// Reads the words after `verdict` and `refused`.
fn begin_with_number(words: &[u8]) -> bool
    ensures { result ≡ begin_with_number (pieces 32 words.now) }
{
    match cut(words, b' ') {
        None => begins_with_number(words),
        Some((word, _)) => begins_with_number(word),
    }
}

// Returns the hex of the frame of the id, if the line has one.
#[tactic(auto, unfolding(crate::specs::Lines::hex_in))]
fn hex_of(id: u32, line: &[u8]) -> Result<Option<&[u8]>, FoldFault>
    ensures { IsAs (option_map (λ hex. hex.now)) result (hex_of id line.now) }
{
    let Some((word, words)) = cut(line, b' ') else {
        return Err(FoldFault::NotLine);
    };
    if is_text(word, b"frame") {
        return frame_words(id, words);
    }
    if is_text(word, b"oversize") {
        return passed_if(are_two_numbers(words));
    }
    if is_text(word, b"verdict") || is_text(word, b"refused") {
        return passed_if(begin_with_number(words));
    }
    Err(FoldFault::NotLine)
}

/// Returns the message that a row has for the id, if it has one.
#[tactic(auto, unfolding(crate::specs::Lines::row_says))]
pub(crate) fn row_says(
    alloc: Global,
    method: Method,
    id: u32,
    row: Option<&[u8]>,
) -> Result<Option<Message>, FoldFault>
    ensures { Gives result (row_says method id (option_copied row.entry)) }
{
    let Some(line) = row else {
        return Err(FoldFault::TooLong);
    };
    match hex_of(id, line)? {
        None => Ok(None),
        Some(hex) => Ok(Some(read_frame(alloc, method, hex)?)),
    }
}
