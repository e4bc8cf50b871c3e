ghost use Rattle.std.specs.Prelude.{◌≡◌, ◌==◌, Some};
ghost use Rattle.std.specs.List.{list_all};
ghost use Rattle.output_fold.specs.Numbers.{begins_with_number, id_of, is_digit, is_number, is_number_of};

use mesh_base::numeral::read_plain;

#[tactic(auto, unfolding(crate::specs::Numbers::is_digit))]
fn is_digit(byte: u8) -> bool
    ensures { result ≡ is_digit byte }
{
    byte.is_ascii_digit()
}

fn are_digits(text: &[u8]) -> bool
    ensures { result ≡ list_all is_digit text.now }
{
    text.iter().all(|byte| is_digit(*byte))
}

/// Whether the text is one or more decimal digits without a leading zero. Also for a command that
/// passes over numbers of any length in its lines.
#[tactic(auto, unfolding(crate::specs::Numbers::is_digit, crate::specs::Numbers::is_number, mesh_base::specs::Numeral::is_numeral, mesh_base::specs::Numeral::leads_with_zero))]
pub fn is_number(text: &[u8]) -> bool
    ensures { result ≡ is_number text.now }
{
    if text.is_empty() {
        return false;
    }
    if text.len() > 1 && text[0] == b'0' {
        false
    } else {
        are_digits(text)
    }
}

/// Returns the number of 32 bits that decimal digits without a leading zero write. For a command
/// whose lines name a subscription, a stream or a client by its id.
pub fn id_of(text: &[u8]) -> Option<u32>
    ensures { result ≡ id_of text.now }
{
    match read_plain(text, u64::from(u32::MAX)) {
        Some(id) => Some(id as u32),
        None => None,
    }
}

/// Whether the text is this number in decimal digits. Also for a command that looks for the lines
/// of one id and passes over those of others, whatever their number.
#[tactic(auto, using(crate::proofs::Numbers::other_number, crate::proofs::Numbers::same_number))]
pub fn is_number_of(text: &[u8], n: u32) -> bool
    ensures { result ≡ is_number_of n text.now }
{
    match id_of(text) {
        Some(found) => found == n,
        None => false,
    }
}

/// Whether the text begins with a number: the longest run of digits at its beginning is one.
#[tactic(auto, using(crate::proofs::Numbers::begins_none, crate::proofs::Numbers::begins_zero, crate::proofs::Numbers::begins_other))]
pub(crate) fn begins_with_number(text: &[u8]) -> bool
    ensures { result ≡ begins_with_number text.now }
{
    if text.is_empty() {
        return false;
    }
    if text.len() > 1 && text[0] == b'0' {
        !is_digit(text[1])
    } else {
        is_digit(text[0])
    }
}
