ghost use Rattle.std.specs.Prelude.{◌≡◌, ◌++◌, IfOk, IfSome, OnOk, flat_map};
ghost use Rattle.feed_history.specs.RefusalText.{refusal_text};
ghost use Rattle.feed_history.specs.Text.{fault_line, hex_line, oversize_line};
ghost use Rattle.feed_history.specs.VerdictText.{verdict_line};

use crate::refusal::Refusal;
use crate::verdict::ShownVerdict;
use bytes::Bytes;
use mesh_base::list::List;
use mesh_base::memory::Memory;
use mesh_base::text::Text;
use std::alloc::{AllocError, Global};
use std::fmt::Display;
use view_types::verdict::Verdict;

/// Returns the text of a refusal. For out of memory and for a message that is too long it is empty.
pub fn text_of(alloc: Global, refusal: &Refusal) -> Result<Text, Memory>
    ensures { IfOk result (λ text. text ≡ refusal_text refusal.now) }
{
    Ok(Text::from_string(format!(in alloc; "{refusal}")?)?)
}

/// Appends `refused <line> <fault>`.
pub fn push_refused<F: Display>(
    alloc: Global,
    out: &mut Vec<u8>,
    number: u64,
    fault: &F,
) -> Result<(), AllocError>
    ensures { OnOk result (IfSome (F.output fault.now) (λ text.
        out.new.items ≡ out.old.items ++ fault_line number text)) }
{
    let text = format!(in alloc; "refused {number} {fault}\n")?;
    out.extend_from_slice(text.as_bytes())
}

/// Appends `oversize <id> <bytes>`.
pub fn push_oversize(
    alloc: Global,
    out: &mut Vec<u8>,
    id: u32,
    bytes: u64,
) -> Result<(), AllocError>
    ensures { OnOk result (out.new.items ≡ out.old.items ++ oversize_line id bytes) }
{
    let text = format!(in alloc; "oversize {id} {bytes}\n")?;
    out.extend_from_slice(text.as_bytes())
}

/// Appends `verdict <line> <text>`, for a request to a Pod of the namespace.
pub fn push_verdict(
    alloc: Global,
    out: &mut Vec<u8>,
    number: u64,
    ns: &Text,
    verdict: &Verdict,
) -> Result<(), AllocError>
    ensures { OnOk result
        (out.new.items ≡ out.old.items ++ verdict_line number ns.now verdict.now) }
{
    let verdict = ShownVerdict {
        ns: ns.as_str(),
        verdict,
    };
    let text = format!(in alloc; "verdict {number} {verdict}\n")?;
    out.extend_from_slice(text.as_bytes())
}

// Appends `<word> <id> <hex>`.
fn push_hex(
    alloc: Global,
    out: &mut Vec<u8>,
    word: &str,
    id: u32,
    frame: &[u8],
) -> Result<(), AllocError>
    ensures { OnOk result (out.new.items ≡ out.old.items ++ hex_line word.now id frame.now) }
{
    let hex = hex::encode(alloc, frame)?;
    let text = format!(in alloc; "{word} {id} {hex}\n")?;
    out.extend_from_slice(text.as_bytes())
}

/// Appends `<word> <id> <hex>` for each frame.
pub fn push_frames(
    alloc: Global,
    out: &mut Vec<u8>,
    word: &str,
    id: u32,
    frames: &List<Bytes>,
) -> Result<(), AllocError>
    ensures { OnOk result
        (out.new.items ≡ out.old.items ++ flat_map (hex_line word.now id) frames.now) }
{
    for frame in frames.as_slice() {
        push_hex(alloc, out, word, id, frame.as_slice())?;
    }
    Ok(())
}
