//! Writers of fields whose zero value is omitted. They write backwards: each puts its bytes before
//! those already written.
ghost use Rattle.std.specs.Prelude.{◌≡◌, ◌++◌, OnOk};
ghost use Rattle.proto_wire.specs.Wire.{spelling};
ghost use Rattle.proxy_proto.specs.FieldRecords.{number_field, fixed64_field, bool_field, text_field, optional_text, optional_number, texts_field};

use mesh_base::memory::Memory;
use mesh_base::text::Text;
use proto_wire::front::FrontBytes;
use proto_wire::writing::{put_chunk, put_fixed64, put_number};

/// Writes a number, and nothing for 0.
#[tactic(auto, using(proto_wire::proofs::Spellings::spellings))]
pub fn put_number_field(out: &mut FrontBytes, field: u32, number: u64) -> Result<(), Memory>
    ensures { OnOk result (out.new ≡ spelling (number_field field number) ++ out.old) }
{
    if number == 0 {
        return Ok(());
    }
    put_number(out, field, number)
}

/// Writes eight bytes, and nothing for 0.
#[tactic(auto, using(proto_wire::proofs::Spellings::spellings))]
pub fn put_fixed64_field(out: &mut FrontBytes, field: u32, number: u64) -> Result<(), Memory>
    ensures { OnOk result (out.new ≡ spelling (fixed64_field field number) ++ out.old) }
{
    if number == 0 {
        return Ok(());
    }
    put_fixed64(out, field, number)
}

/// Writes a boolean, and nothing for false.
#[tactic(auto, using(proto_wire::proofs::Spellings::spellings))]
pub fn put_bool_field(out: &mut FrontBytes, field: u32, flag: bool) -> Result<(), Memory>
    ensures { OnOk result (out.new ≡ spelling (bool_field field flag) ++ out.old) }
{
    if !flag {
        return Ok(());
    }
    put_number(out, field, 1)
}

/// Writes a string, and nothing for the empty one.
#[tactic(auto, using(proto_wire::proofs::Spellings::spellings))]
pub fn put_text_field(out: &mut FrontBytes, field: u32, text: &[u8]) -> Result<(), Memory>
    ensures { OnOk result (out.new ≡ spelling (text_field field text.now) ++ out.old) }
{
    if text.is_empty() {
        return Ok(());
    }
    put_chunk(out, field, text)
}

/// Writes a string that is present, and nothing for the empty one.
#[tactic(auto, using(proto_wire::proofs::Spellings::spellings))]
pub fn put_optional_text(
    out: &mut FrontBytes,
    field: u32,
    text: &Option<Text>,
) -> Result<(), Memory>
    ensures { OnOk result (out.new ≡ spelling (optional_text field text.now) ++ out.old) }
{
    match text {
        Some(text) => put_text_field(out, field, text.as_bytes()),
        None => Ok(()),
    }
}

/// Writes a number that is present, and nothing for 0.
#[tactic(auto, using(proto_wire::proofs::Spellings::spellings))]
pub fn put_optional_number(
    out: &mut FrontBytes,
    field: u32,
    number: Option<u16>,
) -> Result<(), Memory>
    ensures { OnOk result (out.new ≡ spelling (optional_number field number) ++ out.old) }
{
    match number {
        Some(number) => put_number_field(out, field, number as u64),
        None => Ok(()),
    }
}

/// Writes the strings of a repeated field.
#[tactic(auto, using(proto_wire::proofs::Spellings::spellings))]
pub fn put_texts(out: &mut FrontBytes, field: u32, texts: &[Text]) -> Result<(), Memory>
    ensures { OnOk result (out.new ≡ spelling (texts_field field texts.now) ++ out.old) }
{
    for at in (0..texts.len()).rev() {
        put_chunk(out, field, texts[at].as_bytes())?;
    }
    Ok(())
}
