//! The contents of records, field by field.
ghost use Rattle.std.specs.Prelude.{◌≡◌, map, option_map, Some, IfOk};
ghost use Rattle.std.specs.Str.{is_utf8};
ghost use Rattle.proto_wire.specs.Given.{view_record, view_value};
ghost use Rattle.proxy_proto.specs.LookUps.{records_in, value_at, has, chunk_from, number_below, flag_in, chunk_in, string_from, string_in, texts_in, inside, fixed64_from, number_from, some_string, some_number};

use mesh_base::list::List;
use mesh_base::memory::Memory;
use mesh_base::text::Text;
use proto_wire::scan::{RecRef, ValueRef, scan};
use std::alloc::Global;

/// Returns the records of a message, up to the first that cannot be read.
pub fn records_in(alloc: Global, bytes: &[u8]) -> Result<Vec<RecRef<'_>>, Memory>
    ensures { IfOk result (λ v. map view_record v.items ≡ records_in bytes.now) }
{
    let found = scan(alloc, bytes)?;
    Ok(found.records)
}

pub fn value_at<'a>(records: &[RecRef<'a>], number: u32) -> Option<ValueRef<'a>>
    ensures { option_map view_value result ≡ value_at number (map view_record records.now) }
{
    for record in records {
        if record.number == number {
            return Some(record.value);
        }
    }
    None
}

pub fn is_there(records: &[RecRef<'_>], number: u32) -> bool
    ensures { result ≡ has number (map view_record records.now) }
{
    for record in records {
        if record.number == number {
            return true;
        }
    }
    false
}

/// Returns the bytes of a string or a message, and no bytes for another value.
pub fn body<'a>(value: ValueRef<'a>) -> &'a [u8]
    ensures { result.now ≡ chunk_from (Some (view_value value.entry)) }
{
    match value {
        ValueRef::Chunk(bytes) => bytes,
        _ => &[],
    }
}

pub fn chunk_in<'a>(records: &[RecRef<'a>], number: u32) -> &'a [u8]
    ensures { result.now ≡ chunk_in number (map view_record records.now) }
{
    match value_at(records, number) {
        Some(ValueRef::Chunk(bytes)) => bytes,
        _ => &[],
    }
}

pub fn number_in(records: &[RecRef<'_>], number: u32) -> u64
    ensures { result ≡ number_from (value_at number (map view_record records.now)) }
{
    match value_at(records, number) {
        Some(ValueRef::Varint(n)) => n,
        _ => 0,
    }
}

pub fn fixed64_in(records: &[RecRef<'_>], number: u32) -> u64
    ensures { result ≡ fixed64_from (value_at number (map view_record records.now)) }
{
    match value_at(records, number) {
        Some(ValueRef::Fixed64(n)) => n,
        _ => 0,
    }
}

pub fn u16_in(records: &[RecRef<'_>], number: u32) -> u16
    ensures { result ≡ number_below 65536 number (map view_record records.now) }
{
    let n = number_in(records, number);
    if n < 65_536 { n as u16 } else { 0 }
}

pub fn u32_in(records: &[RecRef<'_>], number: u32) -> u32
    ensures { result ≡ number_below 4294967296 number (map view_record records.now) }
{
    let n = number_in(records, number);
    if n < 4_294_967_296 { n as u32 } else { 0 }
}

pub fn flag_in(records: &[RecRef<'_>], number: u32) -> bool
    ensures { result ≡ flag_in number (map view_record records.now) }
{
    number_in(records, number) != 0
}

/// Whether bytes are UTF-8.
pub fn is_string(bytes: &[u8]) -> bool
    ensures { result ≡ is_utf8 bytes.now }
{
    std::str::from_utf8(bytes).is_ok()
}

/// Converts bytes to a string, which is empty if they are not UTF-8.
fn string_from(alloc: Global, bytes: &[u8]) -> Result<Text, Memory>
    ensures { IfOk result (λ text. text ≡ string_from bytes.now) }
{
    match std::str::from_utf8(bytes) {
        Ok(text) => Text::from_str(alloc, text),
        Err(_) => Text::from_str(alloc, ""),
    }
}

/// Returns the string in a field.
pub fn text_in(alloc: Global, records: &[RecRef<'_>], number: u32) -> Result<Text, Memory>
    ensures { IfOk result (λ text. text ≡ string_in number (map view_record records.now)) }
{
    string_from(alloc, chunk_in(records, number))
}

/// Returns the string in a field, or None if it is empty.
pub fn optional_text_in(
    alloc: Global,
    records: &[RecRef<'_>],
    number: u32,
) -> Result<Option<Text>, Memory>
    ensures { IfOk result
        (λ text. text ≡ some_string (string_in number (map view_record records.now))) }
{
    let text = text_in(alloc, records, number)?;
    if text.as_bytes().is_empty() {
        return Ok(None);
    }
    Ok(Some(text))
}

/// Returns the strings in a repeated field.
pub fn texts_in(alloc: Global, records: &[RecRef<'_>], number: u32) -> Result<List<Text>, Memory>
    ensures { IfOk result (λ texts. texts ≡ texts_in number (map view_record records.now)) }
{
    let mut texts = List::new(alloc);
    for record in records {
        if record.number == number {
            texts.add(string_from(alloc, body(record.value))?)?;
        }
    }
    Ok(texts)
}

/// Returns the number in a field, or None if it is 0.
pub fn optional_u16_in(records: &[RecRef<'_>], number: u32) -> Option<u16>
    ensures { result ≡ some_number (number_below 65536 number (map view_record records.now)) }
{
    let n = u16_in(records, number);
    if n == 0 { None } else { Some(n) }
}

/// Returns the records of the message in a field.
pub fn inside<'a>(
    alloc: Global,
    records: &[RecRef<'a>],
    number: u32,
) -> Result<Vec<RecRef<'a>>, Memory>
    ensures { IfOk result
        (λ v. map view_record v.items ≡ inside number (map view_record records.now)) }
{
    records_in(alloc, chunk_in(records, number))
}
