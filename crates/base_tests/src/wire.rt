use proto_wire::frame::frame;
use proto_wire::front::FrontBytes;
use proto_wire::record::{Rec, WireValue};
use proto_wire::scan::{records, scan};
use proto_wire::writing::{put_chunk, put_fixed32, put_fixed64, put_number, put_varint};
use row_file::TrialFault;
use std::alloc::{AllocError, Global};

fn shown_record(alloc: Global, record: &Rec) -> Result<String, AllocError> {
    let number = record.number;
    match &record.value {
        WireValue::Varint(value) => format!(in alloc; "{number} VARINT {value}"),
        WireValue::Fixed64(value) => format!(in alloc; "{number} I64 {value}"),
        WireValue::Fixed32(value) => format!(in alloc; "{number} I32 {value}"),
        WireValue::Chunk(bytes) => {
            let hex = hex::encode(alloc, bytes.as_slice())?;
            format!(in alloc; "{number} LEN [{hex}]")
        }
    }
}

fn shown(alloc: Global, records: &[Rec]) -> Result<String, AllocError> {
    let mut all = String::new(alloc);
    for record in records {
        if !all.is_empty() {
            all.push_str(", ")?;
        }
        all.push_str(shown_record(alloc, record)?.as_str())?;
    }
    Ok(all)
}

/// The records of a message in hexadecimal digits, or the fault.
pub fn records_in(alloc: Global, hex: &str) -> Result<String, TrialFault> {
    let bytes = hex::decode(alloc, hex)?;
    Ok(match records(alloc, &bytes) {
        Err(fault) => format!(in alloc; "{fault:?}")?,
        Ok(found) if found.len() == 0 => String::from_str(alloc, "none")?,
        Ok(found) => shown(alloc, found.as_slice())?,
    })
}

/// The fault of a message, and the records before it.
pub fn scan_of(alloc: Global, hex: &str) -> Result<String, TrialFault> {
    let bytes = hex::decode(alloc, hex)?;
    let scanned = scan(alloc, &bytes)?;
    let Some(fault) = scanned.fault else {
        return Err(TrialFault::new("the message has no fault"));
    };
    let mut found = Vec::new(alloc);
    for record in &scanned.records {
        found.push(record.to_rec(alloc)?)?;
    }
    let records = shown(alloc, &found)?;
    Ok(format!(in alloc; "{fault:?} after {records}")?)
}

/// The varint of a number, which is written before a byte that stays, and is read again.
pub fn varint(alloc: Global, number: &str) -> Result<String, TrialFault> {
    let mut out = FrontBytes::with_room(alloc, 0)?;
    out.put(b"\xff")?;
    put_varint(&mut out, number.parse::<u64>()?)?;
    out.put(b"\x08")?;
    let hex = hex::encode(alloc, out.as_slice())?;
    let message = hex.strip_suffix("ff").unwrap_or("");
    let read = records_in(alloc, message)?;
    if read.strip_prefix("1 VARINT ") != Some(number) {
        return Ok(read);
    }
    Ok(String::from_str(alloc, message.strip_prefix("08").unwrap_or(""))?)
}

fn put_field(message: &mut FrontBytes, line: &str) -> Result<(), TrialFault> {
    let (kind, rest) = line.split_once(' ').unwrap_or((line, ""));
    let (field, value) = rest.split_once(' ').unwrap_or((rest, ""));
    let field = field.parse::<u32>()?;
    match kind {
        "fixed64" => put_fixed64(message, field, value.parse::<u64>()?)?,
        "fixed32" => put_fixed32(message, field, value.parse::<u32>()?)?,
        "chunk" => put_chunk(message, field, value.as_bytes())?,
        "number" => put_number(message, field, value.parse::<u64>()?)?,
        _ => return Err(TrialFault::new("no field is of this kind")),
    }
    Ok(())
}

/// Writes the frame of a message whose fields are put from the last to the first.
pub fn fields(alloc: Global, input: &str, out: &mut String) -> Result<(), TrialFault> {
    let mut message = FrontBytes::with_room(alloc, 0)?;
    for line in input.lines() {
        put_field(&mut message, line)?;
    }
    if message.len() > 100 {
        return Err(TrialFault::new("the message is too long for a row"));
    }
    let framed = frame(alloc, message.as_slice())?;
    let hex = hex::encode(alloc, framed.as_slice())?;
    write!(out, "{hex}\n")?;
    Ok(())
}
