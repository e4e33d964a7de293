//! Fields of bytes.

use crate::spelling::said;
use fw_list::Memory;
use fw_wire::{Reader, Writer};
use std::alloc::Global;

/// What a step of reading gives: `u8`, `u16`, `u32`, `left`, `empty`, or a number of bytes.
fn step(alloc: Global, reader: &mut Reader<'_>, word: &str) -> Result<String, Memory> {
    let number = match word {
        "u8" => reader.u8().map(u32::from),
        "u16" => reader.u16().map(u32::from),
        "u32" => reader.u32(),
        "left" => u32::try_from(reader.left()).ok(),
        "empty" => Some(u32::from(reader.is_empty())),
        _ => return part(alloc, reader, word),
    };
    match number {
        Some(n) => Ok(format!(in alloc; "{n}")?),
        None => said(alloc, "none"),
    }
}

/// So many bytes.
fn part(alloc: Global, reader: &mut Reader<'_>, word: &str) -> Result<String, Memory> {
    let Ok(len) = word.parse::<usize>() else {
        return said(alloc, "no step");
    };
    match reader.fixed(len) {
        Some(bytes) => Ok(hex::encode(alloc, bytes)?),
        None => said(alloc, "none"),
    }
}

/// What each step of a line `HEX STEP ..` reads.
pub fn read(alloc: Global, line: &str) -> Result<String, Memory> {
    let mut words = line.split(' ');
    let Some(Ok(bytes)) = words.next().map(|word| hex::decode(alloc, word)) else {
        return said(alloc, "no bytes");
    };
    let mut reader = Reader::new(bytes.as_slice());
    let mut text = String::new(alloc);
    for word in words {
        if !text.is_empty() {
            text.push(' ')?;
        }
        text.push_str(step(alloc, &mut reader, word)?.as_str())?;
    }
    Ok(text)
}

/// Writes a field: `u8:N`, `u16:N`, `u32:N` or `HEX`.
fn add(alloc: Global, writer: &mut Writer, word: &str) -> Result<(), Memory> {
    let (kind, number) = word.split_once(':').unwrap_or(("", word));
    match kind {
        "u8" => writer.u8(number.parse::<u8>().unwrap_or(0)),
        "u16" => writer.u16(number.parse::<u16>().unwrap_or(0)),
        "u32" => writer.u32(number.parse::<u32>().unwrap_or(0)),
        _ => match hex::decode(alloc, number) {
            Ok(bytes) => writer.fixed(bytes.as_slice()),
            Err(_) => Ok(()),
        },
    }
}

/// The bytes of the fields of a line.
pub fn write(alloc: Global, line: &str) -> Result<String, Memory> {
    let mut writer = Writer::new(alloc);
    for word in line.split(' ') {
        add(alloc, &mut writer, word)?;
    }
    let bytes = writer.finish();
    Ok(hex::encode(alloc, bytes.items())?)
}
