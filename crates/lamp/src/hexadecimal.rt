//! Records as hexadecimal text.

use crate::place::{Place, without_mark};
use records::RECORD;
use std::alloc::{AllocError, Global};
use thiserror::Error;

/// Why a text gives no bytes.
#[derive(Debug, Drop, Error)]
pub(crate) enum HexError {
    #[error("no two hexadecimal digits")]
    NoPair(Place),
    #[error(transparent)]
    OutOfMemory(#[from(alloc)] AllocError),
}

/// A record a line, its bytes as in docs/RULES.md.
pub(crate) fn to_hex(alloc: Global, records: &[u8]) -> Result<String, AllocError> {
    let mut text = String::new(alloc);
    for record in records.chunks(RECORD) {
        let mut gap = "";
        for byte in record {
            write!(text, "{gap}{byte:02X}")?;
            gap = " ";
        }
        text.push_str("\n")?;
    }
    Ok(text)
}

fn digit(byte: u8) -> Option<u8> {
    match byte {
        b'0'..=b'9' => Some(byte - b'0'),
        b'a'..=b'f' => Some(byte - b'a' + 10),
        b'A'..=b'F' => Some(byte - b'A' + 10),
        _ => None,
    }
}

/// The bytes of its pairs, between which white space may stand. A fault is told where its pair begins.
pub(crate) fn from_hex(alloc: Global, text: &[u8]) -> Result<Vec<u8>, HexError> {
    let mut bytes = Vec::new(alloc);
    let mut place = Place { line: 1, column: 0 };
    let mut pair: Option<(u8, Place)> = None;
    for byte in without_mark(text) {
        place.column = place.column.saturating_add(1);
        if *byte == b'\n' {
            place.line = place.line.saturating_add(1);
            place.column = 0;
        }
        pair = match (pair, digit(*byte)) {
            (None, None) if byte.is_ascii_whitespace() => None,
            (None, Some(high)) => Some((high, place)),
            (Some((high, _)), Some(low)) => {
                bytes.push(high << 4 | low)?;
                None
            }
            (begun, None) => return Err(HexError::NoPair(begun.map_or(place, |(_, begun)| begun))),
        };
    }
    match pair {
        Some((_, begun)) => Err(HexError::NoPair(begun)),
        None => Ok(bytes),
    }
}
