//! Why the program ends with a status that is not 0, as standard error is told it.

use crate::place::{Found, Place};
use records::refusal::RecordRefusal;
use std::alloc::{AllocError, Global};
use std::io;
use thiserror::Error;
use words::writing::WrongRecord;

#[derive(Debug, Drop, Error)]
pub(crate) enum Failure {
    /// The play is faulty or refused.
    #[error("{0}")]
    Refused(String),
    #[error("lamp: {0}")]
    Unreadable(String),
    #[error("lamp: the command line cannot be read, or is not UTF-8: {0}")]
    CommandLine(io::Error),
    #[error("lamp: standard output: {0}")]
    Unwritten(io::Error),
    #[error("lamp: out of memory")]
    OutOfMemory(#[from(alloc)] AllocError),
}

impl Failure {
    pub(crate) fn status(&self) -> u8 {
        match self {
            Failure::Unreadable(_) | Failure::CommandLine(_) => 2,
            Failure::Refused(_) | Failure::Unwritten(_) | Failure::OutOfMemory(_) => 1,
        }
    }
}

/// Of a text in which something else was expected.
pub(crate) fn faulty(
    alloc: Global,
    file: &str,
    place: Place,
    expected: &str,
    found: Found<'_>,
) -> Failure {
    let Place { line, column } = place;
    match format!(in alloc; "{file}:{line}:{column}: expected {expected}, not {found}") {
        Ok(message) => Failure::Refused(message),
        Err(error) => error.into(),
    }
}

/// Of records that have no words.
pub(crate) fn wrong(alloc: Global, file: &str, length: usize, why: WrongRecord) -> Failure {
    let message = match why {
        WrongRecord::Length => {
            format!(in alloc;
                "{file}: {length} bytes are no play: its records have 20 to 5,120 bytes, in twenties (cause 1)"
            )
        }
        WrongRecord::Event(index) => {
            format!(in alloc;
                "{file}: record {index}, an event, is wrong: its mark, kind, a flag, mode, answer code or unnamed byte (cause 1)"
            )
        }
        WrongRecord::Settings(refusal) => {
            let cause = u8::from(refusal);
            let why = settings_refused(refusal);
            format!(in alloc; "{file}: record 0, the settings, {why} (cause {cause})")
        }
    };
    match message {
        Ok(message) => Failure::Refused(message),
        Err(error) => error.into(),
    }
}

fn settings_refused(refusal: RecordRefusal) -> &'static str {
    match refusal {
        RecordRefusal::RecordWrong => "is wrong: its mark, a flag, known bit or unnamed byte",
        RecordRefusal::MaxAbove254 => "is refused: its max is above 254",
        RecordRefusal::MinAboveMax => "is refused: its min is above its max",
        RecordRefusal::LightingMin0 => {
            "is refused: its min is 0, and a lamp for lighting has a min of at least 1"
        }
    }
}
