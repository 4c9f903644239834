//! Plays in words (docs/WORDS.md): prints the sheet of a play, its records, or the words of records.
//! The exit status is 0; 1 if the play is faulty or refused, or if writing fails; 2 for a wrong command line, or a file that
//! cannot be read.
#![tactic(auto)]

mod command;
mod expected;
mod failure;
mod hexadecimal;
mod place;
mod question;

use crate::command::command;
use crate::expected::message;
use crate::failure::{Failure, faulty, wrong};
use crate::hexadecimal::{HexError, from_hex, to_hex};
use crate::place::Place;
use crate::question::write_sheet;
use clap::ArgMatches;
use sheet::play::ROOM;
use std::alloc::Global;
use std::io::{Read, Write};
use std::process::ExitCode;
use std::{env, fs, io};
use words::fault::Fault;
use words::reading::{RECORDS_ROOM, read_play};
use words::writing::{TEXT_ROOM, write_play};

/// What was read, and the name of the file.
#[derive(Clone, Copy, Debug)]
struct Input<'a> {
    file: &'a str,
    bytes: &'a [u8],
}

fn read_all(mut input: impl Read + Drop, alloc: Global) -> io::Result<Vec<u8>> {
    let mut bytes = Vec::new(alloc);
    input.read_to_end(&mut bytes)?;
    Ok(bytes)
}

fn read_file(rt: &HostRuntime, file: &str) -> Result<Vec<u8>, Failure> {
    let read = if file == "-" {
        read_all(rt.reader(), rt.alloc())
    } else {
        fs::read(rt, file)
    };
    match read {
        Ok(bytes) => Ok(bytes),
        Err(error) => Err(Failure::Unreadable(format!(in rt.alloc(); "{file}: {error}")?)),
    }
}

fn print(rt: &HostRuntime, bytes: &[u8]) -> Result<(), Failure> {
    io::writer(rt).write_all(bytes).map_err(Failure::Unwritten)
}

fn faulty_play(rt: &HostRuntime, input: Input<'_>, fault: Fault) -> Failure {
    let place = Place {
        line: fault.line,
        column: fault.column,
    };
    let found = place.found(input.bytes);
    faulty(
        rt.alloc(),
        input.file,
        place,
        message(fault.expected),
        found,
    )
}

fn print_sheet(rt: &HostRuntime, input: Input<'_>) -> Result<(), Failure> {
    let mut sheet = [0; ROOM];
    match write_sheet(input.bytes, &mut sheet) {
        Ok(length) => print(rt, &sheet[..length]),
        Err(fault) => Err(faulty_play(rt, input, fault)),
    }
}

fn print_records(rt: &HostRuntime, input: Input<'_>, hex: bool) -> Result<(), Failure> {
    let mut records = [0; RECORDS_ROOM];
    let length = match read_play(input.bytes, &mut records) {
        Ok(length) => length,
        Err(fault) => return Err(faulty_play(rt, input, fault)),
    };
    let records = &records[..length];
    if hex {
        print(rt, to_hex(rt.alloc(), records)?.as_bytes())
    } else {
        print(rt, records)
    }
}

fn print_words(rt: &HostRuntime, file: &str, records: &[u8]) -> Result<(), Failure> {
    let mut text = [0; TEXT_ROOM];
    match write_play(records, &mut text) {
        Ok(length) => print(rt, &text[..length]),
        Err(why) => Err(wrong(rt.alloc(), file, records.len(), why)),
    }
}

fn print_words_of_hex(rt: &HostRuntime, input: Input<'_>) -> Result<(), Failure> {
    match from_hex(rt.alloc(), input.bytes) {
        Ok(records) => print_words(rt, input.file, &records),
        Err(HexError::OutOfMemory(error)) => Err(error.into()),
        Err(HexError::NoPair(place)) => {
            let found = place.found_in_hex(input.bytes);
            Err(faulty(
                rt.alloc(),
                input.file,
                place,
                "two hexadecimal digits",
                found,
            ))
        }
    }
}

fn run_command(rt: &HostRuntime, name: &str, matches: &ArgMatches<'_>) -> Result<(), Failure> {
    // clap has seen that it is there.
    let file = matches.get_str("FILE").unwrap_or("-");
    let hex = matches.get_flag("hex");
    let bytes = read_file(rt, file)?;
    let input = Input {
        file,
        bytes: &bytes,
    };
    match name {
        "sheet" => print_sheet(rt, input),
        "records" => print_records(rt, input, hex),
        _ if hex => print_words_of_hex(rt, input),
        _ => print_words(rt, file, &bytes),
    }
}

/// The exit status.
fn run(rt: &HostRuntime) -> Result<u8, Failure> {
    let words: Vec<String> = match env::args(rt) {
        Ok(words) => words.collect(rt.alloc())?,
        Err(error) => return Err(Failure::CommandLine(error)),
    };
    match command(rt.alloc())?.try_get_matches_from(words.as_slice()) {
        Ok(matches) => {
            if let Some((name, matches)) = matches.subcommand() {
                run_command(rt, name, matches)?;
            }
            Ok(0)
        }
        Err(usage) if usage.use_stderr() => {
            // Where it cannot be written, the status says it.
            let _ = usage.print(rt);
            Ok(2)
        }
        Err(help) => {
            help.print(rt).map_err(Failure::Unwritten)?;
            Ok(0)
        }
    }
}

fn main(rt: HostRuntime) -> ExitCode {
    let status = match run(&rt) {
        Ok(status) => status,
        Err(failure) => {
            let status = failure.status();
            let _ = rt.eprintln(failure);
            status
        }
    };
    ExitCode::from(status)
}
