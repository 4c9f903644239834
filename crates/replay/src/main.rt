//! Replays a list of plays (oracle/README.md, "A list of plays") from standard input and says how many of them agree: our sheet and the
//! lines that the handler's methods give are the Rust's sheet, and the state after each line is the Rust's. Where one of these three
//! differs, its first line that does is printed.
//! With an argument it prints our sheets instead, each under a line `# play N`, and passes over what the list says of them; with two, the
//! handler's lines with the whole state after each.
//!
//! The exit status is 0; 1 if a play differs; 2 if there is no list, or if it is cut or damaged, or if reading or writing fails.
#![tactic(auto)]

mod differences;
mod list;
mod pairs;
mod states;

use crate::differences::first_difference;
use crate::list::{List, Play, PlayRoom};
use crate::states::print_play;
use arrayvec::ArrayVec;
use sheet::key::key_sheet;
use sheet::play::ROOM;
use std::env::{Env, FillError};
use std::io;
use std::io::{Read, Write};
use std::process::ExitCode;

/// Differences that are printed.
const MOST_SHOWN: u32 = 20;

/// 256 bytes a line, which what an answer's array holds never fills.
const MOST_GIVEN: usize = 65_536;

#[derive(Clone, Copy, Debug, PartialEq, Eq)]
enum Output {
    Compare,
    Sheets,
    States,
}

#[derive(Clone, Copy, Debug, Default)]
struct Count {
    agree: u64,
    differ: u64,
}

/// What the handler gives for a play.
#[derive(Drop)]
struct Given {
    lines: ArrayVec<u8, MOST_GIVEN>,
    states: ArrayVec<u8, MOST_GIVEN>,
}

impl Given {
    /// In place of the play before.
    fn play(&mut self, play: Play) -> io::Result<()> {
        self.lines.clear();
        self.states.clear();
        print_play(&mut self.lines, &mut self.states, play)
    }
}

fn print_title(out: &mut impl Write, index: u32) -> io::Result<()> {
    writeln!(out, "# play {index}")
}

/// Whether the play agrees. If not, what differs is printed, as long as few have been shown.
fn compare(
    out: &mut impl Write,
    index: u32,
    play: Play,
    given: &mut Given,
    shown: &mut u32,
) -> io::Result<bool> {
    let mut sheet = [0; ROOM];
    let length = key_sheet(play.records, &mut sheet);
    given.play(play)?;
    let mut agrees = true;
    for (what, ours, rust) in [
        ("sheet", &sheet[..length], play.sheet),
        ("handler's line", given.lines.as_slice(), play.sheet),
        ("state", given.states.as_slice(), play.states),
    ] {
        let Some(difference) = first_difference(ours, rust) else {
            continue;
        };
        agrees = false;
        if *shown < MOST_SHOWN {
            *shown += 1;
            difference.print(out, index, what)?;
        }
    }
    Ok(agrees)
}

fn print_sheet(out: &mut impl Write, play: Play) -> io::Result<()> {
    let mut sheet = [0; ROOM];
    let length = key_sheet(play.records, &mut sheet);
    out.write_all(&sheet[..length])
}

/// Each line with its state under it.
fn print_states(out: &mut impl Write, play: Play, given: &mut Given) -> io::Result<()> {
    given.play(play)?;
    let mut states = given
        .states
        .as_slice()
        .split_inclusive(|byte| *byte == b'\n');
    for line in given
        .lines
        .as_slice()
        .split_inclusive(|byte| *byte == b'\n')
    {
        out.write_all(line)?;
        out.write_all(states.next().unwrap_or(&[]))?;
    }
    Ok(())
}

/// What is done with a play: it is held to the Rust, or printed. Whether it agrees.
fn show(
    out: &mut impl Write,
    index: u32,
    output: Output,
    play: Play,
    given: &mut Given,
    shown: &mut u32,
) -> io::Result<bool> {
    match output {
        Output::Compare => return compare(out, index, play, given, shown),
        Output::Sheets => {
            print_title(out, index)?;
            print_sheet(out, play)?;
        }
        Output::States => {
            print_title(out, index)?;
            print_states(out, play, given)?;
        }
    }
    Ok(true)
}

/// None where the list is cut.
fn all(
    list: &mut List<impl Read + Drop>,
    output: Output,
    out: &mut impl Write,
) -> io::Result<Option<Count>> {
    let mut count = Count::default();
    let mut shown = 0;
    let mut room = PlayRoom::new();
    let mut given = Given {
        lines: ArrayVec::new(),
        states: ArrayVec::new(),
    };
    for index in 1..=list.plays {
        let Some(play) = list.play(&mut room)? else {
            return Ok(None);
        };
        if show(out, index, output, play, &mut given, &mut shown)? {
            count.agree += 1;
        } else {
            count.differ += 1;
        }
    }
    Ok(Some(count))
}

fn report(out: &mut impl Write, count: Count) -> io::Result<()> {
    writeln!(
        out,
        "{} plays agree with the Rust, {} differ",
        count.agree, count.differ
    )
}

/// Whatever its bytes are.
fn has_argument(rt: &impl Env, index: usize) -> bool {
    !matches!(rt.arg(index, &mut []), Err(FillError::NotPresent))
}

fn output_of(rt: &impl Env) -> Output {
    if has_argument(rt, 2) {
        Output::States
    } else if has_argument(rt, 1) {
        Output::Sheets
    } else {
        Output::Compare
    }
}

/// The exit status.
fn replay(input: impl Read + Drop, output: Output, out: &mut impl Write) -> io::Result<u8> {
    let Some(mut list) = List::open(input)? else {
        writeln!(out, "this is no list of plays")?;
        return Ok(2);
    };
    let count = match all(&mut list, output, out)? {
        Some(count) if list.ends_well()? => count,
        _ => {
            writeln!(out, "the list is cut or damaged")?;
            return Ok(2);
        }
    };
    if output == Output::Compare {
        report(out, count)?;
    }
    Ok(u8::from(0 < count.differ))
}

fn main(rt: HostRuntime) -> ExitCode {
    let status = replay(rt.reader(), output_of(&rt), &mut io::writer(&rt));
    match status {
        Ok(status) => ExitCode::from(status),
        Err(why) => {
            // Where this cannot be written, the status says it.
            let _ = rt.eprintln(why);
            ExitCode::from(2)
        }
    }
}
