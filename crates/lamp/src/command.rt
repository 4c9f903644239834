//! The command line, and what `--help` and `--version` say.

use clap::{Arg, ArgAction, Command};
use std::alloc::{AllocError, Global};

/// The program's, and what `rt version` says of the toolchain that proved and built it.
const VERSION: &str = "1.0 (rattle-kit-13f logic dac8208d650f15bf)";

const ABOUT: &str =
    "Say what a lamp does in a play. A play is a text: a line for the lamp's settings, then a line for
each event, as

    settings  min 1  max 254  fastest-rate 50  level 10
    2.00s  off  move-to-level 13 in 0.3s
    2.00s  off  answer 11

docs/WORDS.md has all its words. docs/RULES.md says what the lamp does, and what each line of a
sheet means.";

const AFTER: &str =
    "Exit status: 0 if all was printed; 1 if the play is faulty or refused, or printing failed;
2 if the command line is wrong, or the file cannot be read.

Example: lamp sheet small.play";

fn file<'a>(alloc: Global, help: &'a str) -> Arg<'a> {
    Arg::new(alloc, "FILE").required(true).help(help)
}

fn hex<'a>(alloc: Global, help: &'a str) -> Arg<'a> {
    Arg::new(alloc, "hex")
        .long("hex")
        .action(ArgAction::SetTrue)
        .help(help)
}

fn sheet<'a>(alloc: Global) -> Result<Command<'a>, AllocError> {
    Command::new(alloc, "sheet")
        .about(
            "Print the sheet of a play: a line for each event, which says what the lamp does then",
        )
        .after_help(
            "If a word of the play is wrong, its line and column are told, and what was expected there.

Example: lamp sheet small.play",
        )
        .arg(file(alloc, "The play in words; - is standard input"))
}

fn records<'a>(alloc: Global) -> Result<Command<'a>, AllocError> {
    Command::new(alloc, "records")
        .about("Print the records of a play, the bytes that a lamp board or keysheet reads")
        .after_help("Example: lamp records small.play > small.records")
        .arg(hex(alloc, "Print them as hexadecimal pairs, a record a line"))?
        .arg(file(alloc, "The play in words; - is standard input"))
}

fn words<'a>(alloc: Global) -> Result<Command<'a>, AllocError> {
    Command::new(alloc, "words")
        .about("Print the words of a play that is given as records")
        .after_help("Example: lamp words small.records > small.play")
        .arg(hex(alloc, "The records are written as hexadecimal pairs"))?
        .arg(file(alloc, "The records; - is standard input"))
}

pub(crate) fn command<'a>(alloc: Global) -> Result<Command<'a>, AllocError> {
    Command::new(alloc, "lamp")
        .about(ABOUT)
        .after_help(AFTER)
        .version(VERSION)
        .subcommand_required(true)
        .subcommand(sheet(alloc)?)?
        .subcommand(records(alloc)?)?
        .subcommand(words(alloc)?)
}
