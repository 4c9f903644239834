//! Reads records from standard input and prints the sheet, or `0 `, the number of the refusal and a line feed.
//! The exit status is 0, of a refusal too; 1 if reading or writing fails.
#![tactic(auto)]

use sheet::key::key_sheet;
use sheet::play::ROOM;
use std::io;
use std::io::{Read, Write};

/// One byte more than a play may have, so that a longer input is seen to be too long.
const MOST_READ: usize = 5_121;

fn main(rt: HostRuntime) -> io::Result<()> {
    // Fixed rooms: the longest play and the longest sheet are known.
    let mut records = [0; MOST_READ];
    let read = io::copy(
        &mut rt.reader().take(MOST_READ as u64),
        &mut &mut records[..],
    )?;
    // No more than the room: nothing is cut.
    let read = MOST_READ.min(read as usize);
    let mut sheet = [0; ROOM];
    let length = key_sheet(&records[..read], &mut sheet);
    io::writer(&rt).write_all(&sheet[..length])
}
