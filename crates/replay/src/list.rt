//! A list of plays (oracle/README.md, "A list of plays"), read piece by piece: it may be longer than the memory.
use crate::pairs::are_whole;
use std::io;
use std::io::Read;

/// The most bytes of a play's records. A list with a longer part counts as cut.
const MOST_RECORDS: usize = 5_141;

/// The most bytes of its sheet, of its states, and of its pairs.
const MOST_TEXT: usize = 65_536;

#[derive(Drop)]
pub(crate) struct List<R> {
    input: R,
    /// The number of plays and the sum, as the head says.
    pub(crate) plays: u32,
    sum: u32,
    /// The sum of what has been read behind the head.
    read: u32,
}

/// Room for one play.
#[derive(Drop)]
pub(crate) struct PlayRoom {
    records: [u8; MOST_RECORDS],
    sheet: [u8; MOST_TEXT],
    states: [u8; MOST_TEXT],
    pairs: [u8; MOST_TEXT],
}

/// A play, and what the Rust gives for it.
#[derive(Clone, Copy, Debug)]
pub(crate) struct Play<'a> {
    pub(crate) records: &'a [u8],
    pub(crate) sheet: &'a [u8],
    /// The whole state after each line of the sheet.
    pub(crate) states: &'a [u8],
    /// The pairs of its scenes.
    pub(crate) pairs: &'a [u8],
}

#[derive(Clone, Copy, Debug)]
struct Lengths {
    records: usize,
    sheet: usize,
    states: usize,
    pairs: usize,
}

/// The sum of all bytes, modulo 2^32.
fn add_bytes(sum: u32, bytes: &[u8]) -> u32 {
    bytes
        .iter()
        .fold(sum, |total, &byte| total.wrapping_add(u32::from(byte)))
}

/// A number of a head, low byte first, and what follows it, or nothing where it is cut.
fn number(bytes: &[u8]) -> Option<(u32, &[u8])> {
    let (first, rest) = bytes.split_first_chunk::<4>()?;
    Some((u32::from_le_bytes(*first), rest))
}

/// The number of plays and the sum.
fn plays_and_sum(bytes: &[u8]) -> Option<(u32, u32)> {
    let (plays, bytes) = number(bytes)?;
    let (sum, _) = number(bytes)?;
    Some((plays, sum))
}

/// Lengths have 32 bits in a head.
fn lengths_of(bytes: &[u8]) -> Option<Lengths> {
    let (records, bytes) = number(bytes)?;
    let (sheet, bytes) = number(bytes)?;
    let (states, bytes) = number(bytes)?;
    let (pairs, _) = number(bytes)?;
    Some(Lengths {
        records: records as usize,
        sheet: sheet as usize,
        states: states as usize,
        pairs: pairs as usize,
    })
}

/// The next n bytes, or as many as there are and the room holds.
fn read_some<'a>(input: &mut impl Read, n: usize, room: &'a mut [u8]) -> io::Result<&'a [u8]> {
    let n = n.min(room.len());
    // A length has 64 bits at most.
    let read = io::copy(&mut input.take(n as u64), &mut &mut room[..n])?;
    // No more than the room: nothing is cut.
    let read = n.min(read as usize);
    Ok(&room[..read])
}

impl PlayRoom {
    pub(crate) fn new() -> PlayRoom {
        PlayRoom {
            records: [0; MOST_RECORDS],
            sheet: [0; MOST_TEXT],
            states: [0; MOST_TEXT],
            pairs: [0; MOST_TEXT],
        }
    }
}

impl<R: Read + Drop> List<R> {
    /// Nothing where the input does not begin as a list does.
    pub(crate) fn open(mut input: R) -> io::Result<Option<List<R>>> {
        let mut room = [0; 16];
        let head = read_some(&mut input, 16, &mut room)?;
        let Some((plays, sum)) = head.strip_prefix(b"LCPLAYS2").and_then(plays_and_sum) else {
            return Ok(None);
        };
        Ok(Some(List {
            input,
            plays,
            sum,
            read: 0,
        }))
    }

    /// As `read_some`, and added to the sum.
    fn read_summed<'a>(&mut self, n: usize, room: &'a mut [u8]) -> io::Result<&'a [u8]> {
        let bytes = read_some(&mut self.input, n, room)?;
        self.read = add_bytes(self.read, bytes);
        Ok(bytes)
    }

    /// The next play, in the room that is lent, or nothing where the list is cut.
    pub(crate) fn play<'a>(&mut self, room: &'a mut PlayRoom) -> io::Result<Option<Play<'a>>> {
        let mut head = [0; 16];
        let head = self.read_summed(16, &mut head)?;
        let Some(lengths) = lengths_of(head) else {
            return Ok(None);
        };
        let PlayRoom {
            records,
            sheet,
            states,
            pairs,
        } = room;
        let records = self.read_summed(lengths.records, records)?;
        let sheet = self.read_summed(lengths.sheet, sheet)?;
        let states = self.read_summed(lengths.states, states)?;
        let pairs = self.read_summed(lengths.pairs, pairs)?;
        let whole = records.len() == lengths.records
            && sheet.len() == lengths.sheet
            && states.len() == lengths.states
            && pairs.len() == lengths.pairs
            && are_whole(pairs);
        Ok(whole.then_some(Play {
            records,
            sheet,
            states,
            pairs,
        }))
    }

    /// Whether nothing follows, and the sum is the head's.
    pub(crate) fn ends_well(&mut self) -> io::Result<bool> {
        let mut room = [0; 1];
        let more = self.read_summed(1, &mut room)?;
        Ok(more.is_empty() && self.read == self.sum)
    }
}
