//! A text to records.
ghost use Rattle.std.specs.Prelude.{◌≡◌, ◌++◌, Ok, Err, OnOk, IfErr, ◌≤◌};
ghost use Rattle.words.specs.Reading.{line_read, line_record, lines_of, lines_read, placed, play_read, read_into, read_number, read_values, text_number, text_values, unmarked, whole};

use crate::event_line::event_line;
use crate::fault::{Expected, Fault, WordFault};
use crate::lexis::{column, next_line};
use crate::settings_line::settings_line;
use crate::tokens::{Token, line_tokens};
use crate::values::fault;
use arrayvec::ArrayVec;
use records::RECORD;
use records::written::{write_event, write_settings};

/// Room for the records of every play, in bytes: settings and at most 255 events, 20 each.
pub const RECORDS_ROOM: usize = 5_120;

type Records = ArrayVec<u8, RECORDS_ROOM>;

/// The records of a play in words (docs/WORDS.md), at the front of `records`, and how many bytes they are; or the first fault of
/// the text, and `records` as it was. A byte order mark at the front of the text is skipped.
#[tactic(auto, unfolding(crate::specs::Reading::play_read))]
pub fn read_play(text: &[u8], records: &mut [u8; RECORDS_ROOM]) -> Result<usize, Fault>
    ensures records_after { (result, records.new) ≡ read_into text.now records.old }
    ensures number { read_number result ≡ text_number (play_read text.now) }
    ensures values { read_values result ≡ text_values (play_read text.now) }
{
    let mut list = Records::new();
    read_lines(unmarked(text), &mut list)?;
    records[..list.len()].copy_from_slice(list.as_slice());
    Ok(list.len())
}

/// Without a byte order mark.
fn unmarked(text: &[u8]) -> &[u8]
    ensures { result.now ≡ unmarked text.now }
{
    text.strip_prefix(b"\xEF\xBB\xBF".as_slice())
        .unwrap_or(text)
}

/// The records of all lines, behind those that are there.
#[tactic(auto, using(crate::proofs::LineLaws::goes_on, crate::proofs::LineLaws::ends, crate::proofs::LineLaws::fails))]
fn read_lines(text: &[u8], records: &mut Records) -> Result<(), Fault>
    ensures ok { OnOk result (lines_read records.old.items 1 (lines_of text.now) ≡ Ok records.new.items) }
    ensures err { IfErr result (λ fault. lines_read records.old.items 1 (lines_of text.now) ≡ Err fault) }
{
    let mut rest = text;
    let mut number = 1;
    loop {
        let (line, after) = next_line(rest);
        read_line(line, number, records)?;
        if after.is_empty() {
            return has_settings(line, number, records);
        }
        (_, rest) = after.split_at(1);
        number += 1;
    }
}

/// The last line ends the text: by then there must be settings.
fn has_settings(line: &[u8], number: usize, records: &Records) -> Result<(), Fault>
    ensures ok { OnOk result (whole number line.now records.now.items ≡ Ok records.now.items) }
    ensures err { IfErr result (λ fault. whole number line.now records.now.items ≡ Err fault) }
{
    if records.is_empty() {
        let missing = WordFault {
            word: 0,
            expected: Expected::Settings,
        };
        return Err(placed(line, number, missing));
    }
    Ok(())
}

/// The record of a line, if it has a word, behind those of the lines before it.
#[tactic(auto, unfolding(crate::specs::Reading::line_read))]
fn read_line(line: &[u8], number: usize, records: &mut Records) -> Result<(), Fault>
    ensures ok { OnOk result (line_read records.old.items number line.now ≡ Ok records.new.items) }
    ensures err { IfErr result (λ fault. line_read records.old.items number line.now ≡ Err fault) }
{
    let tokens = line_tokens(line);
    if tokens.is_empty() {
        return Ok(());
    }
    match line_record(tokens.as_slice(), records.len()) {
        Ok(record) => {
            let _fits = records.try_extend_from_slice(&record);
            Ok(())
        }
        Err(fault) => Err(placed(line, number, fault)),
    }
}

/// The record of a line, after so many bytes of records: first the settings, then events, as far as there is room for them.
fn line_record(tokens: &[Token], before: usize) -> Result<[u8; RECORD], WordFault>
    ensures value { result ≡ line_record tokens.now before }
    ensures fits { OnOk result (before ≤ 5100) }
{
    if before == 0 {
        Ok(write_settings(settings_line(tokens)?))
    } else if RECORDS_ROOM - RECORD < before {
        fault(0, Expected::NoMoreEvents)
    } else {
        Ok(write_event(event_line(tokens)?))
    }
}

/// A fault of a line's word, by its place in the text.
fn placed(line: &[u8], number: usize, fault: WordFault) -> Fault
    ensures { result ≡ placed number line.now fault }
{
    Fault {
        line: number,
        column: column(line, fault.word),
        expected: fault.expected,
    }
}
