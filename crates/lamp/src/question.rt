//! What `lamp sheet` prints of a text.
ghost use Rattle.std.specs.Prelude.{◌≡◌, ◌≤◌, IfOk};
ghost use Rattle.words.specs.Reading.{play_read, text_number};
ghost use Rattle.lamp.specs.Question.{sheet_number, sheet_of_text, sheet_values, values_in};

use sheet::key::key_sheet;
use sheet::play::ROOM;
use words::fault::Fault;
use words::reading::{RECORDS_ROOM, read_play};

/// The sheet of the play in words, at the front of out, and how long it is: what keysheet prints of the play's records; or the
/// first fault of the text, and out as it was.
pub fn write_sheet(text: &[u8], out: &mut [u8; ROOM]) -> Result<usize, Fault>
    ensures out_after { (result, out.new) ≡ sheet_of_text text.now out.old }
    ensures number { sheet_number result ≡ text_number (play_read text.now) }
    ensures values { sheet_values result ≡ values_in (play_read text.now) out.old }
    ensures bound { IfOk result (λ length. length ≤ 48195) }
{
    let mut records = [0; RECORDS_ROOM];
    let length = read_play(text, &mut records)?;
    Ok(key_sheet(&records[..length], out))
}
