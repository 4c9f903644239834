//! A play: settings, then a line for each event.
ghost use Rattle.std.specs.Prelude.{◌≡◌, ◌≤◌, [], ◌∷◌, if◌then◌else◌, length, nat_eq};
ghost use Rattle.transitions.specs.Causes.{first_cause};
ghost use Rattle.sheet.specs.Play.{call_tests, length_ok, play_number, play_of, play_values, returned, text_asked, written};

use crate::lines::fit_new;
use crate::refusal::PlayRefusal;
use records::RECORD;
use records::refusal::RecordRefusal;
use records::settings_record::read_settings;
use text::line::LONGEST;

/// Room for every sheet: a play has at most 255 events.
pub const ROOM: usize = 255 * LONGEST;

/// 20 to 5,120 bytes in twenties.
#[tactic(auto, unfolding(crate::specs::Play::length_ok))]
pub fn length_ok(length: usize) -> bool
    ensures { result ≡ length_ok length }
{
    (20..=5_120).contains(&length) && length % RECORD == 0
}

/// The sheet at the front of out and its length, or a refusal and out as it was.
#[tactic(auto, using(crate::proofs::SheetLaws::at_least, crate::proofs::SheetLaws::at_most, std::proofs::lemmas::List::take_rest), unfolding(crate::specs::Play::play_of, crate::specs::Play::play_with))]
pub fn play(records: &[u8], out: &mut [u8]) -> Result<usize, PlayRefusal>
    ensures out_after { (result, out.new) ≡ play_of records.now out.old }
    ensures result_bound { written result ≤ 48195 }
    ensures number { play_number result ≡ first_cause (call_tests records.now out.old) }
    ensures values { play_values result ≡ (if nat_eq (play_number result) 0
        then length (text_asked records.now) ∷ [] else []) }
{
    if !length_ok(records.len()) {
        return Err(RecordRefusal::RecordWrong.into());
    }
    let (first, events) = records.split_at(RECORD);
    let settings = read_settings(first)?;
    fit_new(events, &settings, out)
}

/// The bytes written, or minus the number of the refusal: what the C entry gives, which `sheet_c` exports.
pub fn level_control_play(records: &[u8], out: &mut [u8]) -> i32
    ensures { (result, out.new) ≡ returned (play_of records.now out.old) }
{
    match play(records, out) {
        // At most 48,195.
        Ok(length) => length as i32,
        Err(why) => -i32::from(u8::from(why)),
    }
}
