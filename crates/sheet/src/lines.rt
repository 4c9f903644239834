//! One line for each event of a play, each event in the state that the one before it left, and their text in a lent slice.
ghost use Rattle.std.specs.Prelude.{◌≡◌, ◌*◌, ◌/◌, ◌≤◌, [], ◌∷◌, if◌then◌else◌, min, leb, length, nat_eq, nat_lt};
ghost use Rattle.text.specs.Text.{Room, Wrote, most};
ghost use Rattle.level_control.specs.State.{new_state};
ghost use Rattle.sheet.specs.Play.{fitted, play_number, play_values, written};
ghost use Rattle.sheet.specs.Lines.{outcome, record_number, record_outcome, text_of};

use crate::refusal::{EventRefusal, PlayRefusal};
use level_control::state::LevelControlState;
use records::RECORD;
use records::event_record::read_event;
use text::line::{LONGEST, Line};
use transitions::actions::Actions;
use transitions::settings::Settings;

/// A record's event in a state, and its actions in place of those in the lent list. A refused event has none.
#[tactic(auto, unfolding(crate::specs::Lines::record_outcome))]
fn record_event(
    state: &mut LevelControlState,
    bytes: &[u8],
    actions: &mut Actions,
) -> Result<(), EventRefusal>
    ensures { outcome (record_number result) state.new actions.new ≡ record_outcome state.old bytes.now }
{
    actions.clear();
    let event = read_event(bytes).ok_or(EventRefusal::RecordWrong)?;
    state.handle(event, actions)?;
    Ok(())
}

/// The number of a line: 0 where the event is accepted.
fn record_number(answer: Result<(), EventRefusal>) -> u8
    ensures { result ≡ record_number answer }
{
    answer.err().map_or(0, u8::from)
}

/// The text of the events, the first of them in the state that is given, at the front of out, and its length; or the refusal
/// `TextTooLong`, number 16, and out as it was. Where the text might be too long, it is measured first, with no room to
/// write. What is left over at the end, less than a record, is not read.
#[tactic(auto, using(crate::proofs::SheetLaws::fit_no))]
pub fn fit(events: &[u8], start: LevelControlState, out: &mut [u8]) -> Result<usize, PlayRefusal>
    ensures out_after { (result, out.new) ≡ fitted (text_of start events.now) out.old }
    ensures result_bound { written result ≤ LONGEST * (length events.now / RECORD) }
    ensures number { play_number result ≡ (if nat_lt (length out.old) (length (text_of start events.now)) then 16 else 0) }
    ensures values { play_values result ≡ (if nat_eq (play_number result) 0
        then length (text_of start events.now) ∷ [] else []) }
{
    if surely_fits(events.len() / RECORD, out.len()) {
        return Ok(put_each(events, start, out));
    }
    let need = put_each(events, start, &mut []);
    if out.len() < need {
        return Err(PlayRefusal::TextTooLong);
    }
    Ok(put_each(events, start, out))
}

/// `fit` of a new state, which is made where the lines are put: handed over, it would be written and read once more, fifty
/// instructions a call.
#[tactic(auto, using(crate::proofs::SheetLaws::fit_no))]
pub(crate) fn fit_new(
    events: &[u8],
    settings: &Settings,
    out: &mut [u8],
) -> Result<usize, PlayRefusal>
    ensures out_after { (result, out.new) ≡ fitted (text_of (new_state settings.now) events.now) out.old }
    ensures result_bound { written result ≤ LONGEST * (length events.now / RECORD) }
{
    if surely_fits(events.len() / RECORD, out.len()) {
        return Ok(put_new(events, settings, out));
    }
    let need = put_new(events, settings, &mut []);
    if out.len() < need {
        return Err(PlayRefusal::TextTooLong);
    }
    Ok(put_new(events, settings, out))
}

/// Whether that many lines fit in the room, however long they are.
fn surely_fits(lines: usize, room: usize) -> bool
    ensures { result ≡ leb (LONGEST * lines) room }
{
    lines <= room / LONGEST
}

/// `put_each` from a new state on.
fn put_new(events: &[u8], settings: &Settings, out: &mut [u8]) -> usize
    ensures value { result ≡ min (length (text_of (new_state settings.now) events.now)) most }
    ensures wrote { Room out.old 0 (text_of (new_state settings.now) events.now) → Wrote out.old 0 (text_of (new_state settings.now) events.now) out.new result }
    ensures upper_bound { result ≤ LONGEST * (length events.now / RECORD) }
{
    put_each(events, LevelControlState::new(*settings), out)
}

/// Gives the position past all lines, and writes them where all of them have room; where not, out may hold some of them.
fn put_each(events: &[u8], mut state: LevelControlState, out: &mut [u8]) -> usize
    ensures value { result ≡ min (length (text_of state events.now)) most }
    ensures wrote { Room out.old 0 (text_of state events.now) → Wrote out.old 0 (text_of state events.now) out.new result }
    ensures upper_bound { result ≤ LONGEST * (length events.now / RECORD) }
{
    let mut line = Line::new();
    let mut at = 0;
    for (index, record) in (1..).zip(events.chunks_exact(RECORD)) {
        let mut actions = Actions::new();
        let answer = record_event(&mut state, record, &mut actions);
        line.write(
            index,
            record_number(answer),
            state.current_level,
            state.remaining_time,
            &actions,
        );
        at = line.put(out, at);
    }
    at
}
