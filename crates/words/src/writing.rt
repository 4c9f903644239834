//! Records to their text (docs/WORDS.md, The one text of a play).
ghost use Rattle.std.specs.Prelude.{◌≡◌, ◌+◌, ◌/◌, ◌%◌, ◌^◌, ◌<◌, ◌≤◌, [], ◌∷◌, ◌++◌, length, Ok, Err, OnOk, IfErr, IfOk};
ghost use Rattle.text.specs.Text.{digits};
ghost use Rattle.arrayvec.specs.ArrayVec.{array_vec_len};
ghost use Rattle.records.specs.EventRecord.{event_read};
ghost use Rattle.records.specs.SettingsRecord.{settings_read};
ghost use Rattle.transitions.specs.declared.events.Command.TheVariants as command;
ghost use Rattle.words.specs.Names.{name_text, verb_text};
ghost use Rattle.words.specs.Spelling.{answer_word, byte_or_null_word, byte_words, command_verb, command_words, direction_name, event_text, flag_words, fraction, kind_words, on_off_name, options_words, positive_byte_words, positive_time_words, seconds_text, setting_text, settings_text, spaced, time_words};
ghost use Rattle.words.specs.Writing.{event_records, flags_text, length_ok, levels_text, number_of, play_text, range_text, times_text, values_of, with_event, with_events, with_line, with_settings, write_into, write_number, write_values};

use crate::names::{CommandVerb, Name, Verb};
use arrayvec::ArrayVec;
use itoa::Buffer;
use records::RECORD;
use records::event_record::read_event;
use records::refusal::RecordRefusal;
use records::settings_record::read_settings;
use transitions::events::{
    Command, DeviceAnswer, Event, EventKind, MoveRequest, MoveToLevelRequest, SceneRequest,
    StepRequest,
};
use transitions::options::CommandOptions;
use transitions::settings::Settings;
use transitions::types::{Mode, Time};
use units::Tenths;

/// More bytes than any line has.
pub(crate) const LINE_ROOM: usize = 256;

type Line = ArrayVec<u8, LINE_ROOM>;

/// Room for the text of every play, 32,896 bytes: 256 for the line of the settings, and 128 for that of each of 255 events.
pub const TEXT_ROOM: usize = LINE_ROOM + 255 * 128;

type Text = ArrayVec<u8, TEXT_ROOM>;

/// Why records have no text: a text says every record that is right (docs/RULES.md, Records).
#[derive(Clone, Copy, Debug, PartialEq, Eq)]
pub enum WrongRecord {
    /// They are not 20 to 5,120 bytes in twenties.
    Length,
    /// What refuses the settings (docs/RULES.md, Causes).
    Settings(RecordRefusal),
    /// Which event is the first wrong one, counted from 1 as in a sheet.
    Event(usize),
}

/// The one text of a play's records (docs/WORDS.md) at the front of `text`, and how many bytes it is; or the first thing that is
/// wrong, and `text` as it was: the length, then the settings, then the events in their order. A line feed ends each line.
pub fn write_play(records: &[u8], text: &mut [u8; TEXT_ROOM]) -> Result<usize, WrongRecord>
    ensures text_after { (result, text.new) ≡ write_into records.now text.old }
    ensures within { IfOk result (λ length. length ≤ 32896) }
    ensures number { write_number result ≡ number_of records.now }
    ensures values { write_values result ≡ values_of records.now }
{
    let mut lines = Text::new();
    push_play(records, &mut lines)?;
    text[..lines.len()].copy_from_slice(lines.as_slice());
    Ok(lines.len())
}

/// 20 to 5,120 bytes in twenties.
fn length_ok(length: usize) -> bool
    ensures { result ≡ length_ok length }
{
    (20..=5_120).contains(&length) && length % RECORD == 0
}

#[tactic(auto, unfolding(crate::specs::Writing::play_text))]
fn push_play(records: &[u8], lines: &mut Text) -> Result<(), WrongRecord>
    requires { lines.old.items ≡ [] }
    ensures ok { OnOk result (play_text records.now ≡ Ok lines.new.items) }
    ensures err { IfErr result (λ why. play_text records.now ≡ Err why) }
{
    if !length_ok(records.len()) {
        return Err(WrongRecord::Length);
    }
    let (first, events) = records.split_at(RECORD);
    push_settings(first, lines)?;
    push_events(events, lines)
}

fn push_settings(bytes: &[u8], lines: &mut Text) -> Result<(), WrongRecord>
    requires { lines.old.items ≡ [] }
    ensures ok { OnOk result (with_settings (settings_read bytes.now) ≡ Ok lines.new.items) }
    ensures err { IfErr result (λ why. with_settings (settings_read bytes.now) ≡ Err why) }
    ensures room { OnOk result (array_vec_len lines.new ≤ LINE_ROOM) }
{
    match read_settings(bytes) {
        Ok(settings) => {
            push_line(lines, &settings_text(&settings));
            Ok(())
        }
        Err(why) => Err(WrongRecord::Settings(why)),
    }
}

/// The lines of events, behind that of the settings.
#[tactic(auto, using(crate::proofs::WritingLaws::goes_on, crate::proofs::WritingLaws::fails, crate::proofs::WritingLaws::ends))]
fn push_events(events: &[u8], lines: &mut Text) -> Result<(), WrongRecord>
    requires records { length events.now ≤ 5100 }
    requires room { array_vec_len lines.old ≤ LINE_ROOM }
    ensures ok { OnOk result (with_events lines.old.items 1 (event_records events.now) ≡ Ok lines.new.items) }
    ensures err { IfErr result (λ why. with_events lines.old.items 1 (event_records events.now) ≡ Err why) }
{
    let mut rest = events;
    let mut index = 1;
    while let Some((record, after)) = rest.split_first_chunk::<RECORD>() {
        push_event(record, index, lines)?;
        rest = after;
        index += 1;
    }
    Ok(())
}

fn push_event(bytes: &[u8], index: usize, lines: &mut Text) -> Result<(), WrongRecord>
    requires { array_vec_len lines.old + 128 ≤ TEXT_ROOM }
    ensures ok { OnOk result (with_event lines.old.items index (event_read bytes.now) ≡ Ok lines.new.items) }
    ensures err { IfErr result (λ why. with_event lines.old.items index (event_read bytes.now) ≡ Err why) }
    ensures room { OnOk result (array_vec_len lines.new ≤ array_vec_len lines.old + 128) }
{
    let event = read_event(bytes).ok_or(WrongRecord::Event(index))?;
    push_line(lines, &event_text(&event));
    Ok(())
}

/// A line and its line feed.
fn push_line(lines: &mut Text, line: &Line)
    requires { array_vec_len lines.old + array_vec_len line.now < TEXT_ROOM }
    ensures text { lines.new.items ≡ with_line lines.old.items line.now.items }
    ensures room { array_vec_len lines.new ≡ array_vec_len lines.old + array_vec_len line.now + 1 }
{
    let _fits = lines.try_extend_from_slice(line.as_slice());
    lines.push(b'\n');
}

/// The line of settings, without a line feed (docs/WORDS.md, The one text of a play). Times are in seconds, as 6553.5s.
pub fn settings_text(settings: &Settings) -> Line
    ensures text { result.items ≡ settings_text settings.now }
    ensures within { array_vec_len result < LINE_ROOM }
{
    let mut line = Line::new();
    push_text(&mut line, Name::Settings.text());
    push_range(&mut line, settings);
    push_levels(&mut line, settings);
    push_times(&mut line, settings);
    push_flags(&mut line, settings);
    line
}

/// Min, max and the fastest rate.
fn push_range(line: &mut Line, settings: &Settings)
    requires { array_vec_len line.old ≤ 8 }
    ensures text { line.new.items ≡ line.old.items ++ range_text settings.now }
    ensures room { array_vec_len line.new ≤ array_vec_len line.old + 36 }
{
    push_byte_setting(line, Name::Min, Some(settings.range.min));
    push_byte_setting(line, Name::Max, Some(settings.range.max));
    push_byte_setting(line, Name::FastestRate, Some(settings.fastest_rate));
}

/// The levels and the default rate.
fn push_levels(line: &mut Line, settings: &Settings)
    requires { array_vec_len line.old ≤ 44 }
    ensures text { line.new.items ≡ line.old.items ++ levels_text settings.now }
    ensures room { array_vec_len line.new ≤ array_vec_len line.old + 76 }
{
    let attributes = &settings.attributes;
    push_byte_setting(line, Name::Level, settings.current_level);
    push_byte_setting(line, Name::OnLevel, attributes.on_level);
    push_byte_setting(
        line,
        Name::StartUpCurrentLevel,
        attributes.start_up_current_level,
    );
    push_byte_setting(line, Name::DefaultMoveRate, attributes.default_move_rate);
}

fn push_times(line: &mut Line, settings: &Settings)
    requires { array_vec_len line.old ≤ 120 }
    ensures text { line.new.items ≡ line.old.items ++ times_text settings.now }
    ensures room { array_vec_len line.new ≤ array_vec_len line.old + 89 }
{
    let attributes = &settings.attributes;
    push_positive_time_setting(
        line,
        Name::OnOffTransitionTime,
        attributes.on_off_transition_time,
    );
    push_time_setting(line, Name::OnTransitionTime, attributes.on_transition_time);
    push_time_setting(
        line,
        Name::OffTransitionTime,
        attributes.off_transition_time,
    );
}

/// The options, and what is yes.
fn push_flags(line: &mut Line, settings: &Settings)
    requires { array_vec_len line.old ≤ 209 }
    ensures text { line.new.items ≡ line.old.items ++ flags_text settings.now }
    ensures room { array_vec_len line.new ≤ array_vec_len line.old + 32 }
{
    push_positive_byte_setting(line, Name::Options, settings.attributes.options.0);
    push_flag_setting(line, Name::Coupled, settings.coupled);
    push_flag_setting(line, Name::Lighting, settings.lighting);
}

/// The line of an event, without a line feed (docs/WORDS.md, The one text of a play). Its clock time is in seconds, as 2.000000s.
#[tactic(auto, using(crate::proofs::WritingLaws::micros_digits))]
pub fn event_text(event: &Event) -> Line
    ensures text { result.items ≡ event_text event.now }
    ensures within { array_vec_len result < 128 }
{
    let mut line = Line::new();
    push_seconds(&mut line, event.moment.at.0, 6);
    line.push(b' ');
    push_on_off(&mut line, event.moment.on_off);
    line.push(b' ');
    push_kind(&mut line, event.kind);
    line
}

fn push_kind(line: &mut Line, kind: EventKind)
    requires { array_vec_len line.old ≤ 100 }
    ensures text { line.new.items ≡ line.old.items ++ spaced (kind_words kind) }
    ensures room { array_vec_len line.new ≤ array_vec_len line.old + 70 }
{
    match kind {
        EventKind::StartUp => push_verb(line, Verb::StartUp),
        EventKind::Answer(answer) => {
            push_verb(line, Verb::Answer);
            push_answer(line, answer);
        }
        EventKind::Wake => push_verb(line, Verb::Wake),
        EventKind::Command(command) => {
            push_verb(line, Verb::Command(command_verb(command)));
            push_command(line, command);
        }
    }
}

fn command_verb(command: Command) -> CommandVerb
    ensures { result ≡ command_verb command }
{
    match command {
        Command::MoveToLevel(request) if request.options.with_on_off => {
            CommandVerb::MoveToLevelWithOnOff
        }
        Command::MoveToLevel(_) => CommandVerb::MoveToLevel,
        Command::Move(request) if request.options.with_on_off => CommandVerb::MoveWithOnOff,
        Command::Move(_) => CommandVerb::Move,
        Command::Step(request) if request.options.with_on_off => CommandVerb::StepWithOnOff,
        Command::Step(_) => CommandVerb::Step,
        Command::Stop(options) if options.with_on_off => CommandVerb::StopWithOnOff,
        Command::Stop(_) => CommandVerb::Stop,
        Command::OnOffChanged(_) => CommandVerb::OnOff,
        Command::Scene(_) => CommandVerb::RecallScene,
        Command::DeviceUpdate(_) => CommandVerb::DeviceUpdate,
        Command::DeviceStop => CommandVerb::DeviceStop,
        Command::SetOnLevel(_)
        | Command::SetDefaultMoveRate(_)
        | Command::SetStartUpCurrentLevel(_) => CommandVerb::Write,
        Command::FactoryReset => CommandVerb::FactoryReset,
    }
}

/// What stands behind the verb.
fn push_command(line: &mut Line, command: Command)
    requires { array_vec_len line.old ≤ 130 }
    ensures text { line.new.items ≡ line.old.items ++ spaced (command_words command) }
    ensures room { array_vec_len line.new ≤ array_vec_len line.old + 42 }
{
    match command {
        Command::MoveToLevel(request) => push_move_to_level(line, &request),
        Command::Move(request) => push_move(line, &request),
        Command::Step(request) => push_step(line, &request),
        Command::Stop(options) => push_options(line, options),
        Command::OnOffChanged(on) => push_on_off(line, on),
        Command::Scene(request) => push_scene(line, &request),
        Command::DeviceUpdate(level) => push_byte(line, level),
        Command::SetOnLevel(level) => push_write(line, Name::OnLevel, level),
        Command::SetDefaultMoveRate(rate) => push_write(line, Name::DefaultMoveRate, rate),
        Command::SetStartUpCurrentLevel(level) => {
            push_write(line, Name::StartUpCurrentLevel, level);
        }
        Command::DeviceStop | Command::FactoryReset => {}
    }
}

#[tactic(auto, using(crate::proofs::WritingLaws::spaced_append))]
fn push_move_to_level(line: &mut Line, request: &MoveToLevelRequest)
    requires { array_vec_len line.old ≤ 130 }
    ensures text { line.new.items ≡ line.old.items ++ spaced (command_words (command.MoveToLevel request.now)) }
    ensures room { array_vec_len line.new ≤ array_vec_len line.old + 37 }
{
    push_byte(line, request.level);
    push_named_time(line, Name::In, request.transition_time);
    push_options(line, request.options);
}

#[tactic(auto, using(crate::proofs::WritingLaws::spaced_append))]
fn push_move(line: &mut Line, request: &MoveRequest)
    requires { array_vec_len line.old ≤ 130 }
    ensures text { line.new.items ≡ line.old.items ++ spaced (command_words (command.Move request.now)) }
    ensures room { array_vec_len line.new ≤ array_vec_len line.old + 36 }
{
    push_direction(line, request.mode);
    push_named_byte(line, Name::Rate, request.rate);
    push_options(line, request.options);
}

#[tactic(auto, using(crate::proofs::WritingLaws::spaced_append))]
fn push_step(line: &mut Line, request: &StepRequest)
    requires { array_vec_len line.old ≤ 130 }
    ensures text { line.new.items ≡ line.old.items ++ spaced (command_words (command.Step request.now)) }
    ensures room { array_vec_len line.new ≤ array_vec_len line.old + 42 }
{
    push_direction(line, request.mode);
    push_byte(line, request.step_size);
    push_named_time(line, Name::In, request.transition_time);
    push_options(line, request.options);
}

#[tactic(auto, using(crate::proofs::WritingLaws::millis_digits, crate::proofs::WritingLaws::spaced_append))]
fn push_scene(line: &mut Line, request: &SceneRequest)
    requires { array_vec_len line.old ≤ 130 }
    ensures text { line.new.items ≡ line.old.items ++ spaced (command_words (command.Scene request.now)) }
    ensures room { array_vec_len line.new ≤ array_vec_len line.old + 26 }
{
    push_named_byte(line, Name::Level, request.level);
    push_name(line, Name::In);
    line.push(b' ');
    push_seconds(line, u64::from(request.transition_time.0), 3);
}

/// An attribute, and what it is set to.
fn push_write(line: &mut Line, attribute: Name, value: Option<u8>)
    requires { array_vec_len line.old + length (name_text attribute) ≤ 180 }
    ensures text { line.new.items ≡ line.old.items ++ spaced (name_text attribute ∷ byte_or_null_word value ∷ []) }
    ensures room { array_vec_len line.new ≤ array_vec_len line.old + length (name_text attribute) + 6 }
{
    push_name(line, attribute);
    match value {
        Some(value) => push_byte(line, value),
        None => push_name(line, Name::Null),
    }
}

fn push_answer(line: &mut Line, answer: DeviceAnswer)
    requires { array_vec_len line.old ≤ 200 }
    ensures text { line.new.items ≡ line.old.items ++ spaced (answer_word answer ∷ []) }
    ensures room { array_vec_len line.new ≤ array_vec_len line.old + 7 }
{
    match answer {
        DeviceAnswer::Level(level) => push_byte(line, level),
        DeviceAnswer::Missing => push_name(line, Name::Null),
        DeviceAnswer::Failed => push_name(line, Name::Failed),
    }
}

/// Mask and override.
#[tactic(auto, using(crate::proofs::WritingLaws::spaced_append))]
fn push_options(line: &mut Line, options: CommandOptions)
    requires { array_vec_len line.old ≤ 180 }
    ensures text { line.new.items ≡ line.old.items ++ spaced (options_words options) }
    ensures room { array_vec_len line.new ≤ array_vec_len line.old + 22 }
{
    push_positive_byte(line, Name::Mask, options.options_mask.0);
    push_positive_byte(line, Name::Override, options.options_override.0);
}

fn push_direction(line: &mut Line, mode: Mode)
    requires { array_vec_len line.old ≤ 200 }
    ensures text { line.new.items ≡ line.old.items ++ spaced (name_text (direction_name mode) ∷ []) }
    ensures room { array_vec_len line.new ≤ array_vec_len line.old + 5 }
{
    match mode {
        Mode::Up => push_name(line, Name::Up),
        Mode::Down => push_name(line, Name::Down),
    }
}

fn push_on_off(line: &mut Line, on: bool)
    requires { array_vec_len line.old ≤ 200 }
    ensures text { line.new.items ≡ line.old.items ++ spaced (name_text (on_off_name on) ∷ []) }
    ensures room { array_vec_len line.new ≤ array_vec_len line.old + 4 }
{
    push_name(line, if on { Name::On } else { Name::Off });
}

/// A byte and its name behind two spaces, if the byte is there.
fn push_byte_setting(line: &mut Line, name: Name, value: Option<u8>)
    requires { array_vec_len line.old + length (name_text name) + 23 ≤ LINE_ROOM }
    ensures text { line.new.items ≡ line.old.items ++ setting_text (byte_words name value) }
    ensures room { array_vec_len line.new ≤ array_vec_len line.old + length (name_text name) + 6 }
{
    if value.is_some() {
        line.push(b' ');
        push_named_byte(line, name, value);
    }
}

fn push_positive_byte_setting(line: &mut Line, name: Name, byte: u8)
    requires { array_vec_len line.old + length (name_text name) + 23 ≤ LINE_ROOM }
    ensures text { line.new.items ≡ line.old.items ++ setting_text (positive_byte_words name byte) }
    ensures room { array_vec_len line.new ≤ array_vec_len line.old + length (name_text name) + 6 }
{
    if byte != 0 {
        push_byte_setting(line, name, Some(byte));
    }
}

fn push_time_setting(line: &mut Line, name: Name, time: Time)
    requires { array_vec_len line.old + length (name_text name) + 26 ≤ LINE_ROOM }
    ensures text { line.new.items ≡ line.old.items ++ setting_text (time_words name time) }
    ensures room { array_vec_len line.new ≤ array_vec_len line.old + length (name_text name) + 10 }
{
    if time.is_some() {
        line.push(b' ');
        push_named_time(line, name, time);
    }
}

fn push_positive_time_setting(line: &mut Line, name: Name, time: Tenths)
    requires { array_vec_len line.old + length (name_text name) + 26 ≤ LINE_ROOM }
    ensures text { line.new.items ≡ line.old.items ++ setting_text (positive_time_words name time) }
    ensures room { array_vec_len line.new ≤ array_vec_len line.old + length (name_text name) + 10 }
{
    if time != Tenths(0) {
        push_time_setting(line, name, Some(time));
    }
}

fn push_flag_setting(line: &mut Line, name: Name, is: bool)
    requires { array_vec_len line.old + length (name_text name) + 2 ≤ LINE_ROOM }
    ensures text { line.new.items ≡ line.old.items ++ setting_text (flag_words name is) }
    ensures room { array_vec_len line.new ≤ array_vec_len line.old + length (name_text name) + 2 }
{
    if is {
        line.push(b' ');
        push_name(line, name);
    }
}

/// A byte behind its name, if it is there.
fn push_named_byte(line: &mut Line, name: Name, value: Option<u8>)
    requires { array_vec_len line.old + length (name_text name) + 22 ≤ LINE_ROOM }
    ensures text { line.new.items ≡ line.old.items ++ spaced (byte_words name value) }
    ensures room { array_vec_len line.new ≤ array_vec_len line.old + length (name_text name) + 5 }
{
    if let Some(value) = value {
        push_name(line, name);
        push_byte(line, value);
    }
}

/// A byte behind its name, if it is not 0.
fn push_positive_byte(line: &mut Line, name: Name, byte: u8)
    requires { array_vec_len line.old + length (name_text name) + 22 ≤ LINE_ROOM }
    ensures text { line.new.items ≡ line.old.items ++ spaced (positive_byte_words name byte) }
    ensures room { array_vec_len line.new ≤ array_vec_len line.old + length (name_text name) + 5 }
{
    if byte != 0 {
        push_named_byte(line, name, Some(byte));
    }
}

/// A time behind its name, if it is there.
#[tactic(auto, using(crate::proofs::WritingLaws::tenths_digits))]
fn push_named_time(line: &mut Line, name: Name, time: Time)
    requires { array_vec_len line.old + length (name_text name) + 25 ≤ LINE_ROOM }
    ensures text { line.new.items ≡ line.old.items ++ spaced (time_words name time) }
    ensures room { array_vec_len line.new ≤ array_vec_len line.old + length (name_text name) + 9 }
{
    if let Some(time) = time {
        push_name(line, name);
        line.push(b' ');
        push_seconds(line, u64::from(time.0), 1);
    }
}

#[tactic(auto, using(crate::proofs::WritingLaws::verb_length))]
fn push_verb(line: &mut Line, verb: Verb)
    requires { array_vec_len line.old ≤ 200 }
    ensures text { line.new.items ≡ line.old.items ++ spaced (verb_text verb ∷ []) }
    ensures room { array_vec_len line.new ≤ array_vec_len line.old + 26 }
{
    push_word(line, verb.text());
}

fn push_name(line: &mut Line, name: Name)
    requires { array_vec_len line.old + length (name_text name) < LINE_ROOM }
    ensures text { line.new.items ≡ line.old.items ++ spaced (name_text name ∷ []) }
    ensures room { array_vec_len line.new ≡ array_vec_len line.old + length (name_text name) + 1 }
{
    push_word(line, name.text());
}

/// A word behind a space.
fn push_word(line: &mut Line, word: &[u8])
    requires { array_vec_len line.old + length word.now < LINE_ROOM }
    ensures text { line.new.items ≡ line.old.items ++ spaced (word.now ∷ []) }
    ensures room { array_vec_len line.new ≡ array_vec_len line.old + length word.now + 1 }
{
    line.push(b' ');
    push_text(line, word);
}

/// A number of a byte, behind a space.
#[tactic(auto, using(crate::proofs::WritingLaws::byte_digits))]
fn push_byte(line: &mut Line, byte: u8)
    requires { array_vec_len line.old + 21 ≤ LINE_ROOM }
    ensures text { line.new.items ≡ line.old.items ++ spaced (digits byte ∷ []) }
    ensures room { array_vec_len line.new ≤ array_vec_len line.old + 4 }
{
    line.push(b' ');
    push_number(line, u64::from(byte));
}

/// A time in units of which 10^places are a second, as 0.3s.
#[tactic(auto, using(crate::proofs::WritingLaws::ten_power_positive, text::proofs::DigitLaws::digits_at_most))]
fn push_seconds(line: &mut Line, time: u64, places: u32)
    requires places { places ≤ 6 }
    requires room { array_vec_len line.old + 22 + places ≤ LINE_ROOM }
    ensures text { line.new.items ≡ line.old.items ++ seconds_text places time }
    ensures room { array_vec_len line.new ≡ array_vec_len line.old + length (digits (time / 10 ^ places)) + places + 2 }
{
    push_number(line, time / 10u64.pow(places));
    line.push(b'.');
    push_fraction(line, time, places);
    line.push(b's');
}

/// The last digits of a number, this many.
#[tactic(auto, using(crate::proofs::WritingLaws::fraction_step))]
fn push_fraction(line: &mut Line, number: u64, places: u32)
    requires places { places ≤ 6 }
    requires room { array_vec_len line.old + places ≤ LINE_ROOM }
    ensures text { line.new.items ≡ line.old.items ++ fraction places number }
    ensures room { array_vec_len line.new ≡ array_vec_len line.old + places }
{
    for place in (0..places).rev() {
        line.push(digit_at(number, place));
    }
}

/// The digit before which this many stand, counted from the right.
#[tactic(auto, using(crate::proofs::WritingLaws::ten_power_positive))]
fn digit_at(number: u64, place: u32) -> u8
    requires { place ≤ 6 }
    ensures { result ≡ 48 + number / 10 ^ place % 10 }
{
    b'0' + (number / 10u64.pow(place) % 10) as u8
}

/// A number in decimal, with no leading zeros.
#[tactic(auto, using(text::proofs::DigitLaws::digits_decimal, text::proofs::DigitLaws::digits_at_most))]
fn push_number(line: &mut Line, number: u64)
    requires { array_vec_len line.old + 20 ≤ LINE_ROOM }
    ensures text { line.new.items ≡ line.old.items ++ digits number }
    ensures room { array_vec_len line.new ≡ array_vec_len line.old + length (digits number) }
{
    let mut buffer = Buffer::new();
    push_text(line, buffer.format(number).as_bytes());
}

fn push_text(line: &mut Line, text: &[u8])
    requires { array_vec_len line.old + length text.now ≤ LINE_ROOM }
    ensures text { line.new.items ≡ line.old.items ++ text.now }
    ensures room { array_vec_len line.new ≡ array_vec_len line.old + length text.now }
{
    let _fits = line.try_extend_from_slice(text);
}
