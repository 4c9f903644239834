//! Events and settings to records, which the readers read again.
ghost use Rattle.std.specs.Prelude.{◌≡◌, ◌++◌, take, replicate, [], ◌∷◌, Some, Ok};
ghost use Rattle.transitions.specs.declared.events.EventKind.TheVariants as kinds;
ghost use Rattle.records.specs.EventRecord.{event_read};
ghost use Rattle.records.specs.SettingsRecord.{settings_read};
ghost use Rattle.records.specs.Written.{Allowed, AnswerFits, ByteFits, KindFits, OptionsFit, TimeFits, answer_bytes, bit, bytes_of, event_record, kind_number, known, known_bits, mode_byte, named, settings_record, time_tenths, value_byte};

use crate::RECORD;
use transitions::events::{Command, DeviceAnswer, Event, EventKind};
use transitions::options::CommandOptions;
use transitions::settings::Settings;
use transitions::types::{Mode, Time};
use units::{Micros, Tenths};

/// The record of an event (docs/RULES.md, Records): the clock time in microseconds, a transition time in tenths of a
/// second, a scene's in milliseconds, a rate in levels a second. A value that is missing is marked so, and its bytes
/// are 0, as unnamed ones are.
pub fn write_event(event: Event) -> [u8; RECORD]
    ensures record { result ≡ event_record event }
    ensures read { event_read result ≡ Some event }
{
    let (kind, named) = kind_bytes(event.kind);
    let mut record = [0; RECORD];
    record[..4].copy_from_slice(&[0x4C, 0x45, kind, event.moment.on_off.into()]);
    record[4..12].copy_from_slice(&clock_bytes(event.moment.at));
    record[12..].copy_from_slice(&named);
    record
}

/// Bytes 4 to 11.
fn clock_bytes(at: Micros) -> [u8; 8]
    ensures { result ≡ bytes_of 8 at.0 }
{
    at.to_le_bytes()
}

/// Byte 2, and the bytes from 12 on. What a kind holds fits them: each value is of a type as wide as its bytes.
fn kind_bytes(kind: EventKind) -> (u8, [u8; 8])
    ensures number { result.0 ≡ kind_number kind }
    ensures bytes { result.1 ≡ take 8 (named kind ++ replicate 8 0) }
    ensures fits { KindFits kind }
{
    match kind {
        EventKind::StartUp => (0, [0; 8]),
        EventKind::Answer(answer) => (5, answer_bytes(answer)),
        EventKind::Wake => (6, [0; 8]),
        EventKind::Command(command) => command_bytes(command),
    }
}

/// The other twelve kinds.
fn command_bytes(command: Command) -> (u8, [u8; 8])
    ensures number { result.0 ≡ kind_number (kinds.Command command) }
    ensures bytes { result.1 ≡ take 8 (named (kinds.Command command) ++ replicate 8 0) }
    ensures fits { KindFits (kinds.Command command) }
{
    match command {
        Command::MoveToLevel(request) => {
            let [with_on_off, mask, over] = options_bytes(request.options);
            let level = request.level;
            let [known, low, high] = time_bytes(request.transition_time);
            (1, [with_on_off, level, known, low, high, mask, over, 0])
        }
        Command::Move(request) => {
            let [with_on_off, mask, over] = options_bytes(request.options);
            let mode = mode_byte(request.mode);
            let [known, rate] = known_bytes(request.rate);
            (2, [with_on_off, mode, known, rate, mask, over, 0, 0])
        }
        Command::Step(request) => {
            let [with_on_off, mask, over] = options_bytes(request.options);
            let mode = mode_byte(request.mode);
            let size = request.step_size;
            let [known, low, high] = time_bytes(request.transition_time);
            (3, [with_on_off, mode, size, known, low, high, mask, over])
        }
        Command::Stop(options) => {
            let [with_on_off, mask, over] = options_bytes(options);
            (4, [with_on_off, mask, over, 0, 0, 0, 0, 0])
        }
        Command::OnOffChanged(on) => (7, [on.into(), 0, 0, 0, 0, 0, 0, 0]),
        Command::Scene(request) => {
            let [known, level] = known_bytes(request.level);
            let [lowest, second, third, highest] = request.transition_time.to_le_bytes();
            (8, [known, level, lowest, second, third, highest, 0, 0])
        }
        Command::DeviceUpdate(level) => (9, [level, 0, 0, 0, 0, 0, 0, 0]),
        Command::DeviceStop => (10, [0; 8]),
        Command::SetOnLevel(level) => (11, setter_bytes(level)),
        Command::SetDefaultMoveRate(rate) => (12, setter_bytes(rate)),
        Command::SetStartUpCurrentLevel(level) => (13, setter_bytes(level)),
        Command::FactoryReset => (14, [0; 8]),
    }
}

/// The codes are a record's.
fn answer_bytes(answer: DeviceAnswer) -> [u8; 8]
    ensures bytes { result ≡ answer_bytes answer ++ replicate 6 0 }
    ensures fits { AnswerFits answer }
{
    match answer {
        DeviceAnswer::Level(level) => [0, level, 0, 0, 0, 0, 0, 0],
        DeviceAnswer::Missing => [1, 0, 0, 0, 0, 0, 0, 0],
        DeviceAnswer::Failed => [2, 0, 0, 0, 0, 0, 0, 0],
    }
}

/// Of the three setters.
fn setter_bytes(value: Option<u8>) -> [u8; 8]
    ensures bytes { result ≡ known value ∷ value_byte value ∷ replicate 6 0 }
    ensures fits { ByteFits value }
{
    let [known, value] = known_bytes(value);
    [known, value, 0, 0, 0, 0, 0, 0]
}

/// Whether a level or a rate is known, and what it is.
fn known_bytes(value: Option<u8>) -> [u8; 2]
    ensures bytes { result ≡ known value ∷ value_byte value ∷ [] }
    ensures fits { ByteFits value }
{
    [value.is_some().into(), value_byte(value)]
}

/// 0 where it is missing.
fn value_byte(value: Option<u8>) -> u8
    ensures byte { result ≡ value_byte value }
    ensures fits { ByteFits value }
{
    value.unwrap_or(0)
}

/// Whether a time is known, and its tenths.
fn time_bytes(time: Time) -> [u8; 3]
    ensures bytes { result ≡ known time ∷ bytes_of 2 (time_tenths time) }
    ensures fits { TimeFits time }
{
    let [low, high] = tenths_bytes(time);
    [time.is_some().into(), low, high]
}

/// 0 where it is missing.
fn tenths_bytes(time: Time) -> [u8; 2]
    ensures bytes { result ≡ bytes_of 2 (time_tenths time) }
    ensures fits { TimeFits time }
{
    time.unwrap_or(Tenths(0)).to_le_bytes()
}

/// With on/off, the mask and the override.
fn options_bytes(options: CommandOptions) -> [u8; 3]
    ensures bytes { result ≡ bit options.with_on_off ∷ options.options_mask.0 ∷ options.options_override.0 ∷ [] }
    ensures fits { OptionsFit options }
{
    [
        options.with_on_off.into(),
        options.options_mask.0,
        options.options_override.0,
    ]
}

/// 0 is up and 1 down; the codes are a record's.
fn mode_byte(mode: Mode) -> u8
    ensures { result ≡ mode_byte mode }
{
    match mode {
        Mode::Up => 0,
        Mode::Down => 1,
    }
}

/// The record of settings (docs/RULES.md, Records): times in tenths of a second, the rates in levels a second. A value
/// that is missing has no known bit, and its bytes are 0. Settings that the numbers 2 to 4 refuse have a record too.
pub fn write_settings(settings: Settings) -> [u8; RECORD]
    ensures record { result ≡ settings_record settings }
    ensures read { Allowed settings → settings_read result ≡ Ok settings }
{
    let attributes = settings.attributes;
    let [common_low, common_high] = attributes.on_off_transition_time.to_le_bytes();
    let [on_low, on_high] = tenths_bytes(attributes.on_transition_time);
    let [off_low, off_high] = tenths_bytes(attributes.off_transition_time);
    [
        0x4C,
        0x47,
        settings.range.min,
        settings.range.max,
        settings.coupled.into(),
        attributes.options.0,
        settings.fastest_rate,
        value_byte(settings.current_level),
        value_byte(attributes.on_level),
        value_byte(attributes.start_up_current_level),
        value_byte(attributes.default_move_rate),
        known_bits(&settings),
        common_low,
        common_high,
        on_low,
        on_high,
        off_low,
        off_high,
        settings.lighting.into(),
        0,
    ]
}

/// Byte 11.
fn known_bits(settings: &Settings) -> u8
    ensures { result ≡ known_bits settings.now }
{
    let attributes = settings.attributes;
    u8::from(settings.current_level.is_some())
        + 2 * u8::from(attributes.on_level.is_some())
        + 4 * u8::from(attributes.start_up_current_level.is_some())
        + 8 * u8::from(attributes.default_move_rate.is_some())
        + 16 * u8::from(attributes.on_transition_time.is_some())
        + 32 * u8::from(attributes.off_transition_time.is_some())
}
